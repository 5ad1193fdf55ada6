// The rows of a machine before the first round.
ghost use Rattle.std.specs.Prelude.{IsTrue, ◌≡◌, ◌≤◌, ◌<◌, ◌+◌, [], length, map, slice_set};
ghost use Rattle.std.specs.List.{list_all};
ghost use Rattle.vert_tree.specs.Places.{expr_placed};
ghost use Rattle.vert_eval.specs.Rounds.{empty_row};
ghost use Rattle.vert_eval.specs.SourceRun.{with_row};
ghost use Rattle.vert_eval.specs.Values.{CanDraw, counts_of, value_of};
ghost use Rattle.vert_eval.specs.Words.{is_set};
ghost use Rattle.vert_base.specs.Ends.{start_of};
ghost use Rattle.symple_face.specs.CoreFirst.{first_row_of};
ghost use Rattle.symple_face.specs.CoreSight.{degree_of, field_count};
ghost use Rattle.symple_face.specs.PartViews.{plain_of};
ghost use Rattle.symple_face.specs.Parts.{chunk_vertices};
ghost use Rattle.vertex_work.specs.Firsts.{IsBlank, counts_with, first_row_by};

use crate::ground::Ground;
use crate::words::copy_words;
use arrayvec::ArrayVec;
use machine_parts::{Rows, Setting, enter, new_env};
use symple_face::Degree;
use vert_base::{Row, VertexId};
use vert_eval::{Env, eval, truth};
use vert_tree::{Decl, Expr, Program};

// What the fields of a vertex begin with.
fn field_words(fields: &[Decl], env: &Env) -> ArrayVec<i64, 16>
    requires room { length fields.now ≤ 16 }
    requires names { IsTrue (list_all (λ d. expr_placed (counts_of env.now) d.value) fields.now) }
    requires draws { CanDraw env.now }
    ensures { result.items ≡ map (λ d. value_of d.value env.now) fields.now }
{
    let mut words = ArrayVec::new();
    for field in fields {
        words.push(eval(&field.value, env));
    }
    words
}

// Whether the value of an expression counts as true.
fn holds(test: &Expr, env: &Env) -> bool
    requires names { IsTrue (expr_placed (counts_of env.now) test.now) }
    requires draws { CanDraw env.now }
    ensures { result ≡ is_set (value_of test.now env.now) }
{
    truth(eval(test, env))
}

// Gives the vertex of an environment a row, which is also that of the neighbour.
fn show_row(row: &Row, env: &mut Env)
    ensures { env.new ≡ with_row row.now env.old }
{
    copy_words(row.words.as_slice(), &mut env.row.words);
    env.row.active = row.active;
    copy_words(row.words.as_slice(), &mut env.other_row.words);
    env.other_row.active = row.active;
}

/// Leaves the vertex of an environment no row.
pub fn clear_rows(env: &mut Env)
    ensures { env.new ≡ with_row empty_row env.old }
{
    env.row.words.clear();
    env.row.active = false;
    env.other_row.words.clear();
    env.other_row.active = false;
}

// The row that a program gives the vertex of an environment.
fn first_row(program: &Program, env: &mut Env) -> Row
    requires room { length program.now.fields.items ≤ 16 }
    requires fields { IsTrue (list_all (λ d. expr_placed (counts_of env.old) d.value)
        program.now.fields.items) }
    requires start { IsTrue (expr_placed (counts_with program.now env.old) program.now.start) }
    requires draws { CanDraw env.old }
    ensures row { result ≡ first_row_by program.now env.old }
    ensures n { env.new.n ≡ env.old.n }
    ensures round { env.new.round ≡ env.old.round }
    ensures seed { env.new.draws ≡ env.old.draws }
    ensures totals { env.new.totals ≡ env.old.totals }
    ensures slots { env.new.slots ≡ env.old.slots }
{
    let mut row = Row {
        words: field_words(&program.fields, env),
        active: false,
    };
    show_row(&row, env);
    row.active = holds(&program.start, env);
    row
}

// Writes the row of the own vertex at a place.
fn put_first_row(ground: &Ground, degree: &Degree, place: usize, rows: &mut Rows, env: &mut Env)
    requires place { place < length rows.old.rows }
    requires own { place < length
        (chunk_vertices ground.now.part.cuts ground.now.part.at.machine) }
    requires width { rows.old.width ≡ field_count ground.now.part.split.value }
    requires degree { degree.now ≡ degree_of (plain_of ground.now.part)
        (start_of ground.now.part.cuts ground.now.part.at.machine + place) }
    requires blank { IsBlank (plain_of ground.now.part) env.old }
    ensures rows { rows.new ≡ record rows.old {
      rows = slice_set rows.old.rows place
          (first_row_of (plain_of ground.now.part) ground.now.part.split.value
          (start_of ground.now.part.cuts ground.now.part.at.machine + place));
    } }
    ensures blank { IsBlank (plain_of ground.now.part) env.new }
{
    let _count = ground.own_count();
    let v = VertexId(ground.start() + place as u32);
    clear_rows(env);
    enter(env, v, degree, 0);
    let row = first_row(ground.program(), env);
    rows.write(place, &row);
}

/// Writes the rows of all own vertices.
pub fn fill_rows(ground: &Ground, rows: &mut Rows)
    requires count { length rows.old.rows
        ≡ length (chunk_vertices ground.now.part.cuts ground.now.part.at.machine) }
    requires width { rows.old.width ≡ field_count ground.now.part.split.value }
    ensures { rows.new ≡ record rows.old {
      rows = map (first_row_of (plain_of ground.now.part) ground.now.part.split.value)
          (chunk_vertices ground.now.part.cuts ground.now.part.at.machine);
    } }
{
    let setting = Setting {
        slots: 0,
        ..ground.setting(0)
    };
    let mut env = new_env(&setting, &[]);
    let degrees = ground.degrees(ground.machine());
    'places: for place in 0..rows.len() {
        put_first_row(ground, &degrees[place], place, rows, &mut env);
    }
}
