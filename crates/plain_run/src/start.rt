ghost use Rattle.std.specs.Prelude.{IsTrue, ◌≡◌, ◌≤◌, ◌<◌, IfOk, length, map};
ghost use Rattle.std.specs.List.{list_all};
ghost use Rattle.vert_tree.specs.Places.{expr_placed};
ghost use Rattle.vert_eval.specs.Words.{is_set};
ghost use Rattle.vert_eval.specs.Values.{CanDraw, counts_of, value_of};
ghost use Rattle.vert_eval.specs.SourceRun.{first_row, first_rows, with_row};
ghost use Rattle.plain_run.specs.Jobs.{HasRows, job_of};

use super::job::Job;
use super::scene::{Scene, blank_env, copy_row, enter_vertex};
use arrayvec::ArrayVec;
use std::alloc::{AllocError, Global};
use vert_base::Row;
use vert_eval::{Env, eval, truth};
use vert_tree::{Decl, Expr};

fn field_words(fields: &[Decl], env: &Env) -> ArrayVec<i64, 16>
    requires room { length fields.now ≤ 16 }
    requires names { IsTrue (list_all (λ d. expr_placed (counts_of env.now) d.value) fields.now) }
    requires draws { CanDraw env.now }
    ensures { result.items ≡ map (λ d. value_of d.value env.now) fields.now }
{
    let mut words = ArrayVec::new();
    for field in fields {
        words.push(eval(&field.value, env));
    }
    words
}

fn enter_row(row: &Row, env: &mut Env)
    ensures { env.new ≡ with_row row.now env.old }
{
    copy_row(row, &mut env.row);
    copy_row(row, &mut env.other_row);
}

/// Whether the value of the expression counts as true.
pub(crate) fn holds(test: &Expr, env: &Env) -> bool
    requires names { IsTrue (expr_placed (counts_of env.now) test.now) }
    requires draws { CanDraw env.now }
    ensures { result ≡ is_set (value_of test.now env.now) }
{
    truth(eval(test, env))
}

/// The row of a vertex before the first round.
fn first_row(job: &Job, v: u32, env: &mut Env) -> Row
    requires { v < job.now.graph.now.vertices }
    ensures { result ≡ first_row (job_of job.now) v }
{
    let scene = Scene {
        program: job.program,
        graph: job.graph,
        draws: job.draws,
        round: 0,
        rows: &[],
        totals: &[],
    };
    let program = &job.program.program;
    enter_vertex(&scene, v, env);
    let mut row = Row {
        words: field_words(&program.fields, env),
        active: false,
    };
    enter_row(&row, env);
    row.active = holds(&program.start, env);
    row
}

/// The rows before the first round.
pub(crate) fn first_rows(alloc: Global, job: &Job) -> Result<Vec<Row>, AllocError>
    ensures rows { IfOk result (λ rows. rows.items ≡ first_rows (job_of job.now)) }
    ensures stands { IfOk result (λ rows. HasRows job.now rows.items) }
{
    let vertices = job.graph.vertices();
    let mut rows = Vec::with_capacity(alloc, vertices as usize)?;
    let mut env = blank_env();
    for v in 0..vertices {
        rows.push(first_row(job, v, &mut env))?;
    }
    Ok(rows)
}
