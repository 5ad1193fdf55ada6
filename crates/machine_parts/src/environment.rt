// One environment, entered at vertex after vertex.
ghost use Rattle.std.specs.Prelude.{◌≡◌, ◌≤◌, ◌<◌, None, ℤ, List, Option, length, replicate};
ghost use Rattle.symple_face.specs.Sight.{Sight, seen_env};
ghost use Rattle.vert_eval.specs.Rounds.{row_at};
ghost use Rattle.vert_eval.specs.SourceRun.{with_row};
ghost use Rattle.machine_parts.specs.Entering.{IsReadyFor, entered};

use crate::rows::{Rows, copy_words};
use arrayvec::ArrayVec;
use symple_face::Degree;
use vert_base::{Neighbour, Row, VertexId};
use vert_eval::Env;

/// What is the same for all vertices of an action.
#[derive(Clone, Copy, Debug)]
pub struct Setting {
    pub vertices: u32,
    pub round: u32,
    pub draws: u64,
    /// How many slots the program has, none of which has a value.
    pub slots: usize,
}

// Values of so many slots, none of which is there.
fn no_values(slots: usize) -> ArrayVec<Option<i64>, 8>
    requires { slots ≤ 8 }
    ensures { result.items ≡ replicate slots None }
{
    let mut values = ArrayVec::new();
    'values: for _ in 0..slots {
        values.push(None);
    }
    values
}

fn no_row() -> Row {
    Row {
        words: ArrayVec::new(),
        active: false,
    }
}

/// An environment that has entered no vertex yet.
pub fn new_env(setting: &Setting, totals: &[i64]) -> Env
    requires slots { setting.now.slots ≤ 8 }
    requires totals { length totals.now ≤ 4 }
    ensures n { result.n ≡ setting.now.vertices }
    ensures round { result.round ≡ setting.now.round }
    ensures draws { result.draws ≡ setting.now.draws }
    ensures slots { result.slots.items ≡ replicate setting.now.slots None }
    ensures totals { result.totals.items ≡ totals.now }
{
    let mut words = ArrayVec::new();
    copy_words(totals, &mut words);
    Env {
        id: VertexId(0),
        n: setting.vertices,
        round: setting.round,
        indeg: 0,
        outdeg: 0,
        draws: setting.draws,
        row: no_row(),
        next_active: false,
        locals: ArrayVec::new(),
        touched: 0,
        other: Neighbour {
            id: VertexId(0),
            weight: 0,
            indeg: 0,
            outdeg: 0,
        },
        other_row: no_row(),
        sends: ArrayVec::new(),
        slots: no_values(setting.slots),
        totals: words,
        key: 0,
    }
}

/// Reads the row at a place as that of the vertex and of its neighbour.
#[inline]
pub fn read_row_of(rows: &Rows, place: usize, env: &mut Env)
    requires { place < length rows.now.rows }
    ensures row { env.new ≡ with_row (row_at rows.now.rows place) env.old }
    ensures width { length (row_at rows.now.rows place).words.items ≡ rows.now.width }
{
    let words = rows.words(place);
    let active = rows.is_active(place);
    write_row(words, active, &mut env.row);
    write_row(words, active, &mut env.other_row);
}

// Writes the words and the flag of a row.
#[inline]
fn write_row(words: &[i64], active: bool, into: &mut Row)
    requires { length words.now ≤ 16 }
    ensures words { into.new.words.items ≡ words.now }
    ensures active { into.new.active ≡ active }
{
    copy_words(words, &mut into.words);
    into.active = active;
}

/// Goes to a vertex whose row the environment has already. What the vertex before has left there is
/// gone, but for the values of slots.
#[inline]
pub fn enter(env: &mut Env, id: VertexId, degree: &Degree, key: u32)
    ensures entered { env.new ≡ entered id.0 degree.now key env.old }
    ensures seen { (g : Sight) (values : List (Option ℤ))
        → IsReadyFor g id.0 degree.now values env.old → env.new ≡ seen_env g id.0 key values }
{
    env.id = id;
    env.indeg = degree.ins;
    env.outdeg = degree.outs;
    env.next_active = false;
    env.locals.clear();
    env.touched = 0;
    env.other = Neighbour {
        id,
        weight: 0,
        indeg: degree.ins,
        outdeg: degree.outs,
    };
    env.sends.clear();
    env.key = key;
}
