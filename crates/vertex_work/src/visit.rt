// A vertex of a scan: what is at hand there, and what is sent of it.
ghost use Rattle.std.specs.Prelude.{◌≡◌, ◌==◌, ◌<◌, ◌≤◌, ◌^◌, not, All, length};
ghost use Rattle.std.specs.Int.{bit_at};
ghost use Rattle.vert_tree.specs.Places.{round_counts};
ghost use Rattle.vert_eval.specs.Values.{CanDraw, counts_of, word_at};
ghost use Rattle.symple_face.specs.CoreScan.{scanned};
ghost use Rattle.symple_face.specs.CoreSight.{program_of};
ghost use Rattle.symple_face.specs.CoreTakes.{slot_count};
ghost use Rattle.symple_face.specs.Plans.{loop_carry};
ghost use Rattle.symple_face.specs.Ring.{operand_at, operands};
ghost use Rattle.symple_face.specs.Shapes.{reduced_in, words_in};
ghost use Rattle.symple_face.specs.Sight.{Sight};
ghost use Rattle.machine_parts.specs.Flat.{state_at};
ghost use Rattle.machine_parts.specs.Neighbours.{AreOwn};
ghost use Rattle.vertex_work.specs.Stepping.{IsVisited, SameRound, ShowsVertex};

use crate::scratch::{Scratch, clear_emits, new_scratch, put_values, resize};
use crate::vertex::{LoopCode, OwnVertices, step_vertex};
use arrayvec::ArrayVec;
use instrument::SplitLoop;
use machine_parts::RingHalf;
use vert_base::Edge;
use vert_eval::Env;

/// What a scan has at hand at a vertex: its environment, what its code runs with, and what is sent
/// of it, a value for each slot and a word for each reduced let.
#[derive(Drop)]
pub struct Visit {
    pub env: Env,
    pub scratch: Scratch,
    pub values: ArrayVec<Option<i64>, 8>,
    pub operands: ArrayVec<Option<i64>, 8>,
}

/// What a scan has at hand before the first vertex.
pub fn new_visit(env: Env) -> Visit
    ensures { result.env ≡ env }
{
    Visit {
        env,
        scratch: new_scratch(),
        values: ArrayVec::new(),
        operands: ArrayVec::new(),
    }
}

// Whether a mark is set.
#[inline]
fn is_marked(marks: u8, place: u8) -> bool
    ensures { result ≡ not (bit_at marks place == 0) }
{
    place < 8 && (marks >> place) % 2 != 0
}

// The word of a let, 0 where there is none.
#[inline]
fn local_at(env: &Env, place: u8) -> i64
    ensures { result ≡ word_at env.now.locals.items place }
{
    match env.locals.as_slice().get(usize::from(place)) {
        Some(word) => *word,
        None => 0,
    }
}

// The word of a let where an `op=` ran on it.
#[inline]
fn operand_at(env: &Env, place: u8) -> Option<i64>
    ensures { result ≡ operand_at place env.now }
{
    if is_marked(env.touched, place) {
        Some(local_at(env, place))
    } else {
        None
    }
}

// The words of the reduced lets.
fn write_operands(parts: &SplitLoop, env: &Env, words: &mut ArrayVec<Option<i64>, 8>)
    ensures { words.new.items ≡ operands parts.now.reduced.items env.now }
{
    let places = parts.reduced.as_slice();
    resize(words, places.len());
    for (i, place) in places.iter().enumerate() {
        words[i] = operand_at(env, *place);
    }
}

/// Runs the loop of the vertex that the environment has entered, and gathers what is sent of it:
/// how many members it reads.
pub fn scan_vertex(
    body: &LoopCode,
    own: &OwnVertices,
    members: &[Edge],
    visit: &mut Visit,
    half: &mut RingHalf,
    place: usize,
) -> u32
    requires own { AreOwn own.now.start (length own.now.degrees.now)
        (length own.now.rows.now.rows) members.now }
    requires few { length members.now < 2 ^ 32 }
    requires wide { All (λ r. length r.words.items ≡ length visit.old.env.row.words.items)
        own.now.rows.now.rows }
    requires place { place < length half.old.states }
    requires width { half.old.width ≡ words_in (loop_carry body.now.split.now.dense) }
    requires counts { counts_of visit.old.env ≡ round_counts (program_of body.now.split.now) }
    requires draws { CanDraw visit.old.env }
    ensures visited { (g : Sight)
        → ShowsVertex body.now.split.now g own.now.start own.now.degrees.now own.now.rows.now.rows
        members.now visit.old.env
        → IsVisited (scanned body.now.split.now body.now.dense.now g visit.old.env.key members.now
        visit.old.env.id.0 (state_at half.old.states place)) members.now place half.old half.new
        (record { values = visit.new.values.items; operands = visit.new.operands.items })
        result }
    ensures within { result ≤ length members.now }
    ensures same { SameRound visit.old.env visit.new.env }
    ensures words { half.new.width ≡ half.old.width }
    ensures states { length half.new.states ≡ length half.old.states }
    ensures values { length visit.new.values.items ≡ slot_count body.now.split.now }
    ensures operands { length visit.new.operands.items
        ≡ length (reduced_in body.now.split.now.dense) }
{
    clear_emits(&mut visit.scratch.emits, &body.split.program.program.slots);
    let count = step_vertex(
        body,
        own,
        members,
        &mut visit.env,
        &mut visit.scratch.emits,
        &mut visit.scratch.stack,
        half,
        place,
    );
    put_values(visit.scratch.emits.slots.as_slice(), &mut visit.values);
    write_operands(body.parts, &visit.env, &mut visit.operands);
    count
}
