// The loop of one vertex over the neighbours that lie with a machine.
ghost use Rattle.std.specs.Prelude.{◌≡◌, ◌<◌, ◌≤◌, ◌^◌, All, length, map, slice_set};
ghost use Rattle.slot_merge.specs.Partials.{empty_partial, with_emissions};
ghost use Rattle.vert_tree.specs.Places.{round_counts};
ghost use Rattle.vert_eval.specs.Rounds.{slot_ops};
ghost use Rattle.vert_eval.specs.Values.{CanDraw, counts_of};
ghost use Rattle.vert_vm.specs.Segments.{Fed, IsWide};
ghost use Rattle.instrument.specs.Segments.{begun};
ghost use Rattle.symple_face.specs.CoreScan.{mark_after, scanned, told_words};
ghost use Rattle.symple_face.specs.CoreSight.{program_of};
ghost use Rattle.symple_face.specs.Plans.{loop_carry};
ghost use Rattle.symple_face.specs.Shapes.{words_in};
ghost use Rattle.symple_face.specs.Sight.{Sight};
ghost use Rattle.machine_parts.specs.Flat.{state_at};
ghost use Rattle.machine_parts.specs.Neighbours.{AreOwn};
ghost use Rattle.vertex_work.specs.Scanning.{AreOwnVertices};
ghost use Rattle.vertex_work.specs.Stepping.{IsLoopOf, IsScanned, SameRound, ShowsVertex, passes, segment_fed, state_left};

use arrayvec::ArrayVec;
use dep_layout::Mark;
use instrument::{Split, SplitLoop};
use machine_parts::{PartFeed, RingHalf, Rows};
use slot_merge::Emits;
use symple_face::{Degree, Feed};
use vert_base::Edge;
use vert_code::Code;
use vert_eval::{Env, Flow, eval, truth};
use vert_tree::Dense;
use vert_vm::{Stack, step_segment_over};

/// The loop of a program with a dense block, and its code.
#[derive(Drop)]
pub struct LoopCode<'a> {
    pub code: &'a Code,
    pub split: &'a Split,
    pub dense: &'a Dense,
    pub parts: &'a SplitLoop,
    ghost is: { IsLoopOf code.now split.now dense.now parts.now },
}

/// What a machine has of its own vertices, which begin at `start`, with the edges that leave them.
#[derive(Drop)]
pub struct OwnVertices<'a> {
    pub rows: &'a Rows,
    pub degrees: &'a [Degree],
    pub start: u32,
    pub edges: &'a [Edge],
    ghost own: { AreOwnVertices start degrees.now rows.now edges.now },
}

fn mark_after(flow: Flow) -> Mark
    ensures { result ≡ mark_after flow }
{
    match flow {
        Flow::Going => Mark::Running,
        Flow::Broke => Mark::Broken,
    }
}

// Begins a segment with the state received at a place.
fn begin_segment(body: &LoopCode, env: &mut Env, half: &RingHalf, place: usize)
    requires place { place < length half.now.states }
    requires counts { counts_of env.old ≡ round_counts (program_of body.now.split.now) }
    requires draws { CanDraw env.old }
    ensures begun { env.new ≡ begun body.now.parts.now body.now.dense.now.lets.items
        (told_words (state_at half.now.states place)) env.old }
    ensures counts { counts_of env.new ≡ record (counts_of env.old) {
      locals = length body.now.parts.now.classes.locals.items;
    } }
    ensures draws { CanDraw env.new }
{
    match half.mark(place) {
        Mark::Fresh => body.parts.begin(&body.split.program, env, None),
        Mark::Running | Mark::Broken => {
            let words = half.words(place);
            body.parts.begin(&body.split.program, env, Some(words));
        }
    }
}

// Runs a segment over the neighbours that a feed gives, from the state at a place on, and puts
// the state that it hands on there.
fn run_segment<F: Feed>(
    body: &LoopCode,
    env: &mut Env,
    half: &mut RingHalf,
    place: usize,
    emits: &mut Emits,
    stack: &mut Stack,
    feed: &mut F,
)
    requires place { place < length half.old.states }
    requires width { half.old.width ≡ words_in (loop_carry body.now.split.now.dense) }
    requires counts { counts_of env.old ≡ round_counts (program_of body.now.split.now) }
    requires draws { CanDraw env.old }
    requires rows { All (IsWide env.old) (F.left feed.old) }
    requires partials { length emits.old.slots.items ≡ length env.old.slots.items }
    ensures env { let ran = segment_fed body.now.code.now body.now.dense.now body.now.parts.now
        (F.left feed.old) (state_at half.old.states place) env.old in
        env.new ≡ ran.env }
    ensures half { let ran = segment_fed body.now.code.now body.now.dense.now body.now.parts.now
        (F.left feed.old) (state_at half.old.states place) env.old in
        half.new ≡ record half.old {
          states = slice_set half.old.states place (state_left body.now.parts.now ran);
        } }
    ensures emits { let ran = segment_fed body.now.code.now body.now.dense.now body.now.parts.now
        (F.left feed.old) (state_at half.old.states place) env.old in
        emits.new.slots.items ≡ with_emissions env.old.key emits.old.slots.items ran.emitted }
    ensures fed { let ran = segment_fed body.now.code.now body.now.dense.now body.now.parts.now
        (F.left feed.old) (state_at half.old.states place) env.old in
        Fed (F.given feed.old) (F.left feed.old) (F.given feed.new) (F.left feed.new) ran.reads }
    ensures same { SameRound env.old env.new }
    ensures partials { length emits.new.slots.items ≡ length emits.old.slots.items }
{
    begin_segment(body, env, half, place);
    let flow = step_segment_over(body.code, env, emits, stack, feed);
    let mut words = ArrayVec::new();
    body.parts.give(env, &mut words);
    half.put(place, mark_after(flow), words.as_slice());
}

// Whether a vertex passes its state on.
fn passes(body: &LoopCode, mark: Mark, env: &Env) -> bool
    requires counts { counts_of env.now ≡ round_counts (program_of body.now.split.now) }
    requires draws { CanDraw env.now }
    ensures { result ≡ passes body.now.dense.now mark env.now }
{
    match mark {
        Mark::Fresh | Mark::Running => !truth(eval(&body.dense.when_test, env)),
        Mark::Broken => true,
    }
}

/// Runs the loop of the vertex that the environment has entered over its members, from the state at
/// a place on, and puts the state that it hands on there: how many members it reads. Where the loop
/// broke before or the test is false, all stays as it was.
pub(crate) fn step_vertex(
    body: &LoopCode,
    own: &OwnVertices,
    members: &[Edge],
    env: &mut Env,
    emits: &mut Emits,
    stack: &mut Stack,
    half: &mut RingHalf,
    place: usize,
) -> u32
    requires own { AreOwn own.now.start (length own.now.degrees.now)
        (length own.now.rows.now.rows) members.now }
    requires few { length members.now < 2 ^ 32 }
    requires wide { All (λ r. length r.words.items ≡ length env.old.row.words.items)
        own.now.rows.now.rows }
    requires place { place < length half.old.states }
    requires width { half.old.width ≡ words_in (loop_carry body.now.split.now.dense) }
    requires counts { counts_of env.old ≡ round_counts (program_of body.now.split.now) }
    requires draws { CanDraw env.old }
    requires empty { emits.old.slots.items
        ≡ map empty_partial (slot_ops (program_of body.now.split.now)) }
    ensures scanned { (g : Sight)
        → ShowsVertex body.now.split.now g own.now.start own.now.degrees.now own.now.rows.now.rows
        members.now env.old
        → IsScanned (scanned body.now.split.now body.now.dense.now g env.old.key members.now
        env.old.id.0 (state_at half.old.states place)) body.now.parts.now members.now place
        half.old half.new emits.new.slots.items env.new result }
    ensures within { result ≤ length members.now }
    ensures same { SameRound env.old env.new }
    ensures words { half.new.width ≡ half.old.width }
    ensures states { length half.new.states ≡ length half.old.states }
    ensures partials { length emits.new.slots.items ≡ length emits.old.slots.items }
{
    if passes(body, half.mark(place), env) {
        return 0;
    }
    let mut feed = PartFeed {
        edges: members,
        given: 0,
        rows: own.rows,
        degrees: own.degrees,
        start: own.start,
    };
    run_segment(body, env, half, place, emits, stack, &mut feed);
    feed.given.min(feed.edges.len()) as u32
}
