//! The end of a round at one own vertex: the tail of a dense one, and the update.

ghost use Rattle.std.specs.Prelude.{◌≡◌, ◌≤◌, ◌<◌, ◌+◌, [], true, All, None, Some, drop, length, map, slice_index_or, slice_set, take, unwrap_or};
ghost use Rattle.vert_eval.specs.Rounds.{no_values, updated};
ghost use Rattle.symple_face.specs.CoreClose.{tail_at, values_of};
ghost use Rattle.symple_face.specs.CoreScan.{told_words};
ghost use Rattle.symple_face.specs.CoreSight.{program_of};
ghost use Rattle.symple_face.specs.CoreTakes.{slot_count};
ghost use Rattle.symple_face.specs.Sight.{seen_env};
ghost use Rattle.value_laws.specs.Blind.{is_quiet};
ghost use Rattle.machine_parts.specs.Flat.{state_at};
ghost use Rattle.vertex_work.specs.Closing.{CanClose, ended_row, ending_partials, own_view};
ghost use Rattle.vertex_work.specs.Tails.{SameRound};

use crate::scratch::{Scratch, load_emits, put_values, resize};
use crate::tail::run_tail;
use arrayvec::ArrayVec;
use dep_layout::Mark;
use instrument::Split;
use machine_parts::{RingHalf, Rows, enter, read_row_of};
use slot_merge::{Emits, Partial};
use symple_face::Degree;
use vert_base::VertexId;
use vert_code::{Block, Code};
use vert_eval::Env;
use vert_tree::{Dense, SlotDecl};
use vert_vm::{Stack, step_block_over};

/// What is the same for all own vertices at the end of a round. Their degrees begin at `start`.
#[derive(Drop)]
pub struct Ending<'a> {
    pub code: &'a Code,
    pub split: &'a Split,
    pub degrees: &'a [Degree],
    pub start: u32,
    /// The key under which the tail emits.
    pub key: u32,
    /// Whether the tail runs, where the program has one.
    pub tail: bool,
    /// Whether the update changes nothing where no slot has a value.
    pub quiet: bool,
    ghost still: { quiet ≡ true → is_quiet (program_of split.now).update.items ≡ true },
}

/// Writes the row that an own vertex has at the end of the round, by its partials and ring state.
pub fn end_vertex(
    ending: &Ending,
    ring: &RingHalf,
    place: usize,
    own: &[Partial],
    rows: &mut Rows,
    env: &mut Env,
    scratch: &mut Scratch,
)
    requires can { CanClose ending.now.split.now ending.now.code.now ending.now.start
        (length rows.old.rows) (length ending.now.degrees.now) rows.old.width env.old }
    requires place { place < length rows.old.rows }
    requires states { length ring.now.states ≡ length rows.old.rows }
    requires partials { slot_count ending.now.split.now ≤ length own.now }
    ensures rows { let split = ending.now.split.now in
        let g = own_view rows.old.rows ending.now.degrees.now ending.now.start env.old in
        rows.new ≡ record rows.old {
          rows = slice_set rows.old.rows place (ended_row ending.now.tail split g ending.now.key
              own.now (state_at ring.now.states place) (ending.now.start + place));
        } }
    ensures round { SameRound env.old env.new }
{
    let emits = &mut scratch.emits;
    let stack = &mut scratch.stack;
    take_slots(own, ending.split.program.program.slots.len(), emits);
    end_loop(ending, ring, place, own, rows, env, emits, stack);
    if ending.quiet && !rows.is_active(place) && are_valueless(emits.slots.as_slice()) {
        return;
    }
    update_row(ending, place, rows, env, emits, stack);
}

/// Adds what the tail emits at an own vertex to its slots, where it runs.
fn end_loop(
    ending: &Ending,
    ring: &RingHalf,
    place: usize,
    own: &[Partial],
    rows: &Rows,
    env: &mut Env,
    emits: &mut Emits,
    stack: &mut Stack,
)
    requires can { CanClose ending.now.split.now ending.now.code.now ending.now.start
        (length rows.now.rows) (length ending.now.degrees.now) rows.now.width env.old }
    requires place { place < length rows.now.rows }
    requires states { length ring.now.states ≡ length rows.now.rows }
    requires partials { slot_count ending.now.split.now ≤ length own.now }
    requires slots { emits.old.slots.items ≡ take (slot_count ending.now.split.now) own.now }
    ensures slots { let split = ending.now.split.now in
        let g = own_view rows.now.rows ending.now.degrees.now ending.now.start env.old in
        emits.new.slots.items ≡ take (slot_count split) (ending_partials ending.now.tail split g
        ending.now.key own.now (state_at ring.now.states place) (ending.now.start + place)) }
    ensures round { SameRound env.old env.new }
    ensures count { length emits.new.slots.items ≡ length emits.old.slots.items }
{
    if !ending.tail {
        return;
    }
    let program = &ending.split.program.program;
    let Some(dense) = &program.dense else {
        return;
    };
    clear_values(&program.slots, &mut env.slots);
    read_row_of(rows, place, env);
    let id = VertexId(ending.start + place as u32);
    enter(env, id, &ending.degrees[place], ending.key);
    let lets = &own[program.slots.len()..];
    run_tail(
        ending.code,
        ending.split,
        dense,
        handed(ring, place),
        lets,
        env,
        emits,
        stack,
    );
}

/// The words that the last machine of the chunk left of a vertex, none where its loop hasn't begun.
#[inline]
fn handed(ring: &RingHalf, place: usize) -> &[i64]
    requires { place < length ring.now.states }
    ensures { result.now ≡ unwrap_or (told_words (state_at ring.now.states place)) [] }
{
    match ring.mark(place) {
        Mark::Fresh => &[],
        Mark::Running | Mark::Broken => ring.words(place),
    }
}

/// Writes the row of an own vertex after the update, by what came to its slots.
fn update_row(
    ending: &Ending,
    place: usize,
    rows: &mut Rows,
    env: &mut Env,
    emits: &mut Emits,
    stack: &mut Stack,
)
    requires can { CanClose ending.now.split.now ending.now.code.now ending.now.start
        (length rows.old.rows) (length ending.now.degrees.now) rows.old.width env.old }
    requires place { place < length rows.old.rows }
    requires slots { length emits.old.slots.items ≡ slot_count ending.now.split.now }
    ensures rows { let g = own_view rows.old.rows ending.now.degrees.now ending.now.start env.old in
        rows.new ≡ record rows.old {
          rows = slice_set rows.old.rows place
              (updated (program_of ending.now.split.now).update.items (seen_env g
              (ending.now.start + place) 0 (values_of emits.old.slots.items)));
        } }
    ensures round { SameRound env.old env.new }
{
    put_values(emits.slots.as_slice(), &mut env.slots);
    read_row_of(rows, place, env);
    let id = VertexId(ending.start + place as u32);
    enter(env, id, &ending.degrees[place], 0);
    step_block_over(ending.code, Block::UpdateBody, env, emits, stack);
    env.row.active = env.next_active;
    rows.write(place, &env.row);
}

/// Takes the partials of the slots out of those of a vertex.
fn take_slots(own: &[Partial], slots: usize, emits: &mut Emits)
    requires there { slots ≤ length own.now }
    requires few { slots ≤ 8 }
    ensures { emits.new.slots.items ≡ take slots own.now }
{
    load_emits(&own[..slots], emits);
}

/// Takes all values of the slots away.
fn clear_values(slots: &[SlotDecl], values: &mut ArrayVec<Option<i64>, 8>)
    requires { length slots.now ≤ 8 }
    ensures { values.new.items ≡ no_values (map (λ s. s.op) slots.now) }
{
    resize(values, slots.len());
    for (i, _slot) in slots.iter().enumerate() {
        values[i] = None;
    }
}

/// Whether no partial has a value.
#[inline]
fn are_valueless(partials: &[Partial]) -> bool
    ensures { result ≡ true → All (λ p. p.value ≡ None) partials.now }
{
    partials.iter().all(|partial| partial.value.is_none())
}
