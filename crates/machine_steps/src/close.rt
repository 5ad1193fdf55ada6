//! The close of a round: the rows after it, and partials and loops as they are before a round.

ghost use Rattle.std.specs.Prelude.{◌≡◌, ◌&&◌, ◌≤◌, ◌<◌, ◌+◌, [], false, true, length, map, replicate, slice_index_or, slice_set};
ghost use Rattle.std.specs.List.{All, range_with_len};
ghost use Rattle.vert_eval.specs.Rounds.{row_at};
ghost use Rattle.value_laws.specs.Blind.{is_quiet};
ghost use Rattle.symple_face.specs.CoreSight.{program_of, targets_of, total_count};
ghost use Rattle.symple_face.specs.CoreTakes.{empty_partials, slot_count};
ghost use Rattle.symple_face.specs.Parts.{PlainPart, chunk_vertices};
ghost use Rattle.symple_face.specs.PartViews.{plain_of};
ghost use Rattle.symple_face.specs.State.{State};
ghost use Rattle.machine_parts.specs.Flat.{state_at};
ghost use Rattle.vertex_work.specs.Closing.{CanClose, Closes, ended_at, ended_row, has_tail, own_view};
ghost use Rattle.machine_steps.specs.Counts.{AreCounts, lists_read};
ghost use Rattle.machine_steps.specs.Kept.{AreWide};
ghost use Rattle.vertex_work.specs.Shown.{Shows};
ghost use Rattle.vertex_work.specs.Tails.{SameRound};

use crate::blank::{empty_row, refresh_ring, ring_width};
use flat_table::Grid;
use machine_parts::{RingHalf, Rows, new_env};
use slot_merge::Partial;
use std::mem;
use vert_eval::Env;
use vert_tree::Program;
use vertex_work::{Ending, Ground, Scratch, end_vertex, is_quiet, new_scratch};

/// Closes a round: the own vertices have their rows after it, partials to which nothing came, and
/// loops that haven't begun. It goes over them once, in place, and takes no memory.
pub fn close_rows(
    ground: &Ground,
    totals: &[i64],
    round: u32,
    dense: bool,
    rows: &mut Rows,
    partials: &mut Grid<Partial>,
    ring: &mut RingHalf,
)
    // All but the totals follow from a sound state that stands at a close: `needs_at`.
    requires totals { length totals.now ≡ total_count ground.now.part.split.value }
    requires round { round ≤ 10000 }
    requires count { length rows.old.rows
        ≡ length (chunk_vertices ground.now.part.cuts ground.now.part.at.machine) }
    requires partials { length partials.old.rows ≡ length rows.old.rows }
    requires states { length ring.old.states ≡ length rows.old.rows }
    requires wide { AreWide ground.now.part.split.value rows.old.width partials.old.width
        ring.old.width }
    requires cells { All (λ ps. length ps ≡ partials.old.width) partials.old.rows }
    ensures closed { (s : State) → Shows (plain_of ground.now.part) ground.now.part.split.value
        totals.now rows.old.rows s → s.partials ≡ partials.old.rows → s.ring ≡ ring.old.states
        → Closes s round dense rows.new.rows partials.new.rows ring.new.states }
    ensures width { rows.new.width ≡ rows.old.width }
    ensures cells { partials.new.width ≡ partials.old.width }
    ensures words { ring.new.width ≡ ring.old.width }
{
    let split = ground.split();
    let _own = ground.own_count();
    let mut env = new_env(&ground.setting(round), totals);
    let tail = runs_tail(dense, &split.program.program);
    let still = is_quiet(&split.program.program.update);
    let quiet = !tail && still;
    let empty = empty_row(split);
    let ending = Ending {
        code: &ground.code,
        split,
        degrees: ground.degrees(ground.machine()),
        start: ground.start(),
        key: u32::from(ground.machines()),
        tail,
        quiet: still,
    };
    end_rows(
        &ending,
        quiet,
        empty.as_slice(),
        ring,
        rows,
        partials,
        &mut env,
    );
    refresh_ring(ring, ring_width(split));
}

/// What was read in the round, told by a count for each target, is now what was read in the last
/// closed one, and nothing is read yet.
pub fn turn_counts(reading: &mut Vec<u32>, reads: &mut Vec<u32>)
    ensures reads { reads.new.items ≡ reading.old.items }
    ensures none { (part : PlainPart) → AreCounts part reads.old.items
        → lists_read part reading.new.items ≡ map (λ v. []) (targets_of part) }
    ensures counts { (part : PlainPart) → AreCounts part reads.old.items
        → AreCounts part reading.new.items }
{
    mem::swap(reading, reads);
    clear_list(reading);
}

fn clear_list(counts: &mut Vec<u32>)
    ensures { counts.new.items ≡ replicate (length counts.old.items) 0 }
{
    clear(counts.as_mut_slice());
}

fn clear(counts: &mut [u32])
    ensures { counts.new ≡ replicate (length counts.old) 0 }
{
    for count in counts.iter_mut() {
        *count = 0;
    }
}

/// Whether the round is a dense one with a tail that does anything.
fn runs_tail(dense: bool, program: &Program) -> bool
    ensures { result ≡ (dense && has_tail program.now.dense) }
{
    if !dense {
        return false;
    }
    let Some(dense) = &program.dense else {
        return false;
    };
    match dense.tail.as_slice() {
        [] => false,
        [_, ..] => true,
    }
}

/// Ends a round at all own vertices: each has its row after it, and partials to which nothing came,
/// which are `empty`. Where the update is quiet and no tail runs, a vertex at rest is passed over.
fn end_rows(
    ending: &Ending,
    quiet: bool,
    empty: &[Partial],
    ring: &RingHalf,
    rows: &mut Rows,
    partials: &mut Grid<Partial>,
    env: &mut Env,
)
    requires can { CanClose ending.now.split.now ending.now.code.now ending.now.start
        (length rows.old.rows) (length ending.now.degrees.now) rows.old.width env.old }
    requires states { length ring.now.states ≡ length rows.old.rows }
    requires partials { length partials.old.rows ≡ length rows.old.rows }
    requires wide { All (λ ps. length ps ≡ partials.old.width) partials.old.rows }
    requires enough { slot_count ending.now.split.now ≤ partials.old.width }
    requires empty { empty.now ≡ empty_partials ending.now.split.now }
    requires cells { length empty.now ≡ partials.old.width }
    requires rests { quiet ≡ true → ending.now.tail ≡ false }
    requires still { quiet ≡ true
        → is_quiet (program_of ending.now.split.now).update.items ≡ true }
    ensures rows { let split = ending.now.split.now in
        let start = ending.now.start in
        let g = own_view rows.old.rows ending.now.degrees.now start env.old in
        rows.new ≡ record rows.old {
          rows = map (ended_at ending.now.tail split g ending.now.key start partials.old.rows
              ring.now.states) (range_with_len start (length rows.old.rows));
        } }
    ensures partials { partials.new ≡ record partials.old {
      rows = map (λ v. empty_partials ending.now.split.now)
          (range_with_len ending.now.start (length rows.old.rows));
    } }
{
    let mut scratch = new_scratch();
    'places: for place in 0..rows.len() {
        end_place(
            ending,
            quiet,
            empty,
            ring,
            place,
            rows,
            partials,
            env,
            &mut scratch,
        );
    }
}

/// Ends a round at one own vertex.
fn end_place(
    ending: &Ending,
    quiet: bool,
    empty: &[Partial],
    ring: &RingHalf,
    place: usize,
    rows: &mut Rows,
    partials: &mut Grid<Partial>,
    env: &mut Env,
    scratch: &mut Scratch,
)
    requires can { CanClose ending.now.split.now ending.now.code.now ending.now.start
        (length rows.old.rows) (length ending.now.degrees.now) rows.old.width env.old }
    requires place { place < length rows.old.rows }
    requires states { length ring.now.states ≡ length rows.old.rows }
    requires partials { length partials.old.rows ≡ length rows.old.rows }
    requires wide { length (slice_index_or partials.old.rows place []) ≡ partials.old.width }
    requires enough { slot_count ending.now.split.now ≤ partials.old.width }
    requires empty { empty.now ≡ empty_partials ending.now.split.now }
    requires cells { length empty.now ≡ partials.old.width }
    requires rests { quiet ≡ true → ending.now.tail ≡ false }
    requires still { quiet ≡ true
        → is_quiet (program_of ending.now.split.now).update.items ≡ true }
    ensures rows { let split = ending.now.split.now in
        let g = own_view rows.old.rows ending.now.degrees.now ending.now.start env.old in
        let own = slice_index_or partials.old.rows place [] in
        rows.new ≡ record rows.old {
          rows = slice_set rows.old.rows place (ended_row ending.now.tail split g ending.now.key
              own (state_at ring.now.states place) (ending.now.start + place));
        } }
    ensures partials { partials.new ≡ record partials.old {
      rows = slice_set partials.old.rows place empty.now;
    } }
    ensures round { SameRound env.old env.new }
{
    if quiet && rests(rows, place, partials.row(place), empty) {
        return;
    }
    end_vertex(ending, ring, place, partials.row(place), rows, env, scratch);
    partials.put_row(place, empty);
}

/// Whether a vertex isn't active and nothing came to it.
#[inline]
fn rests(rows: &Rows, place: usize, own: &[Partial], empty: &[Partial]) -> bool
    requires place { place < length rows.now.rows }
    requires each { length own.now ≡ length empty.now }
    ensures still { result ≡ true → (row_at rows.now.rows place).active ≡ false }
    ensures empty { result ≡ true → own.now ≡ empty.now }
{
    !rows.is_active(place) && are_same(own, empty)
}

/// Whether partials are the same.
#[inline]
fn are_same(own: &[Partial], others: &[Partial]) -> bool
    requires each { length own.now ≡ length others.now }
    ensures same { result ≡ true → own.now ≡ others.now }
{
    for (i, partial) in own.iter().enumerate() {
        if *partial != others[i] {
            return false;
        }
    }
    true
}
