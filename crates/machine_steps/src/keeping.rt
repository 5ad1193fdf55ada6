// A scan of a half of the own chunk, in the last step.
ghost use Rattle.std.specs.Prelude.{◌≡◌, ◌≤◌, ◌<◌, ◌+◌, ◌-◌, ◌^◌, ℕ, true, [], is_some, length, map, All, OnErr, OnOk};
ghost use Rattle.vert_base.specs.Neighbours.{target};
ghost use Rattle.dep_layout.specs.Judgement.{FitsRing};
ghost use Rattle.symple_face.specs.CoreDense.{scan_kept};
ghost use Rattle.symple_face.specs.CoreSight.{field_count, targets_of, those_within, total_count};
ghost use Rattle.symple_face.specs.CoreTakes.{slot_count};
ghost use Rattle.symple_face.specs.Parts.{chunk_vertices};
ghost use Rattle.symple_face.specs.PartViews.{plain_of};
ghost use Rattle.symple_face.specs.Plans.{loop_carry};
ghost use Rattle.symple_face.specs.Shapes.{half_in, reduced_in, size_of, words_in};
ghost use Rattle.symple_face.specs.State.{State, p_of};
ghost use Rattle.machine_parts.specs.Flat.{state_at};
ghost use Rattle.machine_parts.specs.Spans.{IsSpan, vertex_of};
ghost use Rattle.machine_steps.specs.Counts.{AreCounts, lists_read};
ghost use Rattle.machine_steps.specs.Halves.{IsKept, ShowsOwnHalf};

use crate::half::{chunk_at, half_of, loop_of, own_of, places, received};
use crate::noting::note_counts;
use crate::scan::{Step, keep_own};
use crate::scanning::no_counts;
use flat_table::Grid;
use machine_parts::{RingHalf, Rows, Span, new_env};
use slot_merge::Partial;
use std::alloc::Global;
use vert_base::Want;
use vertex_work::{Ground, new_visit};

/// The spans of the targets from the first to the second of two.
pub(crate) fn spans_in(ground: &Ground, range: (u32, u32)) -> &[Span]
    requires { range.0 ≤ range.1 }
    ensures vertices { map vertex_of result.now
        ≡ those_within range (targets_of (plain_of ground.now.part)) }
    ensures each { All (IsSpan target ground.now.part.scan.items) result.now }
{
    let targets: &[Span] = &ground.groups.targets;
    let place = places(targets, range);
    &targets[place.0..place.1]
}

// Copies states to their places among others, from a place on.
fn copy_states(from: &RingHalf, into: &mut RingHalf, start: usize)
    requires width { from.now.width ≡ into.old.width }
    requires room { start + length from.now.states ≤ length into.old.states }
    requires few { length into.old.states < 2 ^ 32 }
    ensures width { into.new.width ≡ into.old.width }
    ensures count { length into.new.states ≡ length into.old.states }
    ensures before { (k : ℕ) → k < start → state_at into.new.states k ≡ state_at into.old.states k }
    ensures within { (k : ℕ) → k < length from.now.states
        → state_at into.new.states (start + k) ≡ state_at from.now.states k }
    ensures behind { (k : ℕ) → start + length from.now.states ≤ k
        → state_at into.new.states k ≡ state_at into.old.states k }
{
    'states: for i in 0..from.len() {
        into.put(start + i, from.mark(i), from.words(i));
    }
}

/// Scans a half of the own chunk, in the last step: what would be sent is added to the partials,
/// the states stay in the ring, and the counts of members read are noted. All memory is taken before
/// anything changes.
pub fn scan_own(
    alloc: Global,
    ground: &Ground,
    totals: &[i64],
    rows: &Rows,
    dep: &[u8],
    round: u32,
    half: u8,
    partials: &mut Grid<Partial>,
    ring: &mut RingHalf,
    reading: &mut Vec<u32>,
) -> Result<(), Want>
    requires block { is_some ground.now.part.split.value.program.program.dense ≡ true }
    requires round { round ≤ 10000 }
    requires half { half ≤ 1 }
    requires totals { length totals.now ≡ total_count ground.now.part.split.value }
    requires count { length rows.now.rows
        ≡ length (chunk_vertices ground.now.part.cuts ground.now.part.at.machine) }
    requires fields { rows.now.width ≡ field_count ground.now.part.split.value }
    requires wide { All (λ r. length r.words.items ≡ rows.now.width) rows.now.rows }
    requires fits { 0 < length dep.now
        → FitsRing (words_in (loop_carry ground.now.part.split.value.dense))
        (size_of (half_in ground.now.part.cuts ground.now.part.at.machine half)) 0 dep.now }
    requires partials { length partials.old.rows ≡ length rows.now.rows }
    requires cells { partials.old.width ≡ slot_count ground.now.part.split.value
        + length (reduced_in ground.now.part.split.value.dense) }
    requires each { All (λ ps. length ps ≡ partials.old.width) partials.old.rows }
    requires ring { length ring.old.states ≡ length rows.now.rows }
    requires words { ring.old.width ≡ words_in (loop_carry ground.now.part.split.value.dense) }
    requires reading { AreCounts (plain_of ground.now.part) reading.old.items }
    ensures kept { OnOk result ((s : State)
        → ShowsOwnHalf (plain_of ground.now.part) ground.now.part.split.value totals.now
        rows.now.rows round half dep.now s
        → s.partials ≡ partials.old.rows → s.ring ≡ ring.old.states
        → s.reading ≡ lists_read (plain_of ground.now.part) reading.old.items
        → IsKept (scan_kept s round (p_of s - 1) half) partials.new.rows ring.new.states
        (lists_read (plain_of ground.now.part) reading.new.items)) }
    ensures cells { partials.new.width ≡ partials.old.width }
    ensures words { ring.new.width ≡ ring.old.width }
    ensures counts { AreCounts (plain_of ground.now.part) reading.new.items }
    ensures same_partials { OnErr result (partials.new ≡ partials.old) }
    ensures same_ring { OnErr result (ring.new ≡ ring.old) }
    ensures same_reading { OnErr result (reading.new.items ≡ reading.old.items) }
{
    let body = loop_of(ground);
    let step = ground.machines() - 1;
    let range = half_of(ground, chunk_at(ground, step), half);
    let own = own_of(ground, rows);
    let spans = spans_in(ground, range);
    let mut states = received(alloc, &body, range.1 - range.0, dep)?;
    let mut counts = no_counts(alloc, spans.len())?;
    let mut visit = new_visit(new_env(&ground.setting(round), totals));
    keep_own(
        &body,
        &own,
        spans,
        Step {
            key: u32::from(step),
            start: range.0,
        },
        &mut visit,
        &mut states,
        &mut counts,
        partials,
    );
    note_counts(reading, ground, step, half, &counts);
    copy_states(&states, ring, (range.0 - own.start) as usize);
    Ok(())
}
