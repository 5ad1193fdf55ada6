// The members read in a scan, noted beside the targets.
ghost use Rattle.std.specs.Prelude.{◌≡◌, ◌≤◌, ◌<◌, ◌+◌, ℕ, List, length, slice_index};
ghost use Rattle.circulant_plan.specs.Ring.{chunk_of};
ghost use Rattle.symple_face.specs.CoreDense.{scan_read};
ghost use Rattle.symple_face.specs.CoreSight.{targets_of, those_within};
ghost use Rattle.symple_face.specs.PartViews.{plain_of};
ghost use Rattle.symple_face.specs.Shapes.{half_in};
ghost use Rattle.symple_face.specs.State.{State};
ghost use Rattle.work_laws.specs.Sound.{members_in};
ghost use Rattle.machine_steps.specs.Counts.{AreCounts, lists_read};
ghost use Rattle.machine_steps.specs.Halves.{IsHalfScan};

use crate::half::{chunk_at, half_of, places};
use vertex_work::Ground;

// Writes counts from a place on.
fn write_counts(reading: &mut Vec<u32>, from: usize, counts: &[u32])
    requires { from + length counts.now ≤ length reading.old.items }
    ensures count { length reading.new.items ≡ length reading.old.items }
    ensures before { (k : ℕ) → k < from
        → slice_index reading.new.items k ≡ slice_index reading.old.items k }
    ensures within { (k : ℕ) → k < length counts.now
        → slice_index reading.new.items (from + k) ≡ slice_index counts.now k }
    ensures behind { (k : ℕ) → from + length counts.now ≤ k
        → slice_index reading.new.items k ≡ slice_index reading.old.items k }
{
    for (i, count) in counts.iter().enumerate() {
        reading[from + i] = *count;
    }
}

/// Notes how many members of each target in a half were read. It takes no memory.
pub fn note_counts(reading: &mut Vec<u32>, ground: &Ground, step: u8, half: u8, counts: &[u32])
    requires step { step < ground.now.part.at.machines }
    requires half { half ≤ 1 }
    requires read { AreCounts (plain_of ground.now.part) reading.old.items }
    requires each { let at = ground.now.part.at in
        let chunk = chunk_of at.machine step at.machines in
        length counts.now ≡ length (those_within (half_in ground.now.part.cuts chunk half)
        (targets_of (plain_of ground.now.part))) }
    requires few { let at = ground.now.part.at in
        let chunk = chunk_of at.machine step at.machines in
        let vertices = those_within (half_in ground.now.part.cuts chunk half)
        (targets_of (plain_of ground.now.part)) in
        (i : ℕ) → i < length counts.now → slice_index counts.now i
        ≤ length (members_in (plain_of ground.now.part) (slice_index vertices i)) }
    ensures counts { AreCounts (plain_of ground.now.part) reading.new.items }
    ensures noted { (s : State) (round : ℕ) (states update : List ℕ)
        → s.part ≡ plain_of ground.now.part
        → s.reading ≡ lists_read (plain_of ground.now.part) reading.old.items
        → IsHalfScan s round step half states update counts.now
        → lists_read (plain_of ground.now.part) reading.new.items
        ≡ (scan_read s round step half).reading }
{
    let range = half_of(ground, chunk_at(ground, step), half);
    let place = places(&ground.groups.targets, range);
    write_counts(reading, place.0, counts);
}
