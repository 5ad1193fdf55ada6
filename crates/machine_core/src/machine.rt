// A machine of a run.
ghost use Rattle.std.specs.Prelude.{◌≡◌, ◌≤◌, [], length, vec_capacity};
ghost use Rattle.circulant_plan.specs.declared.spot.Spot.TheVariants.{Tell};
ghost use Rattle.symple_face.specs.CoreSight.{total_count};
ghost use Rattle.symple_face.specs.PartViews.{plain_of};
ghost use Rattle.work_laws.specs.Sound.{core_sound};
ghost use Rattle.machine_steps.specs.Counts.{AreCounts, lists_read};
ghost use Rattle.machine_steps.specs.Kept.{AreWide, IsBuffer};
ghost use Rattle.machine_steps.specs.Plain.{plain_sums};

use circulant_plan::Spot;
use double_buffer::Slots;
use flat_table::Grid;
use machine_parts::{RingHalf, Rows};
use machine_steps::Sums;
use slot_merge::Partial;
use std::alloc::Global;
use symple_face::Report;
use vert_base::Ruling;
use vert_base::limits::MACHINES;
use vertex_work::Ground;

/// One machine of a run: its part of the graph, where it stands, and what it holds of the round.
#[derive(Drop)]
pub struct Core {
    pub(crate) alloc: Global,
    pub(crate) ground: Ground,
    pub(crate) spot: Spot,
    // The round of the spot, also at the end.
    pub(crate) round: u32,
    pub(crate) ruling: Ruling,
    pub(crate) held: Slots<MACHINES>,
    pub(crate) rows: Rows,
    pub(crate) partials: Grid<Partial>,
    pub(crate) ring: RingHalf,
    // How many of each target's members were read in this round, and in the last closed one.
    pub(crate) reading: Vec<u32>,
    pub(crate) reads: Vec<u32>,
    pub(crate) judged: Sums,
    pub(crate) report: Report,
    // The memory of the verdict with which a restarted machine begins.
    pub(crate) verdict: Vec<u8>,
    ghost sound: { ∥ core_sound (record {
      part = plain_of ground.part;
      split = ground.part.split.value;
      at = record { spot = spot; round = round };
      ruling = ruling;
      held = held.letters;
      rows = rows.rows;
      partials = partials.rows;
      ring = ring.states;
      reading = lists_read (plain_of ground.part) reading.items;
      reads = lists_read (plain_of ground.part) reads.items;
      judged = plain_sums judged;
      report = report;
      more = [];
    }) ∥₁ },
    ghost wide: { AreWide ground.part.split.value rows.width partials.width ring.width },
    ghost buffer: { IsBuffer ground.part.at.machines ground.part.at.machine round spot held },
    ghost read: { AreCounts (plain_of ground.part) reading.items },
    ghost read_before: { AreCounts (plain_of ground.part) reads.items },
    ghost summed: { 1 ≤ round → ground.part.at.machine ≡ 0 →
        length judged.totals.items ≡ total_count ground.part.split.value },
    ghost spare: { spot ≡ Tell → (verdict.items ≡ []) × (33 ≤ vec_capacity verdict) },
}
