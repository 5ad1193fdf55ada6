// A scan of a half, by the state of the machine.
ghost use Rattle.std.specs.Prelude.{◌≡◌, ◌≤◌, ◌<◌, ◌+◌, ◌^◌, true, is_some, length, All, IfOk};
ghost use Rattle.circulant_plan.specs.Ring.{chunk_of};
ghost use Rattle.dep_layout.specs.Judgement.{FitsRing};
ghost use Rattle.symple_face.specs.CoreSight.{field_count, total_count};
ghost use Rattle.symple_face.specs.Parts.{chunk_vertices};
ghost use Rattle.symple_face.specs.PartViews.{plain_of};
ghost use Rattle.symple_face.specs.Plans.{loop_carry};
ghost use Rattle.symple_face.specs.Shapes.{half_in, size_of, words_in};
ghost use Rattle.symple_face.specs.State.{State};
ghost use Rattle.machine_steps.specs.Halves.{IsHalfScan, ShowsHalf};

use crate::half::{chunk_at, half_of, loop_of, mirrors_of, own_of, received};
use crate::scan::{Step, tell_mirrors};
use machine_parts::{Rows, new_env};
use std::alloc::Global;
use vert_base::Want;
use vertex_work::{Ground, new_visit};

/// What a scan of a half leaves: the bodies of loop states and of the update, and how many members
/// of each target in the half were read.
#[derive(Drop)]
pub struct HalfScan {
    pub states: Vec<u8>,
    pub update: Vec<u8>,
    pub counts: Vec<u32>,
}

/// So many counts of nothing.
pub(crate) fn no_counts(alloc: Global, count: usize) -> Result<Vec<u32>, Want>
    ensures { IfOk result (λ counts. length counts.items ≡ count) }
{
    let mut counts = Vec::with_capacity(alloc, count)?;
    'counts: for _ in 0..count {
        counts.push(0)?;
    }
    Ok(counts)
}

// How many bytes an update of so many vertices has at most.
fn update_most(ground: &Ground, count: usize) -> usize
    requires { count < 2 ^ 32 }
{
    let words = ground.sent_words();
    (2 + 8 * (words.slots + words.reduced)) * count
}

/// Scans a half of another chunk, in a step before the last. It changes nothing of the machine, and
/// takes all the memory that the step needs.
pub fn scan_half(
    alloc: Global,
    ground: &Ground,
    totals: &[i64],
    rows: &Rows,
    refresh: &[u8],
    dep: &[u8],
    round: u32,
    step: u8,
    half: u8,
) -> Result<HalfScan, Want>
    requires block { is_some ground.now.part.split.value.program.program.dense ≡ true }
    requires round { round ≤ 10000 }
    requires step { step + 1 < ground.now.part.at.machines }
    requires half { half ≤ 1 }
    requires totals { length totals.now ≡ total_count ground.now.part.split.value }
    requires count { length rows.now.rows
        ≡ length (chunk_vertices ground.now.part.cuts ground.now.part.at.machine) }
    requires fields { rows.now.width ≡ field_count ground.now.part.split.value }
    requires wide { All (λ r. length r.words.items ≡ rows.now.width) rows.now.rows }
    requires fits { let at = ground.now.part.at in
        let chunk = chunk_of at.machine step at.machines in
        0 < length dep.now → FitsRing (words_in (loop_carry ground.now.part.split.value.dense))
        (size_of (half_in ground.now.part.cuts chunk half)) 0 dep.now }
    ensures { IfOk result (λ scan. (s : State)
        → ShowsHalf (plain_of ground.now.part) ground.now.part.split.value totals.now rows.now.rows
        round step half refresh.now dep.now s
        → IsHalfScan s round step half scan.states.items scan.update.items scan.counts.items) }
{
    let body = loop_of(ground);
    let chunk = chunk_at(ground, step);
    let range = half_of(ground, chunk, half);
    let own = own_of(ground, rows);
    let mirrors = mirrors_of(ground, chunk, range, refresh);
    let count = mirrors.spans.len();
    let mut states = received(alloc, &body, range.1 - range.0, dep)?;
    let mut counts = no_counts(alloc, count)?;
    let mut update = Vec::with_capacity(alloc, update_most(ground, count))?;
    let mut visit = new_visit(new_env(&ground.setting(round), totals));
    tell_mirrors(
        &body,
        &own,
        &mirrors,
        Step {
            key: u32::from(step),
            start: range.0,
        },
        &mut visit,
        &mut states,
        &mut counts,
        &mut update,
    )?;
    Ok(HalfScan {
        states: states.spell(alloc)?,
        update,
        counts,
    })
}
