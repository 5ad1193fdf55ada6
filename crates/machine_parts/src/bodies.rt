// The bodies of messages that need no code: rows of a refresh, counts of a tally, a verdict.
ghost use Rattle.std.specs.Prelude.{◌≡◌, ◌≤◌, ◌<◌, ◌-◌, ◌^◌, length, map, IfOk};
ghost use Rattle.std.specs.List.{All};
ghost use Rattle.vert_eval.specs.Rounds.{row_at};
ghost use Rattle.body_shape.specs.Refresh.{plain_row, refresh_body};
ghost use Rattle.body_shape.specs.Tally.{tally_body};
ghost use Rattle.body_shape.specs.Verdict.{verdict_body};
ghost use Rattle.machine_parts.specs.Neighbours.{ArePlaced};

use crate::rows::Rows;
use body_shape::{Counts, put_row, put_tally, put_verdict};
use std::alloc::Global;
use vert_base::{Ruling, VertexId, Want};

/// The rows of some own vertices, which begin at `start`, as a refresh tells them. Memory is wanted
/// once.
pub fn refresh_body(
    alloc: Global,
    list: &[VertexId],
    rows: &Rows,
    start: u32,
) -> Result<Vec<u8>, Want>
    requires own { ArePlaced start (length rows.now.rows) list.now }
    requires few { length list.now < 2 ^ 32 }
    ensures { IfOk result (λ body. body.items
        ≡ refresh_body (map (λ v. plain_row (row_at rows.now.rows (v.0 - start))) list.now)) }
{
    let mut body = Vec::with_capacity(alloc, 8 * (rows.width() + 1) * list.len())?;
    for vertex in list {
        let place = (vertex.0 - start) as usize;
        put_row(&mut body, rows.words(place), rows.is_active(place))?;
    }
    Ok(body)
}

/// What a machine counted, as a tally tells it.
pub fn tally_body(alloc: Global, counts: &Counts, totals: &[i64]) -> Result<Vec<u8>, Want>
    requires { length totals.now ≤ 4 }
    ensures { IfOk result (λ body. body.items
        ≡ tally_body (record {
          active = counts.now.active;
          edges = counts.now.edges;
          reads = counts.now.reads;
          totals = totals.now;
        })) }
{
    let mut body = Vec::with_capacity(alloc, 24 + 8 * totals.len())?;
    put_tally(&mut body, counts, totals)?;
    Ok(body)
}

/// A ruling and the totals by which it was made, as a verdict tells them.
pub fn verdict_body(alloc: Global, ruling: Ruling, totals: &[i64]) -> Result<Vec<u8>, Want>
    requires { length totals.now ≤ 4 }
    ensures { IfOk result (λ body. body.items
        ≡ verdict_body (record { ruling = ruling; totals = totals.now })) }
{
    let mut body = Vec::with_capacity(alloc, 1 + 8 * totals.len())?;
    put_verdict(&mut body, ruling, totals)?;
    Ok(body)
}
