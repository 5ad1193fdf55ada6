ghost use Rattle.std.specs.Prelude.{◌≡◌, ◌<◌, ◌≤◌, slice_get};
ghost use Rattle.circulant_plan.specs.declared.spot.Spot.TheVariants.{Judge, Begin, Scan, Close};
ghost use Rattle.circulant_plan.specs.Table.{needs_of, updates_to};

use crate::names::{before, chunk, of_round, other};
use crate::{Ring, order};
use vert_base::{Name, NameKind};

/// The k-th message that a judge needs.
pub(crate) fn judge_need(ring: &Ring, m: u8, round: u32, k: u32) -> Option<Name>
    requires { m < ring.now.machines }
    ensures { result ≡ slice_get (needs_of ring.now m (Judge round)) k }
{
    if m != 0 {
        return None;
    }
    match other(ring.machines, 0, k) {
        Some(from) => Some(of_round(NameKind::Tally, round, from, 0)),
        None => None,
    }
}

/// The k-th message that the begin of a round needs.
pub(crate) fn begin_need(ring: &Ring, m: u8, round: u32, k: u32) -> Option<Name>
    ensures { result ≡ slice_get (needs_of ring.now m (Begin round)) k }
{
    if m == 0 {
        return None;
    }
    if k == 0 {
        return Some(of_round(NameKind::Verdict, round, 0, m));
    }
    None
}

/// The k-th message that the scan of a half needs.
pub(crate) fn scan_need(ring: &Ring, m: u8, round: u32, step: u8, half: u8, k: u32) -> Option<Name>
    requires machine { m < ring.now.machines }
    requires step { step < ring.now.machines }
    ensures { result ≡ slice_get (needs_of ring.now m (Scan round step half)) k }
{
    let reads_rows = step < ring.machines - 1;
    if reads_rows && k == 0 {
        let from = chunk(m, step, ring.machines);
        return Some(of_round(NameKind::Refresh, round, from, m));
    }
    let follows = ring.carry && step > 0;
    if follows && k == u32::from(reads_rows) {
        return Some(Name {
            kind: NameKind::Dep,
            round,
            step: step - 1,
            half,
            from: before(m, ring.machines),
            to: m,
        });
    }
    None
}

/// The k-th message that the close of a round needs.
pub(crate) fn close_need(ring: &Ring, m: u8, round: u32, dense: bool, k: u32) -> Option<Name>
    requires { m < ring.now.machines }
    ensures { result ≡ slice_get (needs_of ring.now m (Close round dense)) k }
{
    if dense {
        return update_to(ring, m, round, k);
    }
    match other(ring.machines, m, k) {
        Some(from) => Some(of_round(NameKind::Push, round, from, m)),
        None => None,
    }
}

/// The k-th update to machine `m` in a round: by step, and within a step by half.
fn update_to(ring: &Ring, m: u8, round: u32, k: u32) -> Option<Name>
    requires { m < ring.now.machines }
    ensures { result ≡ slice_get (updates_to ring.now.machines round m) k }
{
    if k >= 2 * u32::from(ring.machines - 1) {
        return None;
    }
    let step = (k / 2) as u8;
    let half = (k % 2) as u8;
    Some(Name {
        kind: NameKind::Update,
        round,
        step,
        half,
        from: order(m, step, ring.machines),
        to: m,
    })
}
