ghost use Rattle.std.specs.Prelude.{◌≡◌, ◌<◌, slice_get};
ghost use Rattle.circulant_plan.specs.declared.spot.Spot.TheVariants.{Tell, Judge, Begin, Scan, Close};
ghost use Rattle.circulant_plan.specs.Table.{gives_of, tally_gives};

use crate::Ring;
use crate::names::{after, chunk, of_round, other};
use vert_base::{Name, NameKind, Ruling};

/// The k-th message that the first action sends.
pub(crate) fn tell_gift(ring: &Ring, m: u8, ruling: Ruling, k: u32) -> Option<Name>
    ensures { result ≡ slice_get (gives_of ring.now m Tell ruling) k }
{
    tally(m, 0, k)
}

/// The k-th message that a judge sends.
pub(crate) fn judge_gift(ring: &Ring, m: u8, round: u32, ruling: Ruling, k: u32) -> Option<Name>
    requires machine { m < ring.now.machines }
    requires round { round < 4294967295 }
    ensures { result ≡ slice_get (gives_of ring.now m (Judge round) ruling) k }
{
    if m != 0 {
        return None;
    }
    match other(ring.machines, 0, k) {
        Some(to) => Some(of_round(NameKind::Verdict, round + 1, 0, to)),
        None => None,
    }
}

/// The k-th message that the begin of a round sends: rows or sends, by the round's mode.
pub(crate) fn begin_gift(ring: &Ring, m: u8, round: u32, ruling: Ruling, k: u32) -> Option<Name>
    requires { m < ring.now.machines }
    ensures { result ≡ slice_get (gives_of ring.now m (Begin round) ruling) k }
{
    let kind = match ruling {
        Ruling::Stop => return None,
        Ruling::Dense => NameKind::Refresh,
        Ruling::Sparse => NameKind::Push,
    };
    match other(ring.machines, m, k) {
        Some(to) => Some(of_round(kind, round, m, to)),
        None => None,
    }
}

/// The k-th message that the scan of a half sends.
pub(crate) fn scan_gift(
    ring: &Ring,
    m: u8,
    round: u32,
    step: u8,
    half: u8,
    ruling: Ruling,
    k: u32,
) -> Option<Name>
    requires machine { m < ring.now.machines }
    requires step { step < ring.now.machines }
    ensures { result ≡ slice_get (gives_of ring.now m (Scan round step half) ruling) k }
{
    if step == ring.machines - 1 {
        return None;
    }
    if k == 0 {
        return Some(Name {
            kind: NameKind::Update,
            round,
            step,
            half,
            from: m,
            to: chunk(m, step, ring.machines),
        });
    }
    if ring.carry && k == 1 {
        return Some(Name {
            kind: NameKind::Dep,
            round,
            step,
            half,
            from: m,
            to: after(m, ring.machines),
        });
    }
    None
}

/// The k-th message that the close of a round sends.
pub(crate) fn close_gift(
    ring: &Ring,
    m: u8,
    round: u32,
    dense: bool,
    ruling: Ruling,
    k: u32,
) -> Option<Name>
    ensures { result ≡ slice_get (gives_of ring.now m (Close round dense) ruling) k }
{
    tally(m, round, k)
}

/// The tally of machine `m`, which machine 0 keeps to itself.
fn tally(m: u8, round: u32, k: u32) -> Option<Name>
    ensures { result ≡ slice_get (tally_gives m round) k }
{
    if m != 0 && k == 0 {
        Some(of_round(NameKind::Tally, round, m, 0))
    } else {
        None
    }
}
