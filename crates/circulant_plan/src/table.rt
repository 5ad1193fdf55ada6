ghost use Rattle.std.specs.Prelude.{◌≡◌, ◌≤◌, ◌<◌, slice_get};
ghost use Rattle.circulant_plan.specs.Spots.{IsSpotOf};
ghost use Rattle.circulant_plan.specs.Table.{needs_of, gives_of};

use crate::gifts::{begin_gift, close_gift, judge_gift, scan_gift, tell_gift};
use crate::needs::{begin_need, close_need, judge_need, scan_need};
use crate::{Ring, Spot};
use vert_base::{Name, Ruling};

/// The k-th message, from 0, that machine `m` needs at a spot. Machine 0 alone judges: at a judge of
/// another machine there is none.
pub fn need(ring: &Ring, m: u8, spot: &Spot, k: u32) -> Option<Name>
    requires machine { m < ring.now.machines }
    requires spot { IsSpotOf ring.now spot.now }
    ensures { result ≡ slice_get (needs_of ring.now m spot.now) k }
{
    match *spot {
        Spot::Tell | Spot::Over => None,
        Spot::Judge { round } => judge_need(ring, m, round, k),
        Spot::Begin { round } => begin_need(ring, m, round, k),
        Spot::Scan { round, step, half } => scan_need(ring, m, round, step, half, k),
        Spot::Close { round, dense } => close_need(ring, m, round, dense, k),
    }
}

/// The k-th message, from 0, that machine `m` sends at a spot. The ruling is that of the spot's round
/// and matters for a begin alone, which sends nothing where it is stop.
pub fn gives(ring: &Ring, m: u8, spot: &Spot, ruling: Ruling, k: u32) -> Option<Name>
    requires machine { m < ring.now.machines }
    requires spot { IsSpotOf ring.now spot.now }
    ensures { result ≡ slice_get (gives_of ring.now m spot.now ruling) k }
{
    match *spot {
        Spot::Over => None,
        Spot::Tell => tell_gift(ring, m, ruling, k),
        Spot::Judge { round } => judge_gift(ring, m, round, ruling, k),
        Spot::Begin { round } => begin_gift(ring, m, round, ruling, k),
        Spot::Scan { round, step, half } => scan_gift(ring, m, round, step, half, ruling, k),
        Spot::Close { round, dense } => close_gift(ring, m, round, dense, ruling, k),
    }
}
