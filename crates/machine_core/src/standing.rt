// Where a machine stands after its action.
ghost use Rattle.std.specs.Prelude.{◌≡◌, ◌==◌, ◌<◌, ◌+◌, ◌-◌, if◌then◌else◌, nat_lt, true};
ghost use Rattle.circulant_plan.specs.declared.spot.Spot.TheVariants.{Judge, Begin, Scan, Close};
ghost use Rattle.circulant_plan.specs.Spots.{IsSpotOf};
ghost use Rattle.circulant_plan.specs.Standing.{round_of, round_ruled};
ghost use Rattle.circulant_plan.specs.Table.{after_begin, after_judge, next_spot};
ghost use Rattle.symple_face.specs.CoreWork.{held_at};

use circulant_plan::{Ring, Spot};
use double_buffer::Slots;
use vert_base::Ruling;
use vert_base::limits::MACHINES;

/// The spot after the action of a spot. The ruling is that of the spot's round, at a judge the one
/// that it makes.
pub(crate) fn next_spot(ring: &Ring, m: u8, spot: &Spot, ruling: Ruling) -> Spot
    requires some { 0 < ring.now.machines }
    requires spot { IsSpotOf ring.now spot.now }
    ensures { result ≡ next_spot ring.now m spot.now ruling }
{
    match *spot {
        Spot::Tell => spot_after_tell(m),
        Spot::Judge { round } => spot_after_judge(round, ruling),
        Spot::Begin { round } => spot_after_begin(round, ruling),
        Spot::Scan { round, step, half } => spot_after_scan(ring, round, step, half),
        Spot::Close { round, dense: _ } => spot_after_close(m, round),
        Spot::Over => Spot::Over,
    }
}

fn spot_after_tell(m: u8) -> Spot
    ensures { result ≡ (if m == 0 then Judge 0 else Begin 1) }
{
    if m == 0 {
        Spot::Judge { round: 0 }
    } else {
        Spot::Begin { round: 1 }
    }
}

fn spot_after_judge(round: u32, ruling: Ruling) -> Spot
    requires { round < 4294967295 }
    ensures { result ≡ after_judge round ruling }
{
    match ruling {
        Ruling::Stop => Spot::Over,
        Ruling::Dense | Ruling::Sparse => Spot::Begin { round: round + 1 },
    }
}

fn spot_after_begin(round: u32, ruling: Ruling) -> Spot
    ensures { result ≡ after_begin round ruling }
{
    match ruling {
        Ruling::Stop => Spot::Over,
        Ruling::Dense => Spot::Scan {
            round,
            step: 0,
            half: 0,
        },
        Ruling::Sparse => Spot::Close {
            round,
            dense: false,
        },
    }
}

fn spot_after_scan(ring: &Ring, round: u32, step: u8, half: u8) -> Spot
    requires some { 0 < ring.now.machines }
    requires step { step < ring.now.machines }
    ensures { result ≡ (if half == 0 then Scan round step 1
        else if nat_lt step (ring.now.machines - 1) then Scan round (step + 1) 0
        else Close round true) }
{
    if half == 0 {
        return Spot::Scan {
            round,
            step,
            half: 1,
        };
    }
    if step < ring.machines - 1 {
        return Spot::Scan {
            round,
            step: step + 1,
            half: 0,
        };
    }
    Spot::Close { round, dense: true }
}

fn spot_after_close(m: u8, round: u32) -> Spot
    requires { round < 4294967295 }
    ensures { result ≡ (if m == 0 then Judge round else Begin (round + 1)) }
{
    if m == 0 {
        Spot::Judge { round }
    } else {
        Spot::Begin { round: round + 1 }
    }
}

/// The round that stays where the action of a spot ends the list: at a judge the one that it rules
/// on.
pub(crate) fn round_ruled(ring: &Ring, round: u32, spot: &Spot) -> u32
    requires { IsSpotOf ring.now spot.now }
    ensures { result ≡ round_ruled round spot.now }
{
    match *spot {
        Spot::Tell | Spot::Over => round,
        Spot::Judge { round } => round + 1,
        Spot::Begin { round }
        | Spot::Scan {
            round,
            step: _,
            half: _,
        }
        | Spot::Close { round, dense: _ } => round,
    }
}

/// The round of a spot, given that in which a machine is over.
pub(crate) fn round_of(last: u32, spot: &Spot) -> u32
    ensures { result ≡ round_of last spot.now }
{
    match *spot {
        Spot::Tell => 0,
        Spot::Over => last,
        Spot::Judge { round }
        | Spot::Begin { round }
        | Spot::Scan {
            round,
            step: _,
            half: _,
        }
        | Spot::Close { round, dense: _ } => round,
    }
}

/// Lets go of what is held where a round begins.
pub(crate) fn keep_at(spot: &Spot, held: &mut Slots<MACHINES>)
    ensures { held.new ≡ record held.old { letters = held_at spot.now held.old.letters } }
{
    match *spot {
        Spot::Begin { round: _ } => held.clear(),
        Spot::Tell
        | Spot::Judge { round: _ }
        | Spot::Scan {
            round: _,
            step: _,
            half: _,
        }
        | Spot::Close { round: _, dense: _ }
        | Spot::Over => {}
    }
}
