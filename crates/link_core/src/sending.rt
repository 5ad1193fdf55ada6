// What a machine sends, put on the wire.
ghost use Rattle.std.specs.Prelude.{◌≡◌, ◌<◌, ◌≤◌, OnOk, is_some};
ghost use Rattle.circulant_plan.specs.Spots.{IsSpotOf};
ghost use Rattle.circulant_plan.specs.Table.{gives_of};
ghost use Rattle.symple_face.specs.Plans.{loop_carry, ring_of};
ghost use Rattle.symple_face.specs.State.{machine, p_of};
ghost use Rattle.link_core.specs.Sending.{ruling_behind};
ghost use Rattle.link_core.specs.Traffic.{all_sent};
ghost use Rattle.link_core.specs.Wires.{Carries, IsSettled, traffic_of};

use crate::wire::Wire;
use circulant_plan::{Ring, Spot, gives};
use instrument::Split;
use symple_face::Site;
use vert_base::{Ruling, Want};

// Whether the loop of the program hands on a state.
fn has_carry(split: &Split) -> bool
    ensures { result ≡ is_some (loop_carry split.now.dense) }
{
    match &split.dense {
        Some(dense) => dense.carry.is_some(),
        None => false,
    }
}

// The ruling of a round, as the spot behind its begin tells it.
fn ruling_behind(spot: &Spot) -> Ruling
    ensures { result ≡ ruling_behind spot.now }
{
    match spot {
        Spot::Scan { .. } => Ruling::Dense,
        Spot::Close { .. } => Ruling::Sparse,
        _ => Ruling::Stop,
    }
}

// Sends the messages of a spot, each as one copy.
fn send_gifts(
    wire: &mut Wire,
    ring: &Ring,
    machine: u8,
    spot: &Spot,
    ruling: Ruling,
) -> Result<(), Want>
    requires settled { IsSettled wire.old }
    requires machine { machine < ring.now.machines }
    requires few { ring.now.machines ≤ 64 }
    requires spot { IsSpotOf ring.now spot.now }
    ensures { OnOk result (Carries wire.new
        (all_sent (gives_of ring.now machine spot.now ruling) (traffic_of wire.old))) }
{
    let mut k = 0;
    while let Some(name) = gives(ring, machine, spot, ruling, k) {
        wire.send(&name)?;
        k += 1;
    }
    Ok(())
}

/// Sends the messages that a machine sent at the spot where it stood before.
pub(crate) fn send_from<S: Site>(wire: &mut Wire, site: &S, spot: &Spot) -> Result<(), Want>
    requires settled { IsSettled wire.old }
    requires few { p_of (S.state site.now) ≤ 64 }
    requires spot { let s = S.state site.now in IsSpotOf (ring_of s.split (p_of s)) spot.now }
    ensures { let s = S.state site.now in OnOk result (Carries wire.new
        (all_sent (gives_of (ring_of s.split (p_of s)) (machine s) spot.now
        (ruling_behind s.at.spot))
        (traffic_of wire.old))) }
{
    let part = site.part();
    let ring = Ring {
        machines: part.at.count(),
        carry: has_carry(&part.split),
    };
    let ruling = ruling_behind(&site.spot());
    send_gifts(wire, &ring, part.at.number(), spot, ruling)
}
