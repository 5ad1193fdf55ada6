// The events that are possible over links, in the order of choices.
ghost use Rattle.std.specs.Prelude.{◌≡◌, ◌≤◌, ◌+◌, ◌*◌, ◌^◌, IfErr, IfOk, Some, false, length, slice_get};
ghost use Rattle.symple_face.specs.Cluster.{ready_machines};
ghost use Rattle.link_core.specs.LinkChoices.{wire_choices};
ghost use Rattle.link_core.specs.LinkRuns.{linked_of};
ghost use Rattle.link_core.specs.Links.{can_happen};
ghost use Rattle.link_core.specs.Piles.{names_of};
ghost use Rattle.link_core.specs.Wires.{IsSettled, traffic_of};

use crate::event::LinkEvent;
use crate::piles::Piles;
use crate::wire::Wire;
use cluster_run::Cluster;
use symple_face::Site;
use vert_base::{Event, Name};

/// Whether an event can happen, where the run isn't finished.
pub(crate) fn can_happen<S: Site, const CAP: usize>(
    cluster: &Cluster<S, CAP>,
    wire: &Wire,
    event: &LinkEvent,
) -> bool
    requires on { cluster.now.ended ≡ false }
    requires settled { IsSettled wire.now }
    ensures { result ≡ can_happen (linked_of cluster.now.world wire.now) event.now }
{
    match event {
        LinkEvent::Go(machine) => cluster.possible(&Event::Go(*machine)),
        LinkEvent::Take(name) | LinkEvent::Lose(name) => wire.copies.count_of(name) >= 1,
        LinkEvent::Again(name) => wire.repeatable.count_of(name) >= 1,
        LinkEvent::Ack(name) | LinkEvent::Drop(name) => wire.acks.count_of(name) >= 1,
    }
}

/// How many machines are ready.
pub(crate) fn ready_count<S: Site, const CAP: usize>(cluster: &Cluster<S, CAP>) -> u32
    requires { cluster.now.ended ≡ false }
    ensures count { result ≡ length (ready_machines cluster.now.world) }
    ensures few { result ≤ 64 }
{
    let mut count = 0;
    for machine in 0..cluster.machines() {
        if cluster.possible(&Event::Go(machine)) {
            count += 1;
        }
    }
    count
}

/// The ready machine with `k` ready ones before it, or by how much `k` passes their count.
pub(crate) fn nth_ready<S: Site, const CAP: usize>(
    cluster: &Cluster<S, CAP>,
    k: u32,
) -> Result<u8, u32>
    requires { cluster.now.ended ≡ false }
    ensures there { IfOk result (λ machine.
        slice_get (ready_machines cluster.now.world) k ≡ Some machine) }
    ensures past { IfErr result (λ left. k ≡ length (ready_machines cluster.now.world) + left) }
{
    let mut left = k;
    for machine in 0..cluster.machines() {
        if cluster.possible(&Event::Go(machine)) {
            if left == 0 {
                return Ok(machine);
            }
            left -= 1;
        }
    }
    Err(left)
}

/// How many events of messages are possible.
pub(crate) fn wire_count(wire: &Wire) -> u32
    requires { IsSettled wire.now }
    ensures count { result ≡ length (wire_choices (traffic_of wire.now)) }
    ensures few { result ≤ 5 * 2 ^ 29 }
{
    let _kept = wire.kept.len();
    2 * wire.copies.len() + wire.repeatable.len() + 2 * wire.acks.len()
}

// The name with `k` names before it, or by how much `k` passes their count.
fn nth_of(piles: &Piles, k: u32) -> Result<Name, u32>
    ensures there { IfOk result (λ x. slice_get (names_of piles.now) k ≡ Some x) }
    ensures past { IfErr result (λ left. k ≡ length piles.now + left) }
{
    let count = piles.len();
    if k >= count {
        return Err(k - count);
    }
    match piles.nth(k) {
        Some(name) => Ok(name),
        None => unreachable!(),
    }
}

/// The possible event of a message with `k` others before it.
pub(crate) fn nth_on_wire(wire: &Wire, k: u32) -> Option<LinkEvent>
    requires { IsSettled wire.now }
    ensures { result ≡ slice_get (wire_choices (traffic_of wire.now)) k }
{
    let _kept = wire.kept.len();
    let _repeatable = wire.repeatable.len();
    let behind_takes = match nth_of(&wire.copies, k) {
        Ok(name) => return Some(LinkEvent::Take(name)),
        Err(left) => left,
    };
    let behind_loses = match nth_of(&wire.copies, behind_takes) {
        Ok(name) => return Some(LinkEvent::Lose(name)),
        Err(left) => left,
    };
    let behind_agains = match nth_of(&wire.repeatable, behind_loses) {
        Ok(name) => return Some(LinkEvent::Again(name)),
        Err(left) => left,
    };
    let behind_acks = match nth_of(&wire.acks, behind_agains) {
        Ok(name) => return Some(LinkEvent::Ack(name)),
        Err(left) => left,
    };
    match nth_of(&wire.acks, behind_acks) {
        Ok(name) => Some(LinkEvent::Drop(name)),
        Err(_) => None,
    }
}
