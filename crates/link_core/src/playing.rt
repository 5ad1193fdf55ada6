// What an event does to the machines and to the wire, or why it isn't played.
ghost use Rattle.std.specs.Prelude.{◌≡◌, ◌≢◌, Err, IfErr, OnOk, Some, false, true};
ghost use Rattle.symple_face.specs.Cluster.{finished};
ghost use Rattle.cluster_run.specs.declared.fault.EventFault.TheVariants as event_fault;
ghost use Rattle.link_core.specs.declared.event.LinkEvent.TheVariants as link;
ghost use Rattle.link_core.specs.declared.fault.LinkFault.TheVariants.{NoAck, NotAgain, Plain, Want};
ghost use Rattle.link_core.specs.LinkFaults.{fault_within};
ghost use Rattle.link_core.specs.LinkRuns.{IsPlayed, linked_of};
ghost use Rattle.link_core.specs.Links.{Linked, accepted};
ghost use Rattle.link_core.specs.Traffic.{acknowledged, can_repeat, dropped, has_ack, has_copy, lost, repeated};
ghost use Rattle.link_core.specs.Wires.{Carries, IsSettled, traffic_of};

use crate::event::LinkEvent;
use crate::fault::LinkFault;
use crate::sending::send_from;
use crate::wire::Wire;
use cluster_run::{Cluster, EventFault};
use symple_face::Site;
use vert_base::{Event, Name};

// A machine's fault, where it is one.
fn fault_of(fault: EventFault) -> LinkFault
    ensures want { fault ≡ event_fault.Want → result ≡ Want }
    ensures plain { fault ≢ event_fault.Want → result ≡ Plain fault }
    ensures never { result ≢ Plain event_fault.Want }
{
    match fault {
        EventFault::Want => LinkFault::Want,
        other => LinkFault::Plain(other),
    }
}

// Lets a machine act, and puts what it sends on the wire.
fn go<S: Site, const CAP: usize>(
    cluster: &mut Cluster<S, CAP>,
    wire: &mut Wire,
    machine: u8,
) -> Result<(), LinkFault>
    requires on { cluster.old.ended ≡ false }
    requires unfinished { finished cluster.old.world ≡ false }
    requires settled { IsSettled wire.old }
    ensures played { OnOk result (IsPlayed S.work (linked_of cluster.old.world wire.old)
        (link.Go machine) cluster.new wire.new) }
    ensures refused { IfErr result (λ fault. fault ≢ Want →
        (fault_within (linked_of cluster.old.world wire.old) (link.Go machine) ≡ Some fault)
        × (cluster.new ≡ cluster.old) × (wire.new ≡ wire.old)) }
    ensures plain { result ≢ Err (Plain event_fault.Want) }
{
    cluster.tells_reached();
    if machine >= cluster.machines() {
        return Err(LinkFault::Plain(EventFault::NoMachine));
    }
    let spot = cluster.site(machine).spot();
    match cluster.event(&Event::Go(machine)) {
        Ok(()) => Ok(send_from(wire, cluster.site(machine), &spot)?),
        Err(fault) => Err(fault_of(fault)),
    }
}

// Hands the receiver the message of a copy, where it didn't accept one before. It takes no memory.
fn accept<S: Site, const CAP: usize>(
    cluster: &mut Cluster<S, CAP>,
    name: &Name,
) -> Result<(), vert_base::Want>
    requires on { cluster.old.ended ≡ false }
    ensures { OnOk result ((w : Linked) → w.world ≡ cluster.old.world
        → cluster.new ≡ record { world = accepted S.work w name.now; ended = false }) }
{
    if cluster.peek(name).is_some() {
        // It is under way, so it is played.
        if cluster.event(&Event::Take(*name)).is_err() {
            return Err(vert_base::Want);
        }
    }
    Ok(())
}

// Takes a copy.
fn take<S: Site, const CAP: usize>(
    cluster: &mut Cluster<S, CAP>,
    wire: &mut Wire,
    name: &Name,
) -> Result<(), LinkFault>
    requires on { cluster.old.ended ≡ false }
    requires settled { IsSettled wire.old }
    ensures played { OnOk result (IsPlayed S.work (linked_of cluster.old.world wire.old)
        (link.Take name.now) cluster.new wire.new) }
    ensures refused { IfErr result (λ fault. fault ≢ Want →
        (fault_within (linked_of cluster.old.world wire.old) (link.Take name.now) ≡ Some fault)
        × (cluster.new ≡ cluster.old) × (wire.new ≡ wire.old)) }
    ensures plain { result ≢ Err (Plain event_fault.Want) }
{
    if wire.copies.count_of(name) < 1 {
        return Err(LinkFault::Plain(EventFault::NotUnderWay));
    }
    accept(cluster, name)?;
    wire.take(name)?;
    Ok(())
}

// Loses a copy.
fn lose(wire: &mut Wire, name: &Name) -> Result<(), LinkFault>
    requires { IsSettled wire.old }
    ensures played { OnOk result ((has_copy (traffic_of wire.old) name.now ≡ true)
        × Carries wire.new (lost name.now (traffic_of wire.old))) }
    ensures refused { IfErr result (λ fault. fault ≢ Want →
        (has_copy (traffic_of wire.old) name.now ≡ false)
        × (fault ≡ Plain event_fault.NotUnderWay) × (wire.new ≡ wire.old)) }
{
    if wire.copies.count_of(name) < 1 {
        return Err(LinkFault::Plain(EventFault::NotUnderWay));
    }
    wire.lose(name)?;
    Ok(())
}

// Sends a message again.
fn repeat(wire: &mut Wire, name: &Name) -> Result<(), LinkFault>
    requires { IsSettled wire.old }
    ensures played { OnOk result ((can_repeat (traffic_of wire.old) name.now ≡ true)
        × Carries wire.new (repeated name.now (traffic_of wire.old))) }
    ensures refused { IfErr result (λ fault. fault ≢ Want →
        (can_repeat (traffic_of wire.old) name.now ≡ false)
        × (fault ≡ NotAgain) × (wire.new ≡ wire.old)) }
{
    if wire.repeatable.count_of(name) < 1 {
        return Err(LinkFault::NotAgain);
    }
    wire.repeat(name)?;
    Ok(())
}

// Takes an acknowledgement.
fn acknowledge(wire: &mut Wire, name: &Name) -> Result<(), LinkFault>
    requires { IsSettled wire.old }
    ensures played { OnOk result ((has_ack (traffic_of wire.old) name.now ≡ true)
        × Carries wire.new (acknowledged name.now (traffic_of wire.old))) }
    ensures refused { IfErr result (λ fault. fault ≢ Want →
        (has_ack (traffic_of wire.old) name.now ≡ false)
        × (fault ≡ NoAck) × (wire.new ≡ wire.old)) }
{
    if wire.acks.count_of(name) < 1 {
        return Err(LinkFault::NoAck);
    }
    wire.acknowledge(name)?;
    Ok(())
}

// Loses an acknowledgement.
fn drop_one(wire: &mut Wire, name: &Name) -> Result<(), LinkFault>
    requires { IsSettled wire.old }
    ensures played { OnOk result ((has_ack (traffic_of wire.old) name.now ≡ true)
        × Carries wire.new (dropped name.now (traffic_of wire.old))) }
    ensures refused { IfErr result (λ fault.
        (has_ack (traffic_of wire.old) name.now ≡ false)
        × (fault ≡ NoAck) × (wire.new ≡ wire.old)) }
{
    if wire.acks.count_of(name) < 1 {
        return Err(LinkFault::NoAck);
    }
    wire.drop_one(name);
    Ok(())
}

/// Plays an event of a run that isn't finished, or says why it can't be played.
pub(crate) fn play<S: Site, const CAP: usize>(
    cluster: &mut Cluster<S, CAP>,
    wire: &mut Wire,
    event: &LinkEvent,
) -> Result<(), LinkFault>
    requires on { cluster.old.ended ≡ false }
    requires unfinished { finished cluster.old.world ≡ false }
    requires settled { IsSettled wire.old }
    ensures played { OnOk result (IsPlayed S.work (linked_of cluster.old.world wire.old)
        event.now cluster.new wire.new) }
    ensures refused { IfErr result (λ fault. fault ≢ Want →
        (fault_within (linked_of cluster.old.world wire.old) event.now ≡ Some fault)
        × (cluster.new ≡ cluster.old) × (wire.new ≡ wire.old)) }
    ensures plain { result ≢ Err (Plain event_fault.Want) }
{
    match event {
        LinkEvent::Go(machine) => go(cluster, wire, *machine),
        LinkEvent::Take(name) => take(cluster, wire, name),
        LinkEvent::Lose(name) => lose(wire, name),
        LinkEvent::Again(name) => repeat(wire, name),
        LinkEvent::Ack(name) => acknowledge(wire, name),
        LinkEvent::Drop(name) => drop_one(wire, name),
    }
}
