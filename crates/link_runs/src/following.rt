// `replay` of a text of form 3: its events are played over links one by one, as far as they can happen.
ghost use Rattle.std.specs.Prelude.{◌≡◌, ◌+◌, ◌<◌, ◌^◌, [], IfErr, OnOk, Some, false, length};
ghost use Rattle.command_steps.specs.Commands.{play_of};
ghost use Rattle.command_steps.specs.Faults.{fault_of};
ghost use Rattle.command_steps.specs.States.{Kept, Left, outside, sink_state};
ghost use Rattle.command_steps.specs.Walks.{fault_after};
ghost use Rattle.edge_reader.specs.Gives.{graph_of_edges};
ghost use Rattle.link_core.specs.Links.{link_step};
ghost use Rattle.link_runs.specs.LinkedPlays.{Goes, IsLinkedPlay};
ghost use Rattle.link_runs.specs.LinkTellings.{by_links, listed_links, why_not};
ghost use Rattle.machine_runs.specs.FollowWalks.{FollowsTo, FollowsUp, PlaysListed, StopsListed};
ghost use Rattle.symple_words.specs.Ranges.{AreMachines};
ghost use Rattle.symple_words.specs.Views.{job_view};

use crate::playing::{play_link_event, started_links};
use cluster_run::EventFault;
use command_steps::{Failure, Impossible};
use edge_reader::Edges;
use link_core::{LinkEvent, LinkFault, LinkSchedule, Links};
use machine_runs::{put_end, why_of};
use outside::Sink;
use std::alloc::Global;
use symple_face::Site;
use symple_words::{Job, Lines};
use vert_base::Event;
use vert_base::limits::MACHINES;
use vert_tree::Typed;

/// Plays the events of a text of form 3 over the links of machines of the graph, and puts the table if
/// nothing is missing until the end.
pub fn follow_links<S: Site, O: Sink>(
    alloc: Global,
    job: &Job,
    schedule: &LinkSchedule,
    typed: Typed,
    edges: Edges,
    out: &mut O,
) -> Result<(), Failure>
    requires few { AreMachines schedule.now.machines }
    requires short { 1 + length schedule.now.events.items < 2 ^ 32 }
    ensures { (shelf : Kept) (input : Left) → Goes (IsLinkedPlay S.work
        (play_of (job_view job.now) schedule.now.machines typed.program (graph_of_edges edges))
        schedule.now.events.items)
        (outside shelf (sink_state O.held O.faults O.spare out.old) input)
        (outside shelf (sink_state O.held O.faults O.spare out.new) input) (fault_after result) }
{
    let mut links = started_links::<S>(alloc, typed, edges, schedule.machines, job.draws)?;
    follow_events(&mut links, &schedule.events, &job.lines, out)?;
    put_end(links.cluster(), out)
}

/// Plays the events of a text behind its first line.
fn follow_events<S: Site, O: Sink>(
    links: &mut Links<S, MACHINES>,
    events: &[LinkEvent],
    lines: &Lines,
    out: &mut O,
) -> Result<(), Failure>
    requires on { links.old.ended ≡ false }
    requires short { 1 + length events.now < 2 ^ 32 }
    ensures on { OnOk result (links.new.ended ≡ false) }
    ensures ok { OnOk result (FollowsTo (by_links S.work lines.now) links.old.links
        (listed_links 1 events.now) (sink_state O.held O.faults O.spare out.old) links.new.links []
        (sink_state O.held O.faults O.spare out.new)) }
    ensures err { IfErr result (λ failure. FollowsUp (by_links S.work lines.now) links.old.links
        (listed_links 1 events.now) (sink_state O.held O.faults O.spare out.old)
        (sink_state O.held O.faults O.spare out.new) (Some (fault_of failure))) }
{
    let mut line = 1u32;
    'events: for event in events {
        line += 1;
        follow_event(links, event, line, lines, out)?;
    }
    Ok(())
}

/// Plays an event that a line tells, or tells why it can't happen.
fn follow_event<S: Site, O: Sink>(
    links: &mut Links<S, MACHINES>,
    event: &LinkEvent,
    line: u32,
    lines: &Lines,
    out: &mut O,
) -> Result<(), Failure>
    requires on { links.old.ended ≡ false }
    ensures on { OnOk result (links.new.ended ≡ false) }
    ensures state { OnOk result (links.new.links ≡ link_step S.work links.old.links event.now) }
    ensures ok { OnOk result (PlaysListed (by_links S.work lines.now) links.old.links event.now line
        (sink_state O.held O.faults O.spare out.old)
        (sink_state O.held O.faults O.spare out.new)) }
    ensures err { IfErr result (λ failure. StopsListed (by_links S.work lines.now) links.old.links
        event.now line (sink_state O.held O.faults O.spare out.old)
        (sink_state O.held O.faults O.spare out.new) (fault_of failure)) }
{
    if links.possible(event) {
        return play_link_event(links, event, lines, out);
    }
    match links.event(event) {
        Ok(()) => Ok(()),
        Err(LinkFault::Want) => Err(Failure::Memory),
        Err(fault) => Err(Failure::Event {
            line,
            why: why_not(event, fault),
        }),
    }
}

/// Why an event can't happen.
fn why_not(event: &LinkEvent, fault: LinkFault) -> Impossible
    ensures { result ≡ why_not event.now fault }
{
    match (event, fault) {
        (LinkEvent::Go(machine), LinkFault::Plain(fault)) => why_of(&Event::Go(*machine), fault),
        (_, LinkFault::Plain(EventFault::RunOver)) => Impossible::RunOver,
        (LinkEvent::Go(_), _) => Impossible::RunOver,
        (LinkEvent::Take(name), _) => Impossible::NotUnderWay(*name),
        (LinkEvent::Lose(name), _) => Impossible::NotUnderWay(*name),
        (LinkEvent::Again(name), _) => Impossible::NotAgain(*name),
        (LinkEvent::Ack(name), _) => Impossible::NoAck(*name),
        (LinkEvent::Drop(name), _) => Impossible::NoAck(*name),
    }
}
