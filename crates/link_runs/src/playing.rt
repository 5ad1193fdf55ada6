// The links of a run, from the edges of a graph on, one event at a time.
ghost use Rattle.std.specs.Prelude.{◌≡◌, ◌++◌, [], ◌∷◌, IfErr, IfOk, None, OnOk, false, if◌then◌else◌};
ghost use Rattle.array_text.specs.Writes.{Writes};
ghost use Rattle.command_steps.specs.Faults.{fault_of};
ghost use Rattle.command_steps.specs.States.{sink_state};
ghost use Rattle.command_steps.specs.Walks.{Plays};
ghost use Rattle.edge_reader.specs.Gives.{graph_of_edges};
ghost use Rattle.link_core.specs.LinkFaults.{link_fault_of};
ghost use Rattle.link_core.specs.Links.{link_step, linked_anew};
ghost use Rattle.link_runs.specs.LinkedEvents.{PutsLinked, StopsInLinked};
ghost use Rattle.link_runs.specs.LinkTellings.{ends_link_round, link_line};
ghost use Rattle.machine_runs.specs.PlainPlays.{IsFirstWorld};
ghost use Rattle.symple_words.specs.Ranges.{AreMachines};
ghost use Rattle.vert_base.specs.NameTexts.{name_text};

use array_text::{put_all, write_name};
use command_steps::Failure;
use edge_reader::Edges;
use instrument::split_of;
use link_core::{LinkEvent, Links};
use machine_runs::{ends_round, parts_from, write_log, write_round_if};
use outside::{Sink, SinkFault};
use std::alloc::Global;
use symple_face::Site;
use symple_words::Lines;
use vert_base::limits::MACHINES;
use vert_base::{Event, Name, Want};
use vert_tree::Typed;
use word_kinds::literals_are_words;

/// Machines of a kind and links between them before any event, each machine made of its part of the graph.
pub(crate) fn started_links<S: Site>(
    alloc: Global,
    typed: Typed,
    edges: Edges,
    machines: u8,
    draws: u64,
) -> Result<Links<S, MACHINES>, Want>
    requires { AreMachines machines }
    ensures first { IfOk result (λ links. IsFirstWorld S.work typed.program
        (graph_of_edges edges) machines draws links.links.world) }
    ensures anew { IfOk result (λ links. links.links ≡ linked_anew links.links.world) }
    ensures on { IfOk result (λ links. links.ended ≡ false) }
{
    literals_are_words(&typed);
    let parts = parts_from(alloc, split_of(typed), edges, machines, draws)?;
    Links::<S, MACHINES>::start(alloc, parts)
}

/// Plays a possible event, whoever chose it: puts its line before it is played, and what is asked for of the
/// round that it ends behind it.
pub(crate) fn play_link_event<S: Site, O: Sink>(
    links: &mut Links<S, MACHINES>,
    event: &LinkEvent,
    lines: &Lines,
    out: &mut O,
) -> Result<(), Failure>
    requires on { links.old.ended ≡ false }
    requires possible { link_fault_of links.old.links event.now ≡ None }
    ensures on { OnOk result (links.new.ended ≡ false) }
    ensures state { OnOk result (links.new.links ≡ link_step S.work links.old.links event.now) }
    ensures ok { OnOk result (PutsLinked S.work lines.now links.old.links event.now
        (sink_state O.held O.faults O.spare out.old)
        (sink_state O.held O.faults O.spare out.new)) }
    ensures err { IfErr result (λ failure. StopsInLinked S.work lines.now links.old.links event.now
        (sink_state O.held O.faults O.spare out.old) (sink_state O.held O.faults O.spare out.new)
        (fault_of failure)) }
{
    write_link_line(lines, links, event, out)?;
    let tells = ends_link_round(links, event);
    // The event is possible, so nothing but memory can fail.
    match links.event(event) {
        Ok(()) => {}
        Err(_) => return Err(Failure::Memory),
    }
    write_round_if(tells, links.cluster(), lines, out)?;
    Ok(())
}

/// Puts the line of an event, where it is asked for.
fn write_link_line<S: Site, O: Sink>(
    lines: &Lines,
    links: &Links<S, MACHINES>,
    event: &LinkEvent,
    out: &mut O,
) -> Result<(), Failure>
    ensures { Plays (link_line lines.now links.now.links event.now)
        (sink_state O.held O.faults O.spare out.old)
        (sink_state O.held O.faults O.spare out.new) result }
{
    match event {
        LinkEvent::Go(machine) => {
            write_log(lines.log, links.cluster(), &Event::Go(*machine), out)
        }
        LinkEvent::Take(name) => write_log(lines.log, links.cluster(), &Event::Take(*name), out),
        LinkEvent::Lose(name) => write_wire_line(lines.log, b"lose ", name, out),
        LinkEvent::Again(name) => write_wire_line(lines.log, b"again ", name, out),
        LinkEvent::Ack(name) => write_wire_line(lines.log, b"ack ", name, out),
        LinkEvent::Drop(name) => write_wire_line(lines.log, b"drop ", name, out),
    }
}

/// Puts the line of what befalls the links alone, where it is asked for.
fn write_wire_line<O: Sink>(
    asked: bool,
    word: &[u8],
    name: &Name,
    out: &mut O,
) -> Result<(), Failure>
    ensures { Plays (if asked then (word.now ++ name_text name.now) ++ 10 ∷ [] else [])
        (sink_state O.held O.faults O.spare out.old)
        (sink_state O.held O.faults O.spare out.new) result }
{
    if !asked {
        return Ok(());
    }
    put_line(word, name, out)?;
    Ok(())
}

fn put_line<O: Sink>(word: &[u8], name: &Name, out: &mut O) -> Result<(), SinkFault>
    ensures { Writes O.held O.faults O.spare out.old out.new
        ((word.now ++ name_text name.now) ++ 10 ∷ []) result }
{
    put_named(word, name, out)?;
    put_all(out, b"\n")
}

fn put_named<O: Sink>(word: &[u8], name: &Name, out: &mut O) -> Result<(), SinkFault>
    ensures { Writes O.held O.faults O.spare out.old out.new
        (word.now ++ name_text name.now) result }
{
    put_all(out, word)?;
    write_name(name, out)
}

/// Whether an event is the one in which machine 0 judges a round that took place.
fn ends_link_round<S: Site>(links: &Links<S, MACHINES>, event: &LinkEvent) -> bool
    ensures { result ≡ ends_link_round links.now.links event.now }
{
    match event {
        LinkEvent::Go(machine) => ends_round(links.cluster(), &Event::Go(*machine)),
        _ => false,
    }
}
