// The machines of a run, from the edges of a graph to the last event.
ghost use Rattle.std.specs.Prelude.{◌≡◌, ◌<◌, ◌^◌, [], false, true, if◌then◌else◌, length, map, option_copied, option_map, IfOk, IfErr, IfSome, None, OnOk, Some};
ghost use Rattle.std.specs.List.{All};
ghost use Rattle.edge_reader.specs.Gives.{graph_of_edges};
ghost use Rattle.schedule_laws.specs.Layout.{taken_in, told_in};
ghost use Rattle.schedule_laws.specs.Texts.{told_lines};
ghost use Rattle.array_text.specs.Events.{event_line};
ghost use Rattle.array_text.specs.Writes.{Writes};
ghost use Rattle.symple_face.specs.Cluster.{events_left, finished, step};
ghost use Rattle.cluster_run.specs.Faults.{fault_of as event_fault};
ghost use Rattle.symple_face.specs.PartViews.{plain_of as plain_part};
ghost use Rattle.command_steps.specs.Faults.{fault_of};
ghost use Rattle.machine_runs.specs.PlainPlays.{GoesOn, IsFirstWorld, LeadsOn, first_report};
ghost use Rattle.machine_runs.specs.PlayedEvents.{PutsLines, StopsInLines};
ghost use Rattle.machine_runs.specs.RunParts.{IsRunOf};
ghost use Rattle.command_steps.specs.States.{sink_state};
ghost use Rattle.command_steps.specs.Walks.{Plays};
ghost use Rattle.vert_base.specs.Letters.{letter_of};
ghost use Rattle.symple_words.specs.Ranges.{AreMachines};

use crate::rounds::{ends_round, write_round_of};
use array_text::write_event;
use chunk_split::cuts_of;
use cluster_run::{Cluster, choices_are_in_order};
use command_steps::Failure;
use delivery_log::plain;
use edge_reader::Edges;
use graph_table::Table;
use instrument::{Split, split_of};
use mirror_table::parts;
use outside::{Sink, SinkFault};
use std::alloc::Global;
use std::rc::Rc;
use symple_face::{Part, Site};
use symple_words::Lines;
use vert_base::limits::MACHINES;
use vert_base::{Event, Message, Want};
use vert_tree::Typed;
use word_kinds::literals_are_words;

/// The parts of a graph for so many machines, all with one program. The table of the edges is given up.
pub fn parts_from(
    alloc: Global,
    split: Split,
    edges: Edges,
    machines: u8,
    draws: u64,
) -> Result<Vec<Part>, Want>
    requires { AreMachines machines }
    ensures of_graph { IfOk result (λ parts. IsRunOf machines draws (graph_of_edges edges)
        (map plain_part parts.items)) }
    ensures split { IfOk result (λ parts. All (λ part. part.split.value ≡ split) parts.items) }
{
    let split = Rc::new(alloc, split)?;
    let table = Table::from_edges(alloc, edges)?;
    let cuts = cuts_of(&table, machines);
    // It says that they rise.
    let _ends = cuts.ends();
    parts(alloc, table, &cuts, &split, draws)
}

/// Machines of a kind before any event, each made of its part of the graph.
pub fn started<S: Site>(
    alloc: Global,
    typed: Typed,
    edges: Edges,
    machines: u8,
    draws: u64,
) -> Result<Cluster<S, MACHINES>, Want>
    requires { AreMachines machines }
    ensures first { IfOk result (λ cluster. IsFirstWorld S.work typed.program
        (graph_of_edges edges) machines draws cluster.world) }
    ensures on { IfOk result (λ cluster. cluster.ended ≡ false) }
{
    literals_are_words(&typed);
    let parts = parts_from(alloc, split_of(typed), edges, machines, draws)?;
    Cluster::<S, MACHINES>::start(alloc, parts)
}

/// Plays the plain events up to the end. What is asked for of a round is put when it is judged.
pub fn play_out<S: Site, O: Sink>(
    cluster: &mut Cluster<S, MACHINES>,
    lines: &Lines,
    out: &mut O,
) -> Result<(), Failure>
    requires on { cluster.old.ended ≡ false }
    ensures on { OnOk result (cluster.new.ended ≡ false) }
    ensures finished { OnOk result (finished cluster.new.world ≡ true) }
    ensures ok { OnOk result (LeadsOn S.work lines.now
        cluster.old.world (sink_state O.held O.faults O.spare out.old)
        cluster.new.world (sink_state O.held O.faults O.spare out.new)) }
    ensures err { IfErr result (λ failure. GoesOn S.work lines.now cluster.old.world
        (sink_state O.held O.faults O.spare out.old) (sink_state O.held O.faults O.spare out.new)
        (Some (fault_of failure))) }
{
    choices_are_in_order::<S>();
    'events: while let Some(event) = plain(cluster) {
        cluster.tells_reached();
        play_event(cluster, &event, lines, out)?;
    }
    Ok(())
}

/// Plays a possible event, whoever chose it: puts its line before it is played, and what is asked for of the
/// round that it ends behind it.
pub fn play_event<S: Site, O: Sink>(
    cluster: &mut Cluster<S, MACHINES>,
    event: &Event,
    lines: &Lines,
    out: &mut O,
) -> Result<(), Failure>
    requires on { cluster.old.ended ≡ false }
    requires possible { event_fault cluster.old.world event.now ≡ None }
    ensures on { OnOk result (cluster.new.ended ≡ false) }
    ensures world { OnOk result (cluster.new.world ≡ step S.work cluster.old.world event.now) }
    ensures ok { OnOk result (PutsLines S.work lines.now cluster.old.world event.now
        (sink_state O.held O.faults O.spare out.old)
        (sink_state O.held O.faults O.spare out.new)) }
    ensures err { IfErr result (λ failure. StopsInLines S.work lines.now cluster.old.world event.now
        (sink_state O.held O.faults O.spare out.old) (sink_state O.held O.faults O.spare out.new)
        (fault_of failure)) }
    ensures nearer { OnOk result
        (events_left cluster.new.world < events_left cluster.old.world) }
{
    write_log(lines.log, cluster, event, out)?;
    let tells = ends_round(cluster, event);
    // The event is possible, so nothing but memory can fail.
    match cluster.event(event) {
        Ok(()) => {}
        Err(_) => return Err(Failure::Memory),
    }
    write_round_if(tells, cluster, lines, out)?;
    Ok(())
}

/// Puts the line of an event, where it is asked for.
pub fn write_log<S: Site, O: Sink>(
    asked: bool,
    cluster: &Cluster<S, MACHINES>,
    event: &Event,
    out: &mut O,
) -> Result<(), Failure>
    ensures { Plays (if asked
        then event_line event.now (taken_in cluster.now.world event.now) else [])
        (sink_state O.held O.faults O.spare out.old)
        (sink_state O.held O.faults O.spare out.new) result }
{
    if !asked {
        return Ok(());
    }
    let message = taken(cluster, event);
    // The length of a body is told in 32 bits. No form has so long a one.
    if is_long(message) {
        return Err(Failure::Memory);
    }
    write_event(event, message, out)?;
    Ok(())
}

/// Whether the length of a message's body doesn't fit 32 bits.
fn is_long(message: Option<&Message>) -> bool
    ensures { result ≡ false
        → IfSome message.entry (λ message. length message.now.body.items < 2 ^ 32) }
{
    match message {
        Some(message) => message.body.len() > u32::MAX as usize,
        None => false,
    }
}

/// Puts what is asked for of the round that was judged, if one was.
pub fn write_round_if<S: Site, O: Sink>(
    judged: bool,
    cluster: &Cluster<S, MACHINES>,
    lines: &Lines,
    out: &mut O,
) -> Result<(), SinkFault>
    requires on { cluster.now.ended ≡ false }
    ensures { Writes O.held O.faults O.spare out.old out.new (if judged then told_lines lines.now
        (told_in lines.now.reads S.work cluster.now.world (first_report S.work cluster.now.world))
        else []) result }
{
    if judged {
        write_round_of(cluster, lines, out)
    } else {
        Ok(())
    }
}

/// The message that an event takes.
fn taken<'a, S: Site>(cluster: &'a Cluster<S, MACHINES>, event: &Event) -> Option<&'a Message>
    ensures { option_map letter_of (option_copied result)
        ≡ taken_in cluster.now.world event.now }
{
    match event {
        Event::Go(_) => None,
        Event::Take(name) => cluster.peek(name),
    }
}
