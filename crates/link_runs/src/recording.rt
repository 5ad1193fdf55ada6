// `record --lossy`: the events that a seed draws over links are played and kept as text of form 3.
ghost use Rattle.std.specs.Prelude.{◌≡◌, ◌≤◌, ◌<◌, ◌⊎◌, ◌++◌, [], ◌∷◌, ℕ, List, IfErr, IfOk, OnOk, false, length, true};
ghost use Rattle.command_steps.specs.Commands.{play_of};
ghost use Rattle.command_steps.specs.Faults.{fault_of};
ghost use Rattle.command_steps.specs.Notes.{LongSchedule, NoMemory};
ghost use Rattle.command_steps.specs.States.{Left, outside, shelf_state, sink_state};
ghost use Rattle.command_steps.specs.Walks.{fault_after};
ghost use Rattle.edge_reader.specs.Gives.{graph_of_edges};
ghost use Rattle.link_core.specs.declared.event.LinkEvent.{LinkEvent};
ghost use Rattle.delivery_log.specs.Choosers.{generator_of};
ghost use Rattle.link_core.specs.LinkRecords.{RecordsLinks};
ghost use Rattle.link_core.specs.LinkTexts.{links_text};
ghost use Rattle.link_runs.specs.LinkedPlays.{Goes, IsDrawnFar, IsLossyPlay};
ghost use Rattle.link_runs.specs.LinkTellings.{by_links};
ghost use Rattle.link_runs.specs.Writing.{ChangesByWriting};
ghost use Rattle.machine_runs.specs.RecordWalks.{HasRecorded, StopsRecording};
ghost use Rattle.rand_pcg.specs.Lcg.{Lcg};
ghost use Rattle.symple_face.specs.Cluster.{finished};
ghost use Rattle.symple_words.specs.Ranges.{AreMachines};
ghost use Rattle.symple_words.specs.Views.{job_view};
ghost use Rattle.vert_base.specs.declared.limits.TheConstants.{SCHEDULE_BYTES};

use crate::playing::{play_link_event, started_links};
use command_steps::{Failure, store_file};
use edge_reader::Edges;
use link_core::{
    LinkChooser, LinkEvent, LinkRecordFault, LinkRecorder, Links, drawn_links_are_possible,
    links_are_in_order,
};
use machine_runs::put_table;
use outside::{Shelf, Sink};
use std::alloc::Global;
use symple_face::Site;
use symple_words::{Job, Lines};
use vert_base::limits::MACHINES;
use vert_tree::Typed;

/// Plays the events that a seed draws over the links of machines of the graph, keeps their text, and puts the
/// table.
pub fn record_lossy<S: Site, H: Shelf, O: Sink>(
    alloc: Global,
    job: &Job,
    schedule: &str,
    machines: u8,
    seed: u64,
    read: (Typed, Edges),
    shelf: &mut H,
    out: &mut O,
) -> Result<(), Failure>
    requires few { AreMachines machines }
    ensures order { (input : Left) → Goes (IsLossyPlay S.work (play_of (job_view job.now) machines
        read.0.program (graph_of_edges read.1)) seed schedule.now)
        (outside (shelf_state H.files H.loads H.stores shelf.old)
        (sink_state O.held O.faults O.spare out.old) input)
        (outside (shelf_state H.files H.loads H.stores shelf.new)
        (sink_state O.held O.faults O.spare out.new) input) (fault_after result) }
    ensures later { H.loads shelf.old ≤ H.loads shelf.new }
    ensures written { ChangesByWriting (H.files shelf.old) (H.files shelf.new) result }
{
    let (typed, edges) = read;
    let mut links = started_links::<S>(alloc, typed, edges, machines, job.draws)?;
    let recorder = record_events(alloc, &mut links, machines, seed, &job.lines, out)?;
    store_file(shelf, schedule, recorder.text())?;
    put_table(links.cluster(), out)?;
    Ok(())
}

/// Plays the events that a seed draws up to the end. Each is added to a recorder before its line is put.
fn record_events<S: Site, O: Sink>(
    alloc: Global,
    links: &mut Links<S, MACHINES>,
    machines: u8,
    seed: u64,
    lines: &Lines,
    out: &mut O,
) -> Result<LinkRecorder, Failure>
    requires on { links.old.ended ≡ false }
    requires few { AreMachines machines }
    ensures on { OnOk result (links.new.ended ≡ false) }
    ensures finished { OnOk result (finished links.new.links.world ≡ true) }
    ensures ok { IfOk result (λ recorder. (h : Lcg)
        × HasRecorded (by_links S.work lines.now) (links_text machines) (IsDrawnFar S.work machines)
        (RecordsLinks recorder machines) links.old.links (generator_of seed)
        (sink_state O.held O.faults O.spare out.old) links.new.links h
        (sink_state O.held O.faults O.spare out.new)) }
    ensures err { IfErr result (λ failure. StopsRecording (by_links S.work lines.now)
        (links_text machines) (IsDrawnFar S.work machines) links.old.links (generator_of seed)
        (sink_state O.held O.faults O.spare out.old)
        (sink_state O.held O.faults O.spare out.new) (fault_of failure)) }
{
    links_are_in_order::<S>();
    drawn_links_are_possible::<S>();
    links.tells_reached();
    let mut recorder = LinkRecorder::new(alloc, machines)?;
    let mut chooser = LinkChooser::new(seed);
    'events: while let Some(event) = chooser.next(links) {
        links.tells_reached();
        add(&mut recorder, &event)?;
        play_link_event(links, &event, lines, out)?;
    }
    Ok(recorder)
}

/// Adds an event to a recorder.
fn add(recorder: &mut LinkRecorder, event: &LinkEvent) -> Result<(), Failure>
    ensures ok { (machines : ℕ) (events : List LinkEvent) →
        RecordsLinks recorder.old machines events →
        OnOk result (RecordsLinks recorder.new machines (events ++ event.now ∷ [])) }
    ensures err { (machines : ℕ) (events : List LinkEvent) →
        RecordsLinks recorder.old machines events → IfErr result (λ failure.
        (fault_of failure ≡ NoMemory) ⊎ ((fault_of failure ≡ LongSchedule) × (SCHEDULE_BYTES
        < length (links_text machines (events ++ event.now ∷ []))))) }
{
    match recorder.add(event) {
        Ok(()) => Ok(()),
        Err(LinkRecordFault::TooLong) => Err(Failure::LongSchedule),
        Err(LinkRecordFault::Want) => Err(Failure::Memory),
    }
}
