// `record` and `renew`: the events of a run, or of a schedule, are kept as text of form 2, those over links of form 3.
ghost use Rattle.std.specs.Prelude.{◌≡◌, ◌≤◌, ◌<◌, ◌⊎◌, ◌++◌, [], ◌∷◌, ℕ, List, IfErr, OnOk, false, length, true};
ghost use Rattle.command_steps.specs.Commands.{lossy_order, play_of, record_order, renew_order};
ghost use Rattle.command_steps.specs.Faults.{fault_of};
ghost use Rattle.command_steps.specs.Leaves.{Leaves};
ghost use Rattle.command_steps.specs.Notes.{LongSchedule, NoMemory};
ghost use Rattle.command_steps.specs.Orders.{Drawn, Runs, follows};
ghost use Rattle.command_steps.specs.States.{Held, Left, outside, shelf_state, sink_state};
ghost use Rattle.command_steps.specs.Walks.{Performs, fault_after};
ghost use Rattle.delivery_log.specs.Choosers.{generator_of};
ghost use Rattle.delivery_log.specs.Records.{Records};
ghost use Rattle.delivery_log.specs.ScheduleTexts.{schedule_text};
ghost use Rattle.delivery_log.specs.declared.form.Form.TheVariants.{Roundless};
ghost use Rattle.edge_reader.specs.Gives.{graph_of_edges};
ghost use Rattle.link_runs.specs.Writing.{ChangesByWriting};
ghost use Rattle.rand_pcg.specs.Lcg.{Lcg};
ghost use Rattle.symple_face.specs.Cluster.{finished};
ghost use Rattle.symple_face.specs.Work.{Work};
ghost use Rattle.symple_run.specs.Played.{IsPlayed};
ghost use Rattle.symple_run.specs.RecordWalks.{HasRecorded, StopsRecording};
ghost use Rattle.symple_words.specs.Ranges.{AreMachines, IsGraphForm};
ghost use Rattle.symple_words.specs.Views.{job_view};
ghost use Rattle.vert_base.specs.declared.limits.TheConstants.{SCHEDULE_BYTES};
ghost use Rattle.vert_base.specs.declared.message.Event.{Event};

use crate::schedules::{judged, load_schedule};
use cluster_run::Cluster;
use command_steps::{Failure, load_both, store_file};
use delivery_log::{Chooser, RecordFault, Recorder, chosen_runs_are_complete};
use edge_reader::Edges;
use link_runs::record_lossy;
use machine_runs::{play_event, put_table, started};
use outside::{Shelf, Sink};
use std::alloc::Global;
use symple_face::Site;
use symple_words::{Job, Lines};
use vert_base::Event;
use vert_base::limits::MACHINES;
use vert_tree::Typed;

/// Runs the program on the graph by the events that a seed draws, and keeps these events.
pub(crate) fn record<S: Site, H: Shelf, O: Sink>(
    alloc: Global,
    job: &Job,
    schedule: &str,
    machines: u8,
    seed: u64,
    shelf: &mut H,
    out: &mut O,
) -> Result<(), Failure>
    requires form { IsGraphForm job.now.form }
    requires few { AreMachines machines }
    ensures order { Performs H.files H.loads H.stores O.held O.faults O.spare
        (IsPlayed S.work) (record_order (job_view job.now) schedule.now machines seed)
        shelf.old shelf.new out.old out.new result }
    ensures later { H.loads shelf.old ≤ H.loads shelf.new }
    ensures written { ChangesByWriting (H.files shelf.old) (H.files shelf.new) result }
{
    let read = load_both(alloc, shelf, &job.program, &job.form, &job.graph)?;
    play_drawn::<S, H, O>(alloc, job, schedule, machines, seed, read, shelf, out)
}

/// The same over links that lose and repeat.
pub(crate) fn record_over_links<S: Site, H: Shelf, O: Sink>(
    alloc: Global,
    job: &Job,
    schedule: &str,
    machines: u8,
    seed: u64,
    shelf: &mut H,
    out: &mut O,
) -> Result<(), Failure>
    requires form { IsGraphForm job.now.form }
    requires few { AreMachines machines }
    ensures order { Performs H.files H.loads H.stores O.held O.faults O.spare
        (IsPlayed S.work) (lossy_order (job_view job.now) schedule.now machines seed)
        shelf.old shelf.new out.old out.new result }
    ensures later { H.loads shelf.old ≤ H.loads shelf.new }
    ensures written { ChangesByWriting (H.files shelf.old) (H.files shelf.new) result }
{
    let read = load_both(alloc, shelf, &job.program, &job.form, &job.graph)?;
    record_lossy::<S, H, O>(alloc, job, schedule, machines, seed, read, shelf, out)
}

/// Plays the events that a seed draws on machines of the graph, keeps their text, and puts the table.
fn play_drawn<S: Site, H: Shelf, O: Sink>(
    alloc: Global,
    job: &Job,
    schedule: &str,
    machines: u8,
    seed: u64,
    read: (Typed, Edges),
    shelf: &mut H,
    out: &mut O,
) -> Result<(), Failure>
    requires few { AreMachines machines }
    ensures order { Performs H.files H.loads H.stores O.held O.faults O.spare (IsPlayed S.work)
        (Runs (Drawn (play_of (job_view job.now) machines read.0.program
        (graph_of_edges read.1)) seed schedule.now) follows)
        shelf.old shelf.new out.old out.new result }
    ensures later { H.loads shelf.old ≤ H.loads shelf.new }
    ensures written { ChangesByWriting (H.files shelf.old) (H.files shelf.new) result }
{
    let (typed, edges) = read;
    let mut cluster = started::<S>(alloc, typed, edges, machines, job.draws)?;
    let mut recorder = Recorder::new(alloc, machines)?;
    record_events(&mut cluster, seed, &mut recorder, &job.lines, out)?;
    store_file(shelf, schedule, recorder.text())?;
    put_table(&cluster, out)?;
    Ok(())
}

/// Plays the events that a seed draws up to the end. Each is added to the recorder before its line is put.
fn record_events<S: Site, O: Sink>(
    cluster: &mut Cluster<S, MACHINES>,
    seed: u64,
    recorder: &mut Recorder,
    lines: &Lines,
    out: &mut O,
) -> Result<(), Failure>
    requires on { cluster.old.ended ≡ false }
    ensures on { OnOk result (cluster.new.ended ≡ false) }
    ensures finished { OnOk result (finished cluster.new.world ≡ true) }
    ensures ok { (machines : ℕ) → Records recorder.old machines [] → OnOk result ((h : Lcg)
        × HasRecorded S.work lines.now machines cluster.old.world (generator_of seed)
        (sink_state O.held O.faults O.spare out.old) cluster.new.world h
        (sink_state O.held O.faults O.spare out.new) recorder.new) }
    ensures err { (machines : ℕ) → Records recorder.old machines [] → IfErr result (λ failure.
        StopsRecording S.work lines.now machines cluster.old.world (generator_of seed)
        (sink_state O.held O.faults O.spare out.old)
        (sink_state O.held O.faults O.spare out.new) (fault_of failure)) }
{
    chosen_runs_are_complete::<S>();
    let mut chooser = Chooser::new(seed);
    'events: while let Some(event) = chooser.next(cluster) {
        cluster.tells_reached();
        add(recorder, &event)?;
        play_event(cluster, &event, lines, out)?;
    }
    Ok(())
}

/// Adds an event to a recorder.
fn add(recorder: &mut Recorder, event: &Event) -> Result<(), Failure>
    ensures ok { (machines : ℕ) (events : List Event) → Records recorder.old machines events →
        OnOk result (Records recorder.new machines (events ++ event.now ∷ [])) }
    ensures err { (machines : ℕ) (events : List Event) → Records recorder.old machines events →
        IfErr result (λ failure. (fault_of failure ≡ NoMemory)
        ⊎ ((fault_of failure ≡ LongSchedule) × (SCHEDULE_BYTES
        < length (schedule_text Roundless machines (events ++ event.now ∷ []))))) }
{
    match recorder.add(event) {
        Ok(()) => Ok(()),
        Err(RecordFault::TooLong) => Err(Failure::LongSchedule),
        Err(RecordFault::Want) => Err(Failure::Memory),
    }
}

/// Keeps the machines and the events of a schedule in form 2 under another name.
pub(crate) fn renew<H: Shelf>(
    alloc: Global,
    schedule: &str,
    target: &str,
    shelf: &mut H,
) -> Result<(), Failure>
    ensures order { (work : Work) (out : Held) (input : Left) → Leaves (IsPlayed work)
        (renew_order schedule.now target.now)
        (outside (shelf_state H.files H.loads H.stores shelf.old) out input)
        (outside (shelf_state H.files H.loads H.stores shelf.new) out input)
        (fault_after result) }
    ensures later { H.loads shelf.old ≤ H.loads shelf.new }
{
    let text = load_schedule(alloc, shelf, schedule)?;
    let schedule = judged(alloc, &text)?;
    let mut recorder = Recorder::new(alloc, schedule.machines)?;
    add_all(&mut recorder, &schedule.events)?;
    store_file(shelf, target, recorder.text())
}

/// Adds events to a recorder.
fn add_all(recorder: &mut Recorder, events: &[Event]) -> Result<(), Failure>
    ensures ok { (machines : ℕ) → Records recorder.old machines [] →
        OnOk result (Records recorder.new machines events.now) }
    ensures err { (machines : ℕ) → Records recorder.old machines [] →
        IfErr result (λ failure. (fault_of failure ≡ NoMemory)
        ⊎ ((fault_of failure ≡ LongSchedule)
        × (SCHEDULE_BYTES < length (schedule_text Roundless machines events.now)))) }
{
    'events: for event in events {
        add(recorder, event)?;
    }
    Ok(())
}
