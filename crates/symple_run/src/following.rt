// `replay`: the events of a schedule are played one by one, as far as they can happen.
ghost use Rattle.std.specs.Prelude.{◌≡◌, ◌≤◌, ◌<◌, ◌+◌, ◌^◌, [], ◌∷◌, IfErr, OnOk, None, Some, false, length};
ghost use Rattle.command_steps.specs.Commands.{play_of, replay_order};
ghost use Rattle.command_steps.specs.Faults.{fault_of};
ghost use Rattle.command_steps.specs.Orders.{Followed};
ghost use Rattle.command_steps.specs.States.{Kept, Left, outside, sink_state};
ghost use Rattle.command_steps.specs.Walks.{Performs, fault_after};
ghost use Rattle.delivery_log.specs.ScheduleTexts.{events_lines};
ghost use Rattle.edge_reader.specs.Gives.{graph_of_edges};
ghost use Rattle.link_runs.specs.LinkedPlays.{Goes, IsLinkedPlay};
ghost use Rattle.symple_face.specs.Cluster.{step};
ghost use Rattle.symple_run.specs.Followed.{ByLinkText, IsFollowedPlay};
ghost use Rattle.symple_run.specs.FollowWalks.{FollowsTo, FollowsUp, PlaysListed, StopsListed};
ghost use Rattle.symple_run.specs.Played.{IsPlayed};
ghost use Rattle.symple_run.specs.RunWalks.{DoesTask};
ghost use Rattle.symple_words.specs.Ranges.{AreMachines, IsGraphForm};
ghost use Rattle.symple_words.specs.Views.{job_view};

use crate::schedules::{judged_links, load_schedule, told_events};
use cluster_run::{Cluster, EventFault};
use command_steps::{Failure, load_both};
use delivery_log::{Form, Schedule, form_of, lines_of, round_after};
use edge_reader::Edges;
use link_runs::follow_links;
use machine_runs::{play_event, put_end, started, why_of};
use outside::{Shelf, Sink};
use std::alloc::Global;
use symple_face::Site;
use symple_words::{Job, Lines};
use vert_base::Event;
use vert_base::limits::MACHINES;
use vert_tree::Typed;

/// Runs the program on the graph by the events of a schedule.
pub(crate) fn replay<S: Site, H: Shelf, O: Sink>(
    alloc: Global,
    job: &Job,
    schedule: &str,
    shelf: &mut H,
    out: &mut O,
) -> Result<(), Failure>
    requires form { IsGraphForm job.now.form }
    ensures order { Performs H.files H.loads H.stores O.held O.faults O.spare
        (IsPlayed S.work) (replay_order (job_view job.now) schedule.now)
        shelf.old shelf.new out.old out.new result }
    ensures later { H.loads shelf.old ≤ H.loads shelf.new }
{
    let (typed, edges) = load_both(alloc, shelf, &job.program, &job.form, &job.graph)?;
    let text = load_schedule(alloc, shelf, schedule)?;
    follow::<S, O>(alloc, job, &text, typed, edges, out)
}

/// Judges the text of a schedule, and then plays its events on machines of the graph.
fn follow<S: Site, O: Sink>(
    alloc: Global,
    job: &Job,
    text: &[u8],
    typed: Typed,
    edges: Edges,
    out: &mut O,
) -> Result<(), Failure>
    ensures { DoesTask S.work (Followed (λ machines. play_of (job_view job.now) machines
        typed.program (graph_of_edges edges)) text.now)
        (sink_state O.held O.faults O.spare out.old)
        (sink_state O.held O.faults O.spare out.new) result }
{
    match told_events(alloc, text) {
        Ok(Some(schedule)) => {
            follow_schedule::<S, O>(alloc, job, form_of(text), &schedule, typed, edges, out)
        }
        Ok(None) => follow_over_links::<S, O>(alloc, job, text, typed, edges, out),
        Err(failure) => Err(failure),
    }
}

/// Plays the events of a text of form 1 or 2.
fn follow_schedule<S: Site, O: Sink>(
    alloc: Global,
    job: &Job,
    form: Form,
    schedule: &Schedule,
    typed: Typed,
    edges: Edges,
    out: &mut O,
) -> Result<(), Failure>
    requires few { AreMachines schedule.now.machines }
    requires short { 1 + length (events_lines form 0 schedule.now.events.items) < 2 ^ 32 }
    ensures { (shelf : Kept) (input : Left) → Goes (IsFollowedPlay S.work
        (play_of (job_view job.now) schedule.now.machines typed.program (graph_of_edges edges))
        form schedule.now.events.items)
        (outside shelf (sink_state O.held O.faults O.spare out.old) input)
        (outside shelf (sink_state O.held O.faults O.spare out.new) input) (fault_after result) }
{
    let mut cluster = started::<S>(alloc, typed, edges, schedule.machines, job.draws)?;
    follow_events(&mut cluster, form, &schedule.events, &job.lines, out)?;
    put_end(&cluster, out)
}

/// Judges a text as one of form 3, and then plays its events over links.
fn follow_over_links<S: Site, O: Sink>(
    alloc: Global,
    job: &Job,
    text: &[u8],
    typed: Typed,
    edges: Edges,
    out: &mut O,
) -> Result<(), Failure>
    ensures { (shelf : Kept) (input : Left) → Goes (ByLinkText text.now (λ machines events.
        IsLinkedPlay S.work (play_of (job_view job.now) machines typed.program
        (graph_of_edges edges)) events))
        (outside shelf (sink_state O.held O.faults O.spare out.old) input)
        (outside shelf (sink_state O.held O.faults O.spare out.new) input) (fault_after result) }
{
    let schedule = judged_links(alloc, text)?;
    follow_links::<S, O>(alloc, job, &schedule, typed, edges, out)
}

/// Plays events that a text of a form tells behind its first line.
fn follow_events<S: Site, O: Sink>(
    cluster: &mut Cluster<S, MACHINES>,
    form: Form,
    events: &[Event],
    lines: &Lines,
    out: &mut O,
) -> Result<(), Failure>
    requires on { cluster.old.ended ≡ false }
    requires few { 1 + length (events_lines form 0 events.now) < 2 ^ 32 }
    ensures on { OnOk result (cluster.new.ended ≡ false) }
    ensures ok { OnOk result (FollowsTo S.work lines.now form
        (record { held = 0; lines = 1; world = cluster.old.world; left = events.now })
        (sink_state O.held O.faults O.spare out.old)
        (record { held = 0; lines = 1; world = cluster.new.world; left = [] })
        (sink_state O.held O.faults O.spare out.new)) }
    ensures err { IfErr result (λ failure. FollowsUp S.work lines.now form
        (record { held = 0; lines = 1; world = cluster.old.world; left = events.now })
        (sink_state O.held O.faults O.spare out.old)
        (sink_state O.held O.faults O.spare out.new) (Some (fault_of failure))) }
{
    let mut held = 0u32;
    let mut line = 1u32;
    'events: for event in events {
        let told = lines_of(form, held, event);
        line += told;
        follow_event(cluster, event, line, lines, out)?;
        held = round_after(held, *event);
    }
    Ok(())
}

/// Plays an event that a line tells, or tells why it can't happen.
fn follow_event<S: Site, O: Sink>(
    cluster: &mut Cluster<S, MACHINES>,
    event: &Event,
    line: u32,
    lines: &Lines,
    out: &mut O,
) -> Result<(), Failure>
    requires on { cluster.old.ended ≡ false }
    ensures on { OnOk result (cluster.new.ended ≡ false) }
    ensures world { OnOk result (cluster.new.world ≡ step S.work cluster.old.world event.now) }
    ensures ok { OnOk result (PlaysListed S.work lines.now cluster.old.world event.now line
        (sink_state O.held O.faults O.spare out.old)
        (sink_state O.held O.faults O.spare out.new)) }
    ensures err { IfErr result (λ failure. StopsListed S.work lines.now cluster.old.world event.now
        line (sink_state O.held O.faults O.spare out.old)
        (sink_state O.held O.faults O.spare out.new) (fault_of failure)) }
{
    if cluster.possible(event) {
        return play_event(cluster, event, lines, out);
    }
    match cluster.event(event) {
        Ok(()) => Ok(()),
        Err(EventFault::Want) => Err(Failure::Memory),
        Err(fault) => Err(Failure::Event {
            line,
            why: why_of(event, fault),
        }),
    }
}
