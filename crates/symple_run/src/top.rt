ghost use Rattle.std.specs.Prelude.{◌≡◌, ◌≤◌, ◌⊎◌, [], None, false, option_map, true};
ghost use Rattle.std.specs.String.{string_bytes};
ghost use Rattle.command_steps.specs.Commands.{asked, image_order, is_worker, names_stored, order_of, play_of, resume_order, run_order, takes_input};
ghost use Rattle.command_steps.specs.Leaves.{Leaves};
ghost use Rattle.command_steps.specs.Orders.{Plain};
ghost use Rattle.command_steps.specs.Quiet.{KeepsOthers};
ghost use Rattle.command_steps.specs.declared.status.Status.TheVariants.{Done, WriteFault};
ghost use Rattle.command_steps.specs.States.{input_state, outside, shelf_state, sink_state};
ghost use Rattle.command_steps.specs.Walks.{Performs, fault_after};
ghost use Rattle.edge_reader.specs.Gives.{graph_of_edges};
ghost use Rattle.link_core.specs.LinkOrder.{MessagesAreDeliveredOnce, SomeLinkMoves};
ghost use Rattle.link_runs.specs.Writing.{ChangesByWriting};
ghost use Rattle.part_runs.specs.CoreServing.{CompleteRunsAreServed};
ghost use Rattle.symple_run.specs.Continued.{EveryStopGoesOn};
ghost use Rattle.symple_run.specs.Headline.{Answers, IsComplete, TellsFreedom};
ghost use Rattle.symple_run.specs.Interrupted.{TellsImages};
ghost use Rattle.symple_run.specs.Played.{IsPlayed};
ghost use Rattle.symple_run.specs.RecordLines.{is_record, records};
ghost use Rattle.symple_run.specs.Replays.{LinkReplaysGainTheSame, ReplaysGainTheSame};
ghost use Rattle.symple_run.specs.RunWalks.{DoesTask};
ghost use Rattle.symple_run.specs.SourceRuns.{IsSourceRun};
ghost use Rattle.symple_run.specs.StoredImages.{EveryStoredImageIsRead};
ghost use Rattle.symple_words.specs.Lines.{RecordOf, RunOf};
ghost use Rattle.symple_words.specs.Ranges.{AreMachines, IsGraphForm, IsWithin};
ghost use Rattle.symple_words.specs.Views.{job_view, line_view, words_of};
ghost use Rattle.worker_laws.specs.Chunks.{TablesAreOfChunks};
ghost use Rattle.worker_stream.specs.Prompt.{PlainRunsArePrompt, PromptRunsAreServed};

use crate::following::replay;
use crate::images::{load_keyed, play_imaged};
use crate::recording::{record, record_over_links, renew};
use crate::resumes::{
    find_start, later_of, play_resumed, stopped_runs_go_on, stored_images_are_read,
};
use crate::shown::show;
use check_point::images_read_back;
use cluster_run::{choices_are_in_order, worlds_are_in_order};
use command_steps::{
    Failure, Status, load_both, show_plan, show_program, tell_freedom, write_note,
};
use delivery_log::chosen_runs_are_complete;
use edge_reader::Edges;
use instrument::split_of;
use link_core::{drawn_links_are_possible, links_are_in_order};
use machine_runs::{play_out, put_table, started};
use order_free::order_free_programs;
use outside::{Shelf, Sink, Source};
use part_runs::{core_runs_are_served, split, work};
use std::alloc::Global;
use symple_face::{Restart, Site};
use symple_words::{Job, Line, read_words};
use vert_tree::Typed;
use word_kinds::literals_are_words;
use worker_stream::prompt_runs_are_served;

/// Runs the program on the graph and puts what is asked of the run.
fn run<S: Site, H: Shelf, O: Sink>(
    alloc: Global,
    job: &Job,
    machines: u8,
    shelf: &mut H,
    out: &mut O,
) -> Result<(), Failure>
    requires form { IsGraphForm job.now.form }
    requires few { AreMachines machines }
    ensures order { Performs H.files H.loads H.stores O.held O.faults O.spare
        (IsPlayed S.work) (run_order (job_view job.now) machines)
        shelf.old shelf.new out.old out.new result }
    ensures later { H.loads shelf.old ≤ H.loads shelf.new }
{
    let (typed, edges) = load_both(alloc, shelf, &job.program, &job.form, &job.graph)?;
    play::<S, O>(alloc, job, machines, typed, edges, out)
}

/// Runs machines on the graph, one for each chunk, and puts what is asked for of the rounds as they are
/// judged, and then the table.
fn play<S: Site, O: Sink>(
    alloc: Global,
    job: &Job,
    machines: u8,
    typed: Typed,
    edges: Edges,
    out: &mut O,
) -> Result<(), Failure>
    requires { AreMachines machines }
    ensures { DoesTask S.work (Plain (play_of (job_view job.now) machines typed.program
        (graph_of_edges edges))) (sink_state O.held O.faults O.spare out.old)
        (sink_state O.held O.faults O.spare out.new) result }
{
    let mut cluster = started::<S>(alloc, typed, edges, machines, job.draws)?;
    play_out(&mut cluster, &job.lines, out)?;
    put_table(&cluster, out)?;
    Ok(())
}

/// Runs the program on the graph, puts what is asked of the run and leaves images of it.
fn run_imaged<S: Restart, H: Shelf, O: Sink>(
    alloc: Global,
    job: &Job,
    machines: u8,
    image: &str,
    shelf: &mut H,
    out: &mut O,
) -> Result<(), Failure>
    requires form { IsGraphForm job.now.form }
    requires few { AreMachines machines }
    ensures order { Performs H.files H.loads H.stores O.held O.faults O.spare
        (IsPlayed S.work) (image_order (job_view job.now) machines image.now)
        shelf.old shelf.new out.old out.new result }
    ensures later { H.loads shelf.old ≤ H.loads shelf.new }
{
    let keyed = load_keyed(alloc, job, machines, shelf)?;
    play_imaged::<S, H, O>(alloc, job, machines, image, keyed, shelf, out)
}

/// Goes on with a run from the later of its two images, or from its beginning where there is none.
fn resume<S: Restart, H: Shelf, O: Sink>(
    alloc: Global,
    job: &Job,
    image: &str,
    machines: u8,
    shelf: &mut H,
    out: &mut O,
) -> Result<(), Failure>
    requires form { IsGraphForm job.now.form }
    requires few { AreMachines machines }
    ensures order { Performs H.files H.loads H.stores O.held O.faults O.spare
        (IsPlayed S.work) (resume_order (job_view job.now) image.now machines)
        shelf.old shelf.new out.old out.new result }
    ensures later { H.loads shelf.old ≤ H.loads shelf.new }
{
    images_read_back();
    let keyed = load_keyed(alloc, job, machines, shelf)?;
    literals_are_words(&keyed.typed);
    let split = split_of(keyed.typed);
    let vertices = keyed.edges.vertices;
    let even = find_start(alloc, image, 0, &keyed.key, &split, vertices, shelf)?;
    let odd = find_start(alloc, image, 1, &keyed.key, &split, vertices, shelf)?;
    let start = later_of(even, odd);
    play_resumed::<S, O>(alloc, job, machines, split, keyed.edges, start, out)
}

/// Runs a line of `run`, with `--image` or without.
fn run_line<S: Restart, H: Shelf, O: Sink>(
    alloc: Global,
    job: &Job,
    machines: u8,
    image: &Option<String>,
    shelf: &mut H,
    out: &mut O,
) -> Result<(), Failure>
    requires form { IsGraphForm job.now.form }
    requires few { AreMachines machines }
    ensures order { Performs H.files H.loads H.stores O.held O.faults O.spare
        (IsPlayed S.work) (asked (RunOf (job_view job.now) machines
        (option_map (λ name. string_bytes name) image.now)))
        shelf.old shelf.new out.old out.new result }
    ensures later { H.loads shelf.old ≤ H.loads shelf.new }
{
    match image {
        Some(image) => run_imaged::<S, H, O>(alloc, job, machines, image, shelf, out),
        None => run::<S, H, O>(alloc, job, machines, shelf, out),
    }
}

/// Runs a line of `record`, with `--lossy` or without.
fn record_line<S: Site, H: Shelf, O: Sink>(
    alloc: Global,
    job: &Job,
    schedule: &str,
    machines: u8,
    seed: u64,
    lossy: bool,
    shelf: &mut H,
    out: &mut O,
) -> Result<(), Failure>
    requires form { IsGraphForm job.now.form }
    requires few { AreMachines machines }
    ensures order { Performs H.files H.loads H.stores O.held O.faults O.spare
        (IsPlayed S.work) (asked (RecordOf (job_view job.now) schedule.now machines seed lossy))
        shelf.old shelf.new out.old out.new result }
    ensures later { H.loads shelf.old ≤ H.loads shelf.new }
    ensures written { ChangesByWriting (H.files shelf.old) (H.files shelf.new) result }
{
    if lossy {
        return record_over_links::<S, H, O>(alloc, job, schedule, machines, seed, shelf, out);
    }
    record::<S, H, O>(alloc, job, schedule, machines, seed, shelf, out)
}

/// Performs a line. A worker alone takes from the input.
fn perform<S: Restart, H: Shelf, I: Source, O: Sink>(
    alloc: Global,
    line: &Line,
    shelf: &mut H,
    input: &mut I,
    out: &mut O,
) -> Result<(), Failure>
    requires { IsWithin (line_view line.now) }
    ensures order { Leaves (IsPlayed S.work) (asked (line_view line.now))
        (outside (shelf_state H.files H.loads H.stores shelf.old)
        (sink_state O.held O.faults O.spare out.old) (input_state I.left I.faults input.old))
        (outside (shelf_state H.files H.loads H.stores shelf.new)
        (sink_state O.held O.faults O.spare out.new) (input_state I.left I.faults input.new))
        (fault_after result) }
    ensures input { is_worker (line_view line.now) ≡ false → input.new ≡ input.old }
    ensures later { H.loads shelf.old ≤ H.loads shelf.new }
    ensures written { is_record (line_view line.now) ≡ true →
        ChangesByWriting (H.files shelf.old) (H.files shelf.new) result }
{
    match line {
        Line::RunLine {
            job,
            machines,
            image,
        } => run_line::<S, H, O>(alloc, job, *machines, image, shelf, out),
        Line::PlanLine {
            graph,
            form,
            machines,
        } => show_plan(alloc, graph, form, *machines, shelf, out),
        Line::ShowLine { program } => show_program(alloc, program, shelf, out),
        Line::FreeLine { program } => tell_freedom(alloc, program, shelf, out),
        Line::RecordLine {
            job,
            schedule,
            machines,
            seed,
            lossy,
        } => record_line::<S, H, O>(alloc, job, schedule, *machines, *seed, *lossy, shelf, out),
        Line::ReplayLine { job, schedule } => replay::<S, H, O>(alloc, job, schedule, shelf, out),
        Line::RenewLine { schedule, target } => renew(alloc, schedule, target, shelf),
        Line::DemoLine { seed, machines } => show::<S, O>(alloc, *seed, *machines, out),
        Line::ResumeLine {
            job,
            image,
            machines,
        } => resume::<S, H, O>(alloc, job, image, *machines, shelf, out),
        Line::SplitLine {
            program,
            graph,
            prefix,
            form,
            machines,
            draws,
        } => split(
            alloc, program, graph, prefix, form, *machines, *draws, shelf,
        ),
        Line::WorkerLine { part, rows } => {
            work::<S, H, I, O>(alloc, part, rows, shelf, input, out)
        }
    }
}

/// Reads the words as a line and performs it.
fn obey<S: Restart, H: Shelf, I: Source, O: Sink>(
    alloc: Global,
    words: &[String],
    shelf: &mut H,
    input: &mut I,
    out: &mut O,
) -> Result<(), Failure>
    ensures order { Leaves (IsPlayed S.work) (order_of (words_of words.now))
        (outside (shelf_state H.files H.loads H.stores shelf.old)
        (sink_state O.held O.faults O.spare out.old) (input_state I.left I.faults input.old))
        (outside (shelf_state H.files H.loads H.stores shelf.new)
        (sink_state O.held O.faults O.spare out.new) (input_state I.left I.faults input.new))
        (fault_after result) }
    ensures input { takes_input (words_of words.now) ≡ false → input.new ≡ input.old }
    ensures later { H.loads shelf.old ≤ H.loads shelf.new }
    ensures written { records (words_of words.now) ≡ true →
        ChangesByWriting (H.files shelf.old) (H.files shelf.new) result }
{
    let line = read_words(alloc, words)?;
    perform::<S, H, I, O>(alloc, &line, shelf, input, out)
}

/// Performs the line that the words are, over a shelf of files, an input, and sinks for what it prints
/// and for the note that it leaves where it doesn't end well.
///
/// The words are those behind the program's own name. A worker alone takes from the input.
pub fn symple<S: Restart, H: Shelf, I: Source, O: Sink, N: Sink>(
    alloc: Global,
    words: &[String],
    shelf: &mut H,
    input: &mut I,
    out: &mut O,
    notes: &mut N,
) -> Status
    // Whatever machines S are: what is printed of a run is what their states tell, event by event.
    ensures answer { Answers (IsPlayed S.work) (words_of words.now)
        (outside (shelf_state H.files H.loads H.stores shelf.old)
        (sink_state O.held O.faults O.spare out.old) (input_state I.left I.faults input.old))
        (outside (shelf_state H.files H.loads H.stores shelf.new)
        (sink_state O.held O.faults O.spare out.new) (input_state I.left I.faults input.new))
        (sink_state N.held N.faults N.spare notes.old)
        (sink_state N.held N.faults N.spare notes.new) result }

    // Where they are cores, it is the text of the source run, which no machine tells.
    ensures core { S.is_core → Answers IsSourceRun (words_of words.now)
        (outside (shelf_state H.files H.loads H.stores shelf.old)
        (sink_state O.held O.faults O.spare out.old) (input_state I.left I.faults input.old))
        (outside (shelf_state H.files H.loads H.stores shelf.new)
        (sink_state O.held O.faults O.spare out.new) (input_state I.left I.faults input.new))
        (sink_state N.held N.faults N.spare notes.old)
        (sink_state N.held N.faults N.spare notes.new) result }

    // What is refused is refused, and what isn't is done, but for want of memory, where nothing fails.
    ensures complete { IsComplete (IsPlayed S.work) (words_of words.now)
        (outside (shelf_state H.files H.loads H.stores shelf.old)
        (sink_state O.held O.faults O.spare out.old) (input_state I.left I.faults input.old))
        (outside (shelf_state H.files H.loads H.stores shelf.new)
        (sink_state O.held O.faults O.spare out.new) (input_state I.left I.faults input.new))
        result }

    // The same of cores, by what the source run tells.
    ensures whole { S.is_core → IsComplete IsSourceRun (words_of words.now)
        (outside (shelf_state H.files H.loads H.stores shelf.old)
        (sink_state O.held O.faults O.spare out.old) (input_state I.left I.faults input.old))
        (outside (shelf_state H.files H.loads H.stores shelf.new)
        (sink_state O.held O.faults O.spare out.new) (input_state I.left I.faults input.new))
        result }

    // The runs of a program that `free` calls free are alike at all machine counts, but for their reads.
    ensures free { TellsFreedom (words_of words.now) (H.files shelf.old)
        (sink_state O.held O.faults O.spare out.old)
        (sink_state O.held O.faults O.spare out.new) result }

    // What `record` kept is replayed to the same bytes, and so is what `record --lossy` kept.
    ensures replays { ReplaysGainTheSame S.work }
    ensures links_replay { LinkReplaysGainTheSame S.work }

    // Over links that lose and repeat each message is taken once, with the body that was sent, and as long as the run
    // isn't finished some event is possible.
    ensures deliver { MessagesAreDeliveredOnce S.work S.sound }
    ensures moves { SomeLinkMoves S.work S.sound }

    // Under the two names of images stands what was stored last, up to the end or to a store that failed; and where
    // they are cores, that is the images of the source run.
    ensures images { TellsImages (IsPlayed S.work) (words_of words.now)
        (outside (shelf_state H.files H.loads H.stores shelf.old)
        (sink_state O.held O.faults O.spare out.old) (input_state I.left I.faults input.old))
        (outside (shelf_state H.files H.loads H.stores shelf.new)
        (sink_state O.held O.faults O.spare out.new) (input_state I.left I.faults input.new))
        result }
    ensures kept { S.is_core → TellsImages IsSourceRun (words_of words.now)
        (outside (shelf_state H.files H.loads H.stores shelf.old)
        (sink_state O.held O.faults O.spare out.old) (input_state I.left I.faults input.old))
        (outside (shelf_state H.files H.loads H.stores shelf.new)
        (sink_state O.held O.faults O.spare out.new) (input_state I.left I.faults input.new))
        result }

    // Each is read by the same words as what stands before a round of that run, and what goes on from there puts the
    // rest of what the whole run puts.
    ensures read { EveryStoredImageIsRead }
    ensures stopped { EveryStopGoesOn }

    // A machine that is served what it took in a complete run does what it did there, where it acted before it took; as
    // each machine did in the plain run.
    ensures alone { PromptRunsAreServed S.work }
    ensures prompt { PlainRunsArePrompt S.work }

    // A core does so over what its machine took in any complete run, whatever the order of events, and keeps its part
    // of the run's table; and the parts of all machines are the table.
    ensures served { S.is_core → CompleteRunsAreServed S.work }
    ensures tables { TablesAreOfChunks }

    // A file stays but under a name that the words let it store under, and the input but for a worker.
    ensures others { KeepsOthers (names_stored (words_of words.now)) (H.files shelf.old)
        (H.files shelf.new) }
    ensures quiet { names_stored (words_of words.now) ≡ []
        → (H.files shelf.new ≡ H.files shelf.old) × (H.stores shelf.new ≡ H.stores shelf.old) }

    // And `record` changes one only where all is done, or a write failed.
    ensures written { records (words_of words.now) ≡ true → (result ≡ Done)
        ⊎ ((result ≡ WriteFault) ⊎ (H.files shelf.new ≡ H.files shelf.old)) }
    ensures input { takes_input (words_of words.now) ≡ false → input.new ≡ input.old }
    ensures loads { H.loads shelf.old ≤ H.loads shelf.new }
{
    order_free_programs();
    images_read_back();
    stored_images_are_read();
    stopped_runs_go_on();
    chosen_runs_are_complete::<S>();
    drawn_links_are_possible::<S>();
    links_are_in_order::<S>();
    worlds_are_in_order::<S>();
    prompt_runs_are_served::<S>();
    core_runs_are_served::<S>();
    choices_are_in_order::<S>();
    match obey::<S, H, I, O>(alloc, words, shelf, input, out) {
        Ok(()) => Status::Done,
        Err(failure) => {
            let _ = write_note(&failure, notes);
            failure.status()
        }
    }
}
