// Runs that go on from an image.
ghost use Rattle.std.specs.Prelude.{◌≡◌, ◌≤◌, ℕ, false, List, IfOk, Option, option_map};
ghost use Rattle.command_steps.specs.Commands.{image_name, play_of};
ghost use Rattle.command_steps.specs.Orders.{Origin, Resumed};
ghost use Rattle.command_steps.specs.States.{shelf_state, sink_state};
ghost use Rattle.edge_reader.specs.Gives.{graph_of_edges};
ghost use Rattle.symple_face.specs.Parts.{PlainPart};
ghost use Rattle.symple_face.specs.Work.{PlainStart, plain_start};
ghost use Rattle.symple_run.specs.Continued.{EveryStopGoesOn};
ghost use Rattle.symple_run.specs.KeptImages.{key_for};
ghost use Rattle.symple_run.specs.Resumes.{FindsStart, IsReady, Tells, begun_world, later_of};
ghost use Rattle.machine_runs.specs.RunParts.{IsRunOf};
ghost use Rattle.symple_run.specs.RunWalks.{DoesTask};
ghost use Rattle.symple_run.specs.StoredImages.{EveryStoredImageIsRead};
ghost use Rattle.symple_words.specs.Ranges.{AreMachines};
ghost use Rattle.symple_words.specs.Views.{job_view};
ghost use Rattle.word_kinds.specs.Fits.{IsFitting};

use check_point::{ImageFault, images_read_back, read_image};
use cluster_run::Cluster;
use command_steps::{Failure, numbered_name, try_file};
use edge_reader::Edges;
use instrument::Split;
use machine_runs::{parts_from, play_out, put_table};
use outside::{Shelf, Sink};
use std::alloc::Global;
use symple_face::{Restart, Start};
use symple_words::Job;
use vert_base::Want;
use vert_base::limits::{IMAGE_BYTES, MACHINES};

/// The start that the file of this name and number tells, where it is an image of this run.
pub(crate) fn find_start<H: Shelf>(
    alloc: Global,
    image: &str,
    number: u8,
    key: &[u8; 32],
    split: &Split,
    vertices: u32,
    shelf: &mut H,
) -> Result<Option<Start>, Failure>
    requires { number ≤ 1 }
    ensures found { FindsStart split.now vertices key.now (image_name image.now number)
        (shelf_state H.files H.loads H.stores shelf.old)
        (shelf_state H.files H.loads H.stores shelf.new) result }
    ensures later { H.loads shelf.old ≤ H.loads shelf.new }
{
    images_read_back();
    let name = numbered_name(alloc, image, number)?;
    let Some(bytes) = try_file(alloc, shelf, &name, IMAGE_BYTES)? else {
        return Ok(None);
    };
    match read_image(alloc, &bytes, key, split, vertices) {
        Ok(start) => Ok(Some(start)),
        Err(ImageFault::Torn) => Ok(None),
        Err(ImageFault::Other) => Ok(None),
        Err(ImageFault::Want) => Err(Failure::Memory),
    }
}

/// Of two starts that of the greater round, and the second where they are equal.
pub(crate) fn later_of(even: Option<Start>, odd: Option<Start>) -> Option<Start>
    ensures { option_map plain_start result
        ≡ later_of (option_map plain_start even) (option_map plain_start odd) }
{
    match (even, odd) {
        (None, odd) => odd,
        (Some(even), None) => Some(even),
        (Some(even), Some(odd)) => {
            if odd.round < even.round {
                Some(even)
            } else {
                Some(odd)
            }
        }
    }
}

/// Machines of a kind at a start, or before any event where there is none.
fn begun<S: Restart>(
    alloc: Global,
    split: Split,
    edges: Edges,
    machines: u8,
    draws: u64,
    start: Option<Start>,
) -> Result<Cluster<S, MACHINES>, Want>
    requires few { AreMachines machines }
    requires ready { IsReady split edges.vertices start }
    ensures world { IfOk result (λ cluster. (parts : List PlainPart)
        × IsRunOf machines draws (graph_of_edges edges) parts
        × (cluster.world ≡ begun_world S.work split parts (option_map plain_start start))) }
    ensures on { IfOk result (λ cluster. cluster.ended ≡ false) }
{
    let parts = parts_from(alloc, split, edges, machines, draws)?;
    match start {
        None => Cluster::<S, MACHINES>::start(alloc, parts),
        Some(start) => Cluster::<S, MACHINES>::resume(alloc, parts, &start),
    }
}

/// Runs machines on the graph from a start on, and puts what is asked for of the rounds as they are judged,
/// and then the table.
pub(crate) fn play_resumed<S: Restart, O: Sink>(
    alloc: Global,
    job: &Job,
    machines: u8,
    split: Split,
    edges: Edges,
    start: Option<Start>,
    out: &mut O,
) -> Result<(), Failure>
    requires few { AreMachines machines }
    requires fits { IsFitting split.program.program }
    requires ready { IsReady split edges.vertices start }
    ensures { let play = play_of (job_view job.now) machines split.program.program
        (graph_of_edges edges) in
        (origin : Origin) → (even odd : Option (List ℕ)) → (first second : Option PlainStart)
        → Tells split edges.vertices (key_for play origin) even first
        → Tells split edges.vertices (key_for play origin) odd second
        → option_map plain_start start ≡ later_of first second
        → DoesTask S.work (Resumed play origin even odd)
        (sink_state O.held O.faults O.spare out.old)
        (sink_state O.held O.faults O.spare out.new) result }
{
    let mut cluster = begun::<S>(alloc, split, edges, machines, job.draws, start)?;
    play_out(&mut cluster, &job.lines, out)?;
    put_table(&cluster, out)?;
    Ok(())
}

/// The law that a run which was stopped and is gone on with puts the rest of what the whole run puts, where each
/// of its files that is an image at all is one of this run. It does nothing.
pub(crate) fn stopped_runs_go_on()
    ensures { EveryStopGoesOn }
{}

/// The law that each image which a run stores is read as what stands before one of its rounds. It does nothing.
pub(crate) fn stored_images_are_read()
    ensures { EveryStoredImageIsRead }
{
    images_read_back();
}
