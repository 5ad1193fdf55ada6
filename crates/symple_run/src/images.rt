// Runs that leave images.
ghost use Rattle.std.specs.Prelude.{◌≡◌, ◌<◌, ◌≤◌, false, true, if◌then◌else◌, length, map, IfErr, IfOk, OnOk, None, Some};
ghost use Rattle.command_steps.specs.Commands.{play_of};
ghost use Rattle.command_steps.specs.Orders.{Imaged, Origin};
ghost use Rattle.command_steps.specs.Faults.{fault_of};
ghost use Rattle.command_steps.specs.States.{shelf_state, sink_state};
ghost use Rattle.schedule_laws.specs.Layout.{row_in, vertices_in};
ghost use Rattle.schedule_laws.specs.Starts.{start_told, start_with};
ghost use Rattle.symple_face.specs.Cluster.{finished};
ghost use Rattle.symple_face.specs.Work.{plain_ahead, plain_start};
ghost use Rattle.edge_reader.specs.Gives.{graph_of_edges};
ghost use Rattle.symple_run.specs.KeptImages.{CanBeKept, KeepsImage, LeadsOnImaged, LeavesImages, flags_of, key_for};
ghost use Rattle.symple_run.specs.RunWalks.{DoesStoring, GivesKeyed};
ghost use Rattle.symple_words.specs.Ranges.{AreMachines, IsGraphForm};
ghost use Rattle.symple_words.specs.Views.{job_view};

use arrayvec::ArrayVec;
use check_point::{key, write_image};
use cluster_run::{Cluster, choices_are_in_order};
use command_steps::{Failure, Sources, load_sources, numbered_name, store_file};
use delivery_log::plain;
use edge_reader::Edges;
use machine_runs::{ends_round, play_event, put_table, started, vertices};
use outside::{Shelf, Sink};
use std::alloc::Global;
use symple_face::{Ahead, Restart, Site, Start};
use symple_words::{GraphForm, Job, Lines};
use vert_base::limits::MACHINES;
use vert_base::{Row, Ruling, VertexId, Want};
use vert_tree::Typed;

/// What the two files of a run say, and the key of the run.
#[derive(Drop)]
pub(crate) struct Keyed {
    pub(crate) key: [u8; 32],
    pub(crate) typed: Typed,
    pub(crate) edges: Edges,
}

/// Loads and reads the program and the graph of a run, and makes its key of their bytes, which are given up.
pub(crate) fn load_keyed<H: Shelf>(
    alloc: Global,
    job: &Job,
    machines: u8,
    shelf: &mut H,
) -> Result<Keyed, Failure>
    requires { IsGraphForm job.now.form }
    ensures both { GivesKeyed machines (job_view job.now)
        (shelf_state H.files H.loads H.stores shelf.old)
        (shelf_state H.files H.loads H.stores shelf.new) result }
    ensures later { H.loads shelf.old ≤ H.loads shelf.new }
{
    let Sources {
        program,
        graph,
        typed,
        edges,
    } = load_sources(alloc, shelf, &job.program, &job.form, &job.graph)?;
    let flags = flags_of(&job.form);
    let key = key(
        &program,
        &graph,
        job.form.vertices,
        flags,
        machines,
        job.draws,
    );
    Ok(Keyed { key, typed, edges })
}

/// How a graph is read, as a number: 1 with reversals, 2 binary, 4 with weights.
fn flags_of(form: &GraphForm) -> u8
    ensures { result ≡ flags_of form.now }
{
    let both = if form.both { 1 } else { 0 };
    let binary = if form.binary { 2 } else { 0 };
    let weighted = if form.weighted { 4 } else { 0 };
    both + (binary + weighted)
}

/// Runs machines on the graph as a plain run, and stores images behind the rounds.
pub(crate) fn play_imaged<S: Restart, H: Shelf, O: Sink>(
    alloc: Global,
    job: &Job,
    machines: u8,
    image: &str,
    keyed: Keyed,
    shelf: &mut H,
    out: &mut O,
) -> Result<(), Failure>
    requires { AreMachines machines }
    ensures task { let play = play_of (job_view job.now) machines keyed.typed.program
        (graph_of_edges keyed.edges) in
        (origin : Origin) → key_for play origin ≡ keyed.key
        → DoesStoring S.work (Imaged play origin image.now)
        (shelf_state H.files H.loads H.stores shelf.old)
        (shelf_state H.files H.loads H.stores shelf.new)
        (sink_state O.held O.faults O.spare out.old)
        (sink_state O.held O.faults O.spare out.new) result }
    ensures loads { H.loads shelf.new ≡ H.loads shelf.old }
{
    let Keyed { key, typed, edges } = keyed;
    let mut cluster = started::<S>(alloc, typed, edges, machines, job.draws)?;
    play_out_imaged(alloc, &mut cluster, &job.lines, &key, image, shelf, out)?;
    put_table(&cluster, out)?;
    Ok(())
}

/// Plays the plain events up to the end, and stores an image behind the lines of each round that another
/// one follows.
pub(crate) fn play_out_imaged<S: Restart, H: Shelf, O: Sink>(
    alloc: Global,
    cluster: &mut Cluster<S, MACHINES>,
    lines: &Lines,
    key: &[u8; 32],
    image: &str,
    shelf: &mut H,
    out: &mut O,
) -> Result<(), Failure>
    requires on { cluster.old.ended ≡ false }
    ensures on { OnOk result (cluster.new.ended ≡ false) }
    ensures finished { OnOk result (finished cluster.new.world ≡ true) }
    ensures ok { OnOk result (LeadsOnImaged S.work lines.now key.now image.now
        cluster.old.world (shelf_state H.files H.loads H.stores shelf.old)
        (sink_state O.held O.faults O.spare out.old)
        cluster.new.world (shelf_state H.files H.loads H.stores shelf.new)
        (sink_state O.held O.faults O.spare out.new)) }
    ensures err { IfErr result (λ failure. LeavesImages S.work lines.now key.now image.now
        cluster.old.world (shelf_state H.files H.loads H.stores shelf.old)
        (shelf_state H.files H.loads H.stores shelf.new)
        (sink_state O.held O.faults O.spare out.old)
        (sink_state O.held O.faults O.spare out.new) (Some (fault_of failure))) }
    ensures loads { H.loads shelf.new ≡ H.loads shelf.old }
{
    choices_are_in_order::<S>();
    let mut start = blank_start(alloc);
    'events: while let Some(event) = plain(cluster) {
        cluster.tells_reached();
        let judged = ends_round(cluster, &event);
        play_event(cluster, &event, lines, out)?;
        keep_image_if(judged, alloc, cluster, key, image, &mut start, shelf)?;
    }
    Ok(())
}

/// A start whose memory is still to be taken.
fn blank_start(alloc: Global) -> Start {
    Start {
        round: 0,
        ruling: Ruling::Stop,
        active: 0,
        edges: 0,
        rows: Vec::new(alloc),
        totals: Vec::new(alloc),
    }
}

/// Stores the image of the round that was judged, if one was.
fn keep_image_if<S: Restart, H: Shelf>(
    judged: bool,
    alloc: Global,
    cluster: &Cluster<S, MACHINES>,
    key: &[u8; 32],
    image: &str,
    start: &mut Start,
    shelf: &mut H,
) -> Result<(), Failure>
    requires on { cluster.now.ended ≡ false }
    requires told { judged ≡ true → CanBeKept (start_told S.work cluster.now.world) }
    ensures kept { KeepsImage key.now image.now
        (if judged then start_told S.work cluster.now.world else None)
        (shelf_state H.files H.loads H.stores shelf.old)
        (shelf_state H.files H.loads H.stores shelf.new) result }
    ensures loads { H.loads shelf.new ≡ H.loads shelf.old }
{
    if judged {
        keep_image(alloc, cluster, key, image, start, shelf)
    } else {
        Ok(())
    }
}

/// Stores the image of the round that machine 0 has judged, where another one follows. The start is written
/// over, so that the memory of its rows is taken once.
fn keep_image<S: Restart, H: Shelf>(
    alloc: Global,
    cluster: &Cluster<S, MACHINES>,
    key: &[u8; 32],
    image: &str,
    start: &mut Start,
    shelf: &mut H,
) -> Result<(), Failure>
    requires on { cluster.now.ended ≡ false }
    requires told { CanBeKept (start_told S.work cluster.now.world) }
    ensures kept { KeepsImage key.now image.now (start_told S.work cluster.now.world)
        (shelf_state H.files H.loads H.stores shelf.old)
        (shelf_state H.files H.loads H.stores shelf.new) result }
    ensures loads { H.loads shelf.new ≡ H.loads shelf.old }
{
    cluster.tells_reached();
    let Some(ahead) = cluster.site(0).ahead() else {
        return Ok(());
    };
    gather(cluster, &ahead, start)?;
    let bytes = write_image(alloc, key, start)?;
    let number = ((start.round - 1) % 2) as u8;
    let name = numbered_name(alloc, image, number)?;
    store_file(shelf, &name, &bytes)
}

/// Writes what the machines tell of the round ahead over a start.
fn gather<S: Site>(
    cluster: &Cluster<S, MACHINES>,
    ahead: &Ahead,
    start: &mut Start,
) -> Result<(), Want>
    requires on { cluster.now.ended ≡ false }
    ensures { OnOk result (plain_start start.new
        ≡ start_with (map (row_in S.work cluster.now.world) (vertices_in cluster.now.world))
        (plain_ahead ahead.now)) }
{
    start.round = ahead.round;
    start.ruling = ahead.ruling;
    start.active = ahead.active;
    start.edges = ahead.edges;
    start.totals.clear();
    start.totals.extend_from_slice(ahead.totals.as_slice())?;
    gather_rows(cluster, &mut start.rows)
}

/// Writes the row of each vertex over a list of rows.
fn gather_rows<S: Site>(cluster: &Cluster<S, MACHINES>, rows: &mut Vec<Row>) -> Result<(), Want>
    requires on { cluster.now.ended ≡ false }
    ensures { OnOk result (rows.new.items
        ≡ map (row_in S.work cluster.now.world) (vertices_in cluster.now.world)) }
{
    rows.clear();
    'vertices: for v in 0..vertices(cluster) {
        rows.push(row_of(cluster, VertexId(v)))?;
    }
    Ok(())
}

/// The row of a vertex, which the machine of its chunk tells.
fn row_of<S: Site>(cluster: &Cluster<S, MACHINES>, v: VertexId) -> Row
    requires on { cluster.now.ended ≡ false }
    requires there { v.0 < length (vertices_in cluster.now.world) }
    ensures { result ≡ row_in S.work cluster.now.world v.0 }
{
    cluster.tells_reached();
    let mut row = Row {
        words: ArrayVec::new(),
        active: false,
    };
    let part = cluster.site(0).part();
    cluster.site(part.cuts.owner(v)).row(v, &mut row);
    row
}
