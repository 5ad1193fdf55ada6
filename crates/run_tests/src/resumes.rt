//! Machines that begin at a later round: at each round that follows another one, from its image.
ghost use Rattle.std.specs.Prelude.{◌≡◌, ◌≤◌, false, IfOk};
ghost use Rattle.chunk_split.specs.Chunks.{vertices_of};
ghost use Rattle.symple_face.specs.Parts.{PlainPart};
ghost use Rattle.symple_face.specs.Restarts.{IsStart};
ghost use Rattle.symple_face.specs.Work.{plain_start};

use crate::cases::{Case, case_of, edges_of, plain_run_of, typed_of};
use crate::machines::{check_rows, parts_of, row_of, started};
use crate::orders::{EVENTS, Order, judges, play, play_out};
use crate::runs::CASES;
use check_point::{images_read_back, read_image, write_image};
use cluster_run::Cluster;
use delivery_log::plain;
use edge_reader::Edges;
use instrument::{Split, split_of};
use machine_core::Core;
use plain_run::PlainRun;
use std::alloc::Global;
use std::process::Abort;
use std::test::Fail;
use symple_face::{Restart, Start};
use vert_base::limits::MACHINES;
use vert_base::{Ruling, VertexId, Want};

/// The key of the images, which is that of no run.
static KEY: [u8; 32] = [7; 32];

/// The start of the round of which machine 0 tells, if it does.
fn ahead_of<S: Restart>(
    alloc: Global,
    cluster: &Cluster<S, MACHINES>,
    vertices: u32,
) -> Result<Option<Start>, Fail> {
    if cluster.machines() == 0 {
        return Ok(None);
    }
    let Some(ahead) = cluster.site(0).ahead() else {
        return Ok(None);
    };
    let mut rows = Vec::new(alloc);
    for v in 0..vertices {
        rows.push(row_of(cluster, VertexId(v))?)?;
    }
    Ok(Some(Start {
        round: ahead.round,
        ruling: ahead.ruling,
        active: ahead.active,
        edges: ahead.edges,
        rows,
        totals: Vec::from_slice(alloc, ahead.totals.as_slice())?,
    }))
}

/// The start that the image of a start tells, which is as it was.
fn read_again(
    rt: &impl Abort,
    alloc: Global,
    split: &Split,
    vertices: u32,
    start: &Start,
) -> Result<Start, Fail>
    ensures { IfOk result (λ start. (whole : PlainPart) → vertices_of whole.ends ≡ vertices
        → IsStart whole split.now (plain_start start)) }
{
    images_read_back();
    if start.round < 1 || start.ruling == Ruling::Stop || start.rows.as_slice().len() > 1000 {
        return Err(Fail::from("no start"));
    }
    let Ok(bytes) = write_image(alloc, &KEY, start) else {
        return Err(Fail::from("no image"));
    };
    match read_image(alloc, &bytes, &KEY, split, vertices) {
        Ok(read) => {
            let first = format!(in alloc; "{start:?}")?;
            let again = format!(in alloc; "{read:?}")?;
            assert_eq!(rt; again.as_str(), first.as_str());
            Ok(read)
        }
        Err(_) => Err(Fail::from("another image")),
    }
}

/// The machines of a graph at a start.
fn machines_at<S: Restart>(
    alloc: Global,
    split: Split,
    edges: Edges,
    machines: u8,
    start: &Start,
) -> Result<Cluster<S, MACHINES>, Want>
    requires some { 1 ≤ machines }
    requires few { machines ≤ 64 }
    requires ready { (whole : PlainPart) → vertices_of whole.ends ≡ edges.vertices
        → IsStart whole split (plain_start start.now) }
    ensures { IfOk result (λ cluster. cluster.ended ≡ false) }
{
    let parts = parts_of(alloc, split, edges, machines)?;
    Cluster::<S, MACHINES>::resume(alloc, parts, start)
}

/// The machines of a case at a start.
fn resumed<S: Restart>(
    rt: &impl Abort,
    alloc: Global,
    case: &Case,
    machines: u8,
    start: &Start,
) -> Result<Cluster<S, MACHINES>, Fail>
    ensures { IfOk result (λ cluster. cluster.ended ≡ false) }
{
    if machines < 1 || machines > 64 {
        return Err(Fail::from("not so many machines"));
    }
    let split = split_of(typed_of(alloc, case)?);
    let edges = edges_of(alloc, case)?;
    let start = read_again(rt, alloc, &split, edges.vertices, start)?;
    match machines_at::<S>(alloc, split, edges, machines, &start) {
        Ok(cluster) => Ok(cluster),
        Err(_) => Err(Fail::from("no machines")),
    }
}

/// Machines that begin at the round of which these tell, if they do: whether there are such.
fn check_ahead(
    rt: &impl Abort,
    alloc: Global,
    case: &Case,
    cluster: &Cluster<Core, MACHINES>,
    wanted: &PlainRun,
) -> Result<bool, Fail> {
    let machines = cluster.machines();
    let vertices = u32::try_from(wanted.rows.len())?;
    let Some(start) = ahead_of(alloc, cluster, vertices)? else {
        return Ok(false);
    };
    let mut cluster = resumed::<Core>(rt, alloc, case, machines, &start)?;
    let first = start.round.saturating_sub(1) as usize;
    let _events = play_out(rt, alloc, &mut cluster, Order::Drawn, wanted, first)?;
    check_rows(rt, &cluster, &wanted.rows, None)?;
    Ok(true)
}

/// Each round but the first one of a case.
fn check_rounds(rt: &impl Abort, alloc: Global, case: &Case, machines: u8) -> Result<(), Fail> {
    let wanted = plain_run_of(alloc, case, machines)?;
    let mut cluster = started::<Core>(alloc, case, machines)?;
    let mut rounds = 1usize;
    'events: for _ in 0..EVENTS {
        let Some(event) = plain(&cluster) else {
            assert_eq!(rt; rounds, wanted.rounds.len().max(1));
            return Ok(());
        };
        let judged = judges(&cluster, &event);
        play(&mut cluster, &event)?;
        if judged && check_ahead(rt, alloc, case, &cluster, &wanted)? {
            rounds = rounds.saturating_add(1);
        }
    }
    Err(Fail::from("no end"))
}

#[test]
fn machines_that_begin_later(rt: HostRuntime) -> Result<(), Fail> {
    let alloc = rt.alloc();
    for line in CASES.lines() {
        let case = case_of(alloc, line)?;
        for machines in [1, 2, 16] {
            check_rounds(&rt, alloc, &case, machines)?;
        }
    }
    Ok(())
}
