//! The machines of a case, and what they tell.
ghost use Rattle.std.specs.Prelude.{◌≡◌, ◌<◌, ◌≤◌, false, true, length, map, IfOk};
ghost use Rattle.std.specs.List.{All};
ghost use Rattle.chunk_split.specs.Chunks.{vertices_of};
ghost use Rattle.circulant_plan.specs.Ring.{lies_in};
ghost use Rattle.symple_face.specs.Cluster.{IsOneRun};
ghost use Rattle.symple_face.specs.PartViews.{plain_of};

use crate::cases::{Case, DRAWS, edges_of, typed_of};
use arrayvec::ArrayVec;
use chunk_split::cuts_of;
use circulant_plan::order;
use cluster_run::Cluster;
use edge_reader::Edges;
use graph_table::Table;
use instrument::{Split, split_of};
use mirror_table::parts;
use plain_run::PlayedRound;
use std::alloc::Global;
use std::process::Abort;
use std::rc::Rc;
use std::test::Fail;
use symple_face::{Part, Site};
use vert_base::limits::MACHINES;
use vert_base::{Row, VertexId, Want};

/// The parts of a graph for so many machines, all with one program.
pub(crate) fn parts_of(
    alloc: Global,
    split: Split,
    edges: Edges,
    machines: u8,
) -> Result<Vec<Part>, Want>
    requires some { 1 ≤ machines }
    requires few { machines ≤ 64 }
    ensures one_run { IfOk result (λ parts. (one : IsOneRun (map plain_of parts.items))
        × (vertices_of one.ends ≡ edges.vertices)) }
    ensures one_split { IfOk result (λ parts. All (λ part. part.split.value ≡ split) parts.items) }
{
    let split = Rc::new(alloc, split)?;
    let table = Table::from_edges(alloc, edges)?;
    let cuts = cuts_of(&table, machines);
    // It says that they rise.
    let _ends = cuts.ends();
    parts(alloc, table, &cuts, &split, DRAWS)
}

fn machines_of<S: Site>(
    alloc: Global,
    split: Split,
    edges: Edges,
    machines: u8,
) -> Result<Cluster<S, MACHINES>, Want>
    requires some { 1 ≤ machines }
    requires few { machines ≤ 64 }
    ensures { IfOk result (λ cluster. cluster.ended ≡ false) }
{
    let parts = parts_of(alloc, split, edges, machines)?;
    Cluster::<S, MACHINES>::start(alloc, parts)
}

/// The machines of a case before any event.
pub(crate) fn started<S: Site>(
    alloc: Global,
    case: &Case,
    machines: u8,
) -> Result<Cluster<S, MACHINES>, Fail>
    ensures { IfOk result (λ cluster. cluster.ended ≡ false) }
{
    if machines < 1 || machines > 64 {
        return Err(Fail::from("not so many machines"));
    }
    let split = split_of(typed_of(alloc, case)?);
    match machines_of::<S>(alloc, split, edges_of(alloc, case)?, machines) {
        Ok(cluster) => Ok(cluster),
        Err(_) => Err(Fail::from("no machines")),
    }
}

/// The vertex of a number.
fn vertex(number: usize) -> Result<VertexId, Fail> {
    match u32::try_from(number) {
        Ok(id) => Ok(VertexId(id)),
        Err(_) => Err(Fail::from("no such vertex")),
    }
}

/// Whether a vertex is an own one of the machine that a part is made for.
fn owns(part: &Part, v: VertexId) -> bool
    ensures { result ≡ true → lies_in part.now.cuts part.now.at.machine v.0 ≡ true }
{
    let machine = part.at.number();
    if machine >= part.cuts.count() {
        return false;
    }
    part.cuts.start(machine) <= v.0 && v.0 < part.cuts.end(machine)
}

/// The row of a vertex, where it is an own one of a machine.
fn own_row<S: Site>(site: &S, v: VertexId) -> Option<Row> {
    let mut row = Row {
        words: ArrayVec::new(),
        active: false,
    };
    if owns(site.part(), v) {
        site.row(v, &mut row);
        Some(row)
    } else {
        None
    }
}

/// The machine of whose own vertices this is one.
pub(crate) fn owner<S: Site>(cluster: &Cluster<S, MACHINES>, v: VertexId) -> Result<u8, Fail>
    ensures { IfOk result (λ m. m < length cluster.now.world.sites) }
{
    for machine in 0..cluster.machines() {
        if owns(cluster.site(machine).part(), v) {
            return Ok(machine);
        }
    }
    Err(Fail::from("no owner"))
}

/// The row of a vertex, as its machine tells it.
pub(crate) fn row_of<S: Site>(cluster: &Cluster<S, MACHINES>, v: VertexId) -> Result<Row, Fail> {
    let machine = owner(cluster, v)?;
    Ok(own_row(cluster.site(machine), v).ok_or("no row")?)
}

/// What is read for a vertex in the round that was judged last is this, in the order of steps.
fn check_reads<S: Site>(
    rt: &impl Abort,
    cluster: &Cluster<S, MACHINES>,
    v: VertexId,
    wanted: &[VertexId],
) -> Result<(), Fail> {
    let machines = cluster.machines();
    let chunk = owner(cluster, v)?;
    let mut left = wanted;
    for step in 0..machines {
        let read = cluster.site(order(chunk, step, machines)).reads(v);
        assert!(rt; left.starts_with(read), "vertex {}", v.0);
        left = left.get(read.len()..).unwrap_or(&[]);
    }
    assert!(rt; left.is_empty(), "vertex {}", v.0);
    Ok(())
}

/// The round that was judged last is this one.
pub(crate) fn check_round<S: Site>(
    rt: &impl Abort,
    cluster: &Cluster<S, MACHINES>,
    wanted: &PlayedRound,
) -> Result<(), Fail> {
    if cluster.machines() == 0 {
        return Err(Fail::from("no machines"));
    }
    let report = cluster.site(0).report();
    assert_eq!(rt; report.round, wanted.round);
    assert_eq!(rt; report.ruling, wanted.ruling);
    assert_eq!(rt; report.active, wanted.active);
    assert_eq!(rt; report.edges, wanted.edges);
    assert_eq!(rt; report.reads, wanted.read);
    for (v, reads) in wanted.reads.iter().enumerate() {
        check_reads(rt, cluster, vertex(v)?, reads)?;
    }
    Ok(())
}

/// The rows of the machines are these, but for a word that stands in the place of each first one.
pub(crate) fn check_rows<S: Site>(
    rt: &impl Abort,
    cluster: &Cluster<S, MACHINES>,
    wanted: &[Row],
    lie: Option<i64>,
) -> Result<(), Fail> {
    for (v, wanted) in wanted.iter().enumerate() {
        let row = row_of(cluster, vertex(v)?)?;
        assert_eq!(rt; row.active, wanted.active, "vertex {v}");
        let words = row.words.as_slice();
        let wanted = wanted.words.as_slice();
        assert_eq!(rt; words.get(1..), wanted.get(1..), "vertex {v}");
        let first = match lie {
            Some(word) => Some(word),
            None => wanted.first().copied(),
        };
        assert_eq!(rt; words.first().copied(), first, "vertex {v}");
    }
    Ok(())
}
