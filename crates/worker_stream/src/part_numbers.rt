// The numbers of a part file, where they are those of a part.
ghost use Rattle.std.specs.Prelude.{◌≡◌, ◌==◌, ◌≤◌, ◌<◌, ◌*◌, ℕ, [], true, if◌then◌else◌, length, map, slice_index, slice_index_or, MatchOption, IfOk};
ghost use Rattle.std.specs.List.{All, flat_map, list_all, range_with_len};
ghost use Rattle.byteorder.specs.Endian.{little_number};
ghost use Rattle.vert_base.specs.declared.limits.TheConstants.{EDGES};
ghost use Rattle.vert_base.specs.Neighbours.{source, target};
ghost use Rattle.vert_base.specs.Position.{Position};
ghost use Rattle.chunk_split.specs.Chunks.{vertices_of};
ghost use Rattle.graph_table.specs.Sides.{key_of};
ghost use Rattle.edge_reader.specs.EdgePairs.{units_of};
ghost use Rattle.symple_face.specs.Parts.{chunk_vertices, lists_of};
ghost use Rattle.worker_stream.specs.Answers.{AreCuts, AreDegrees, AreEdges, Finds, IsFrame, IsPlace};
ghost use Rattle.worker_stream.specs.Degrees.{are_known, is_counted};
ghost use Rattle.worker_stream.specs.Numbers.{IsFrameOf, plain_numbers, plain_sections};
ghost use Rattle.worker_stream.specs.Sections.{end_count};
ghost use Rattle.worker_stream.specs.PartFiles.{IsSound, degree_of_unit, edge_in, file_of, part_in};

use crate::counts::{are_counted, counts};
use crate::fault::PartFault;
use crate::known::are_known;
use crate::numbers::{degrees, edges, ends};
use crate::order::are_edges;
use crate::sections::Sections;
use byteorder::{ByteOrder, LittleEndian};
use chunk_split::Cuts;
use graph_table::Side;
use mirror_table::{Mirrors, known, mirrors_of};
use std::alloc::{AllocError, Global};
use symple_face::Degree;
use vert_base::limits::{EDGES, MACHINES, VERTICES};
use vert_base::{Edge, Place, VertexId};

/// The numbers of a part that stand once, and its chunks.
#[derive(Drop)]
pub(crate) struct Frame {
    pub(crate) at: Place<MACHINES>,
    pub(crate) cuts: Cuts<MACHINES>,
    pub(crate) edges: u32,
    pub(crate) draws: u64,
}

/// The numbers of a part, and the vertices that it shares by its scan and by its push.
#[derive(Drop)]
pub(crate) struct Numbers {
    pub(crate) frame: Frame,
    pub(crate) scan: Vec<Edge>,
    pub(crate) push: Vec<Edge>,
    pub(crate) onward: Mirrors,
    pub(crate) inward: Mirrors,
    pub(crate) degrees: Vec<Degree>,
}

// Machine `m` of `p`, where there is one.
fn place_of(m: u8, p: u8) -> Result<Place<MACHINES>, PartFault>
    ensures { Finds (IsPlace (record { machine = m; machines = p }))
        (λ place. place ≡ record { machine = m; machines = p }) result }
{
    if p < 1 || usize::from(p) > MACHINES {
        return Err(PartFault::Number);
    }
    match Place::new(m, p) {
        Some(place) => Ok(place),
        None => Err(PartFault::Number),
    }
}

// The chunks whose ends stand in bytes, up to the last vertex.
fn cuts_of(alloc: Global, bytes: &[u8], vertices: u32) -> Result<Cuts<MACHINES>, PartFault>
    ensures { let ends = map (little_number 4) (units_of 4 bytes.now) in
        Finds (AreCuts vertices ends) (λ cuts. cuts ≡ ends) result }
{
    let ends = ends(alloc, bytes)?;
    match Cuts::from_ends(&ends) {
        Some(cuts) => {
            if cuts.end(cuts.count() - 1) == vertices && vertices <= VERTICES {
                Ok(cuts)
            } else {
                Err(PartFault::Number)
            }
        }
        None => Err(PartFault::Number),
    }
}

// The edges that stand in bytes, where there are no more than so many, and they are those of a chunk.
fn edges_of(
    alloc: Global,
    bytes: &[u8],
    cuts: &Cuts<MACHINES>,
    machine: u8,
    major: Side,
    minor: Side,
    most: u32,
) -> Result<Vec<Edge>, PartFault>
    requires { machine < length cuts.now }
    ensures { let list = map edge_in (units_of 12 bytes.now) in
        Finds (AreEdges cuts.now machine (key_of major) (key_of minor) most list)
        (λ edges. edges.items ≡ list) result }
{
    let list = edges(alloc, bytes)?;
    if list.len() <= most as usize && are_edges(cuts, machine, &list, major, minor) {
        Ok(list)
    } else {
        Err(PartFault::Number)
    }
}

// Whether the degrees are those of the chunk's vertices and of the lists.
fn has_known(
    alloc: Global,
    degrees: &[Degree],
    cuts: &Cuts<MACHINES>,
    machine: u8,
    lists: &[Vec<VertexId>],
) -> Result<bool, AllocError>
    requires { length lists.now ≡ length cuts.now }
    ensures { IfOk result (λ answer. answer ≡ are_known degrees.now
        (flat_map (λ k. if k == machine then chunk_vertices cuts.now k
        else slice_index_or (lists_of lists.now) k []) (range_with_len 0 (length cuts.now)))) }
{
    let known = known(alloc, cuts, machine, lists)?;
    Ok(are_known(degrees, &known))
}

// Whether the degrees of the chunk's vertices count its edges.
fn has_counts(
    alloc: Global,
    degrees: &[Degree],
    cuts: &Cuts<MACHINES>,
    machine: u8,
    scan: &[Edge],
    push: &[Edge],
) -> Result<bool, AllocError>
    requires machine { machine < length cuts.now }
    requires few_scan { length scan.now ≤ EDGES }
    requires few_push { length push.now ≤ EDGES }
    requires sources { All (λ e. source e < vertices_of cuts.now) scan.now }
    requires targets { All (λ e. target e < vertices_of cuts.now) push.now }
    ensures { IfOk result (λ answer.
        answer ≡ list_all (is_counted cuts.now machine push.now scan.now) degrees.now) }
{
    let vertices = cuts.end(cuts.count() - 1);
    let ins = counts(alloc, push, vertices, Side::Target)?;
    let outs = counts(alloc, scan, vertices, Side::Source)?;
    Ok(are_counted(degrees, cuts, machine, &ins, &outs))
}

// The degrees that stand in bytes, where they are those of the chunk's vertices and of the lists, and those
// of the chunk count its edges.
fn degrees_of(
    alloc: Global,
    bytes: &[u8],
    cuts: &Cuts<MACHINES>,
    machine: u8,
    lists: &[Vec<VertexId>],
    scan: &[Edge],
    push: &[Edge],
) -> Result<Vec<Degree>, PartFault>
    requires lists { length lists.now ≡ length cuts.now }
    requires machine { machine < length cuts.now }
    requires few_scan { length scan.now ≤ EDGES }
    requires few_push { length push.now ≤ EDGES }
    requires sources { All (λ e. source e < vertices_of cuts.now) scan.now }
    requires targets { All (λ e. target e < vertices_of cuts.now) push.now }
    ensures { let list = map degree_of_unit (units_of 12 bytes.now) in
        Finds (AreDegrees cuts.now machine (lists_of lists.now) scan.now push.now list)
        (λ degrees. degrees.items ≡ list) result }
{
    let list = degrees(alloc, bytes)?;
    if has_known(alloc, &list, cuts, machine, lists)?
        && has_counts(alloc, &list, cuts, machine, scan, push)?
    {
        Ok(list)
    } else {
        Err(PartFault::Number)
    }
}

// The numbers that stand once.
fn frame_of(alloc: Global, sections: &Sections) -> Result<Frame, PartFault>
    requires head { length sections.now.head.now ≡ 22 }
    requires ends { length sections.now.ends.now ≡ 4 * end_count sections.now.head.now }
    ensures frame { let f = file_of (plain_sections sections.now) in
        Finds (IsFrame f) (IsFrameOf f) result }
    ensures count { IfOk result (λ frame. frame.at.machines ≡ length frame.cuts) }
{
    let head = sections.head;
    let at = place_of(head[4], head[5])?;
    let edges = LittleEndian::read_u32(&head[18..]);
    if edges > EDGES {
        return Err(PartFault::Number);
    }
    let cuts = cuts_of(alloc, sections.ends, LittleEndian::read_u32(&head[14..]))?;
    Ok(Frame {
        at,
        cuts,
        edges,
        draws: LittleEndian::read_u64(&head[6..]),
    })
}

/// The numbers of a part file, where they are those of a part.
pub(crate) fn numbers_of(alloc: Global, sections: &Sections) -> Result<Numbers, PartFault>
    requires head { length sections.now.head.now ≡ 22 }
    requires ends { length sections.now.ends.now ≡ 4 * end_count sections.now.head.now }
    ensures { let f = file_of (plain_sections sections.now) in
        Finds (IsSound f) (λ n. plain_numbers n ≡ part_in f) result }
{
    let frame = frame_of(alloc, sections)?;
    let cuts = &frame.cuts;
    let m = frame.at.number();
    let edges = frame.edges;
    let scan = edges_of(
        alloc,
        sections.scan,
        cuts,
        m,
        Side::Target,
        Side::Source,
        edges,
    )?;
    let push = edges_of(
        alloc,
        sections.push,
        cuts,
        m,
        Side::Source,
        Side::Target,
        edges,
    )?;
    let onward = mirrors_of(alloc, cuts, m, &scan, Side::Target)?;
    let inward = mirrors_of(alloc, cuts, m, &push, Side::Source)?;
    let degrees = degrees_of(
        alloc,
        sections.degrees,
        cuts,
        m,
        &onward.refresh,
        &scan,
        &push,
    )?;
    Ok(Numbers {
        frame,
        scan,
        push,
        onward,
        inward,
        degrees,
    })
}
