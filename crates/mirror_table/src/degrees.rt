// The degrees that a machine knows.
ghost use Rattle.std.specs.Prelude.{◌≡◌, ℕ, ◌==◌, ◌<◌, ◌≤◌, ◌-◌, ◌++◌, [], if◌then◌else◌, length, map, slice_index_or, IfOk, OnOk};
ghost use Rattle.std.specs.List.{All, flat_map, range_with_len};
ghost use Rattle.chunk_split.specs.Chunks.{vertices_of};
ghost use Rattle.symple_face.specs.declared.degree.Degree.{Degree};
ghost use Rattle.symple_face.specs.Parts.{chunk_vertices, degree_in, lists_of};

use chunk_split::Cuts;
use graph_table::Table;
use std::alloc::{AllocError, Global};
use symple_face::Degree;
use vert_base::VertexId;
use vert_base::limits::MACHINES;

// Adds the vertices from `start` to `end`.
fn push_range(list: &mut Vec<VertexId>, start: u32, end: u32) -> Result<(), AllocError>
    requires { start ≤ end }
    ensures { OnOk result (map (λ v. v.0) list.new.items ≡ map (λ v. v.0) list.old.items
        ++ range_with_len start (end - start)) }
{
    for v in start..end {
        list.push(VertexId(v))?;
    }
    Ok(())
}

// Adds all vertices of a chunk, or those of a list.
fn push_known(
    list: &mut Vec<VertexId>,
    cuts: &Cuts<MACHINES>,
    chunk: u8,
    own: bool,
    others: &[VertexId],
) -> Result<(), AllocError>
    requires { chunk < length cuts.now }
    ensures { OnOk result (map (λ v. v.0) list.new.items ≡ map (λ v. v.0) list.old.items
        ++ (if own then chunk_vertices cuts.now chunk else map (λ v. v.0) others.now)) }
{
    if own {
        push_range(list, cuts.start(chunk), cuts.end(chunk))
    } else {
        list.extend_from_slice(others)
    }
}

/// The vertices of chunk `m` and those of the lists of the other chunks, chunk by chunk.
pub fn known(
    alloc: Global,
    cuts: &Cuts<MACHINES>,
    m: u8,
    lists: &[Vec<VertexId>],
) -> Result<Vec<VertexId>, AllocError>
    requires { length lists.now ≡ length cuts.now }
    ensures { IfOk result (λ list. map (λ v. v.0) list.items
        ≡ flat_map (λ k. if k == m then chunk_vertices cuts.now k
        else slice_index_or (lists_of lists.now) k []) (range_with_len 0 (length cuts.now))) }
{
    let mut list = Vec::new(alloc);
    for k in 0..cuts.count() {
        push_known(&mut list, cuts, k, k == m, &lists[k as usize])?;
    }
    Ok(list)
}

fn degree(table: &Table, v: VertexId) -> Degree
    requires { v.0 < table.now.vertices }
    ensures { result ≡ degree_in table.now.list table.now.list v.0 }
{
    let _within = table.vertices();
    Degree {
        id: v,
        ins: table.indeg(v),
        outs: table.outdeg(v),
    }
}

/// The degrees of all vertices.
pub(crate) fn degrees(alloc: Global, table: &Table) -> Result<Vec<Degree>, AllocError>
    ensures { IfOk result (λ list. list.items
        ≡ map (degree_in table.now.list table.now.list) (range_with_len 0 table.now.vertices)) }
{
    let vertices = table.vertices();
    let mut list = Vec::with_capacity(alloc, vertices as usize)?;
    for v in 0..vertices {
        list.push(degree(table, VertexId(v)))?;
    }
    Ok(list)
}

/// The degrees of some vertices, from those of all.
pub(crate) fn chosen(
    alloc: Global,
    degrees: &[Degree],
    vertices: &[VertexId],
) -> Result<Vec<Degree>, AllocError>
    requires { All (λ v. v.0 < length degrees.now) vertices.now }
    ensures { IfOk result (λ list. (f : ℕ → Degree) →
        degrees.now ≡ map f (range_with_len 0 (length degrees.now)) →
        list.items ≡ map f (map (λ v. v.0) vertices.now)) }
{
    let mut list = Vec::with_capacity(alloc, vertices.len())?;
    for v in vertices {
        list.push(degrees[v.0 as usize])?;
    }
    Ok(list)
}
