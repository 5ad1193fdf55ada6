// The edges that each machine works on.
ghost use Rattle.std.specs.Prelude.{◌≡◌, ◌<◌, ℕ, [], ◌∷◌, length, map, slice_index, slice_index_or, slice_set, IfOk, vec_len};
ghost use Rattle.std.specs.List.{All, filter, range_with_len};
ghost use Rattle.vert_base.specs.Neighbours.{source, target};
ghost use Rattle.chunk_split.specs.Chunks.{Holds, vertices_of};
ghost use Rattle.circulant_plan.specs.Ring.{lies_in};
ghost use Rattle.graph_table.specs.Sides.{key_of};

use chunk_split::Cuts;
use graph_table::{Lists, Side, end_of};
use std::alloc::{AllocError, Global};
use std::mem;
use vert_base::limits::MACHINES;
use vert_base::{Edge, VertexId};

/// The edges that each machine works on, in order of the machines.
#[derive(Drop)]
pub(crate) struct Shares {
    /// Those from its chunk.
    pub(crate) scans: Vec<Vec<Edge>>,
    /// Those into its chunk.
    pub(crate) pushes: Vec<Vec<Edge>>,
}

// The machine that owns each vertex.
fn owners(alloc: Global, cuts: &Cuts<MACHINES>) -> Result<Vec<u8>, AllocError>
    ensures len { IfOk result (λ owners. vec_len owners ≡ vertices_of cuts.now) }
    ensures holds { IfOk result (λ owners. (v : ℕ) → v < vertices_of cuts.now →
        Holds cuts.now v (slice_index owners.items v)) }
{
    let vertices = cuts.end(cuts.count() - 1);
    let mut owners = Vec::with_capacity(alloc, vertices as usize)?;
    for v in 0..vertices {
        owners.push(cuts.owner(VertexId(v)))?;
    }
    Ok(owners)
}

// Lists for so many machines, with nothing in them.
fn empty_lists(alloc: Global, machines: u8) -> Result<Vec<Vec<Edge>>, AllocError>
    ensures { IfOk result (λ lists.
        map (λ l. l.items) lists.items ≡ map (λ _. []) (range_with_len 0 machines)) }
{
    let mut lists = Vec::with_capacity(alloc, machines as usize)?;
    for _machine in 0..machines {
        lists.push(Vec::new(alloc))?;
    }
    Ok(lists)
}

// The edges of each chunk, those whose vertex at this end lies in it, as they stand.
fn dealt(
    alloc: Global,
    edges: &[Edge],
    cuts: &Cuts<MACHINES>,
    owners: &[u8],
    side: Side,
) -> Result<Vec<Vec<Edge>>, AllocError>
    requires len { length owners.now ≡ vertices_of cuts.now }
    requires holds { (v : ℕ) → v < vertices_of cuts.now →
        Holds cuts.now v (slice_index owners.now v) }
    requires below { All (λ e. key_of side e < vertices_of cuts.now) edges.now }
    ensures { IfOk result (λ lists.
        map (λ l. l.items) lists.items
        ≡ map (λ m. filter (λ e. lies_in cuts.now m (key_of side e)) edges.now)
        (range_with_len 0 (length cuts.now))) }
{
    let _ends = cuts.ends();
    let mut lists = empty_lists(alloc, cuts.count())?;
    for edge in edges {
        let owner = owners[end_of(side, edge) as usize];
        lists[owner as usize].push(*edge)?;
    }
    Ok(lists)
}

// The list of the one machine that there is.
fn whole(alloc: Global, edges: Vec<Edge>) -> Result<Vec<Vec<Edge>>, AllocError>
    ensures { IfOk result (λ lists. map (λ l. l.items) lists.items ≡ edges.items ∷ []) }
{
    let mut lists = Vec::with_capacity(alloc, 1)?;
    lists.push(edges)?;
    Ok(lists)
}

/// What each machine works on. One machine takes the lists over.
pub(crate) fn deal(alloc: Global, lists: Lists, cuts: &Cuts<MACHINES>) -> Result<Shares, AllocError>
    requires sources { All (λ e. source e < vertices_of cuts.now) lists.ins.items }
    requires targets { All (λ e. target e < vertices_of cuts.now) lists.outs.items }
    ensures scans { IfOk result (λ shares. map (λ l. l.items) shares.scans.items
        ≡ map (λ m. filter (λ e. lies_in cuts.now m (source e)) lists.ins.items)
        (range_with_len 0 (length cuts.now))) }
    ensures pushes { IfOk result (λ shares. map (λ l. l.items) shares.pushes.items
        ≡ map (λ m. filter (λ e. lies_in cuts.now m (target e)) lists.outs.items)
        (range_with_len 0 (length cuts.now))) }
{
    if cuts.count() == 1 {
        return Ok(Shares {
            scans: whole(alloc, lists.ins)?,
            pushes: whole(alloc, lists.outs)?,
        });
    }
    let owners = owners(alloc, cuts)?;
    let scans = dealt(alloc, &lists.ins, cuts, &owners, Side::Source)?;
    drop(lists.ins);
    let pushes = dealt(alloc, &lists.outs, cuts, &owners, Side::Target)?;
    Ok(Shares { scans, pushes })
}

/// Takes the list of machine `m` out.
pub(crate) fn taken(alloc: Global, lists: &mut Vec<Vec<Edge>>, m: u8) -> Vec<Edge>
    requires { m < vec_len lists.old }
    ensures list { result.items ≡ slice_index_or (map (λ l. l.items) lists.old.items) m [] }
    ensures others { map (λ l. l.items) lists.new.items
        ≡ slice_set (map (λ l. l.items) lists.old.items) m [] }
{
    mem::replace(&mut lists[m as usize], Vec::new(alloc))
}
