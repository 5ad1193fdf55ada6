ghost use Rattle.std.specs.Prelude.{◌≡◌, ◌≤◌, ◌<◌, ℕ, List, length, map, IfOk};
ghost use Rattle.std.specs.List.{All};
ghost use Rattle.vert_base.specs.declared.graph.Edge.{Edge};
ghost use Rattle.vert_base.specs.Neighbours.{AreBelow};
ghost use Rattle.graph_table.specs.Tables.{IsTableOf};
ghost use Rattle.chunk_split.specs.Chunks.{vertices_of};
ghost use Rattle.symple_face.specs.PartViews.{plain_of};
ghost use Rattle.symple_face.specs.PartsOf.{part_of, parts_of};
ghost use Rattle.mirror_table.specs.Shares.{IsShare};
ghost use Rattle.mirror_table.specs.Weights.{HasWeights};

use crate::degrees::{chosen, degrees, known};
use crate::edges::{deal, taken};
use crate::lists::mirrors_of;
use chunk_split::Cuts;
use graph_table::{Side, Table};
use instrument::Split;
use std::alloc::{AllocError, Global};
use std::rc::Rc;
use symple_face::{Degree, Part};
use vert_base::limits::MACHINES;
use vert_base::{Edge, Place, Want};
use word_kinds::edges_have_weights;

fn place(m: u8, machines: u8) -> Place<MACHINES>
    requires machine { m < machines }
    requires few { machines ≤ MACHINES }
    ensures machine { result.machine ≡ m }
    ensures machines { result.machines ≡ machines }
{
    match Place::new(m, machines) {
        Some(place) => place,
        None => unreachable!(),
    }
}

fn same(cuts: &Cuts<MACHINES>) -> Cuts<MACHINES>
    ensures { result ≡ cuts.now }
{
    match Cuts::from_ends(cuts.ends()) {
        Some(same) => same,
        None => unreachable!(),
    }
}

// The edges that a machine works on.
#[derive(Drop)]
struct Share {
    machine: u8,
    scan: Vec<Edge>,
    push: Vec<Edge>,
}

// The part of a machine, given how many edges the graph has and the degrees of all vertices.
fn part(
    alloc: Global,
    cuts: &Cuts<MACHINES>,
    split: &Rc<Split>,
    draws: u64,
    edges: u32,
    degrees: &[Degree],
    share: Share,
) -> Result<Part, AllocError>
    requires machine { share.machine < length cuts.now }
    requires graph { (list : List Edge) ×
        IsShare cuts.now list edges degrees.now share.machine share.scan.items share.push.items }
    ensures part { IfOk result (λ part. (list : List Edge) →
        IsShare cuts.now list edges degrees.now share.machine share.scan.items share.push.items →
        plain_of part ≡ part_of cuts.now draws list share.machine) }
    ensures split { IfOk result (λ part. part.split.value ≡ split.now.value) }
{
    let _ends = cuts.ends();
    let onward = mirrors_of(alloc, cuts, share.machine, &share.scan, Side::Target)?;
    let inward = mirrors_of(alloc, cuts, share.machine, &share.push, Side::Source)?;
    let known = known(alloc, cuts, share.machine, &onward.refresh)?;
    let degrees = chosen(alloc, degrees, &known)?;
    Ok(Part {
        at: place(share.machine, cuts.count()),
        cuts: same(cuts),
        edges,
        draws,
        split: split.clone()?,
        scan: share.scan,
        push: share.push,
        degrees,
        refresh_to: inward.refresh,
        refresh_of: onward.refresh,
        push_to: onward.push,
        push_of: inward.push,
    })
}

/// The parts of all machines, in order, in a graph that is cut so. The table's lists are given up as soon
/// as the machines have theirs, and one machine takes them over.
pub fn parts(
    alloc: Global,
    table: Table,
    cuts: &Cuts<MACHINES>,
    split: &Rc<Split>,
    draws: u64,
) -> Result<Vec<Part>, Want>
    requires { vertices_of cuts.now ≡ table.vertices }
    ensures parts { IfOk result (λ parts.
        map plain_of parts.items ≡ parts_of cuts.now draws table.list) }
    ensures split { IfOk result (λ parts.
        All (λ part. part.split.value ≡ split.now.value) parts.items) }
    ensures graph { IfOk result (λ parts. (n : ℕ) (edges : List Edge) → IsTableOf n edges table →
        AreBelow n edges → map plain_of parts.items ≡ parts_of cuts.now draws edges) }
    ensures weights { IfOk result (λ _. HasWeights table) }
{
    let _ends = cuts.ends();
    let _vertices = table.vertices();
    let edges = table.edges();
    let degrees = degrees(alloc, &table)?;
    let lists = table.into_lists();
    // An `i32` is read of each edge, which says that it fits 32 bits, and nothing else is done.
    edges_have_weights(&lists.ins);
    let mut shares = deal(alloc, lists, cuts)?;
    let mut parts = Vec::with_capacity(alloc, cuts.count() as usize)?;
    for m in 0..cuts.count() {
        let share = Share {
            machine: m,
            scan: taken(alloc, &mut shares.scans, m),
            push: taken(alloc, &mut shares.pushes, m),
        };
        parts.push(part(alloc, cuts, split, draws, edges, &degrees, share)?)?;
    }
    Ok(parts)
}
