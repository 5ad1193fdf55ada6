ghost use Rattle.std.specs.Prelude.{◌≡◌, ◌≤◌, ◌++◌, length, OnOk};
ghost use Rattle.std.specs.Option.{ForSome};
ghost use Rattle.edge_reader.specs.EdgeList.{bound_of};
ghost use Rattle.vert_base.specs.Neighbours.{AreBelow};
ghost use Rattle.edge_reader.specs.EdgeText.{code_of, edges_of, limit_of, vertices_of};

use crate::entry::Entry;
use std::alloc::AllocError;
use vert_base::Edge;
use vert_base::limits::{EDGES, VERTICES};

/// The least code that refuses an entry after so many edges, where one does.
pub fn refusal(entry: Entry, count: usize, vertices: Option<u32>, both: bool) -> Option<u8>
    requires { count ≤ EDGES }
    ensures { result ≡ code_of vertices both count entry }
{
    match entry {
        Entry::Skipped => None,
        Entry::Malformed => Some(1),
        Entry::TooLarge => Some(2),
        Entry::Read(edge) => {
            let limit = vertices.unwrap_or(VERTICES);
            if edge.from.0 >= limit || edge.to.0 >= limit {
                return match vertices {
                    Some(_) => Some(3),
                    None => Some(4),
                };
            }
            let added = if both { 2 } else { 1 };
            if count + added > EDGES as usize {
                return Some(5);
            }
            None
        }
    }
}

/// Adds the edges of an entry.
pub fn add(list: &mut Vec<Edge>, entry: Entry, both: bool) -> Result<(), AllocError>
    ensures { OnOk result (list.new.items ≡ list.old.items ++ edges_of both entry) }
{
    if let Entry::Read(edge) = entry {
        list.push(edge)?;
        if both {
            list.push(Edge {
                from: edge.to,
                to: edge.from,
                weight: edge.weight,
            })?;
        }
    }
    Ok(())
}

/// The greatest id plus 1, or 0 where there is no edge.
fn bound(edges: &[Edge]) -> u32
    requires { AreBelow VERTICES edges.now }
    ensures value { result ≡ bound_of edges.now }
    ensures within { result ≤ VERTICES }
{
    let mut bound = 0u32;
    for edge in edges {
        bound = bound.max(edge.from.0 + 1).max(edge.to.0 + 1);
    }
    bound
}

/// How many vertices there are.
pub fn vertex_count(edges: &[Edge], vertices: Option<u32>) -> u32
    requires below { AreBelow (limit_of vertices) edges.now }
    requires given { ForSome vertices (λ n. n ≤ VERTICES) }
    ensures value { result ≡ vertices_of vertices edges.now }
    ensures below { AreBelow result edges.now }
    ensures within { result ≤ VERTICES }
{
    match vertices {
        Some(n) => n,
        None => bound(edges),
    }
}
