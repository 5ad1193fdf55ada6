// Where the edges of each vertex stand in a list of edges in order.
ghost use Rattle.std.specs.Prelude.{◌≡◌, ◌≤◌, ◌<◌, ◌==◌, ◌&&◌, ◌+◌, ℕ, List, length, map, nat_le, nat_lt, take, IfOk};
ghost use Rattle.std.specs.List.{All, filter, prefix_len};
ghost use Rattle.std.specs.List.Sorted.{IsNonDecreasingBy};
ghost use Rattle.vert_base.specs.declared.limits.TheConstants.{EDGES};
ghost use Rattle.vert_base.specs.declared.graph.Edge.{Edge};
ghost use Rattle.vert_base.specs.Neighbours.{bucket, source, target};
ghost use Rattle.graph_table.specs.Sides.{key_of};
ghost use Rattle.machine_parts.specs.Spans.{AreSpans, IsSpan, vertex_of};

use graph_table::{Side, end_of};
use std::alloc::Global;
use vert_base::{Edge, VertexId, Want};

/// Where the edges of a vertex begin in a list of edges, and the place behind them.
#[derive(Clone, Copy, Debug, PartialEq, Eq)]
pub struct Span {
    pub vertex: VertexId,
    pub start: u32,
    pub end: u32,
}

/// The spans of all vertices at one end of edges that are in order of it. It goes through the edges
/// once.
pub fn spans_of(alloc: Global, edges: &[Edge], side: Side) -> Result<Vec<Span>, Want>
    requires order { IsNonDecreasingBy (key_of side) edges.now }
    requires few { length edges.now ≤ EDGES }
    ensures { IfOk result (λ spans. (n : ℕ) → All (λ e. key_of side e < n) edges.now
        → AreSpans (key_of side) n edges.now spans.items) }
{
    let mut spans = Vec::new(alloc);
    let mut start = 0;
    'spans: while start < edges.len() {
        let vertex = end_of(side, &edges[start]);
        let (_, rest) = edges.split_at(start);
        let len = run_len(rest, side, vertex);
        let end = start + len;
        spans.push(Span {
            vertex: VertexId(vertex),
            start: start as u32,
            end: end as u32,
        })?;
        start = end;
    }
    Ok(spans)
}

// How many edges at the front have this end.
fn run_len(edges: &[Edge], side: Side, vertex: u32) -> usize
    ensures { result ≡ prefix_len (λ e. key_of side e == vertex) edges.now }
{
    for (count, edge) in edges.iter().enumerate() {
        if end_of(side, edge) != vertex {
            return count;
        }
    }
    edges.len()
}

/// The edges of a vertex.
#[inline]
pub fn edges_in<'a>(edges: &'a [Edge], span: &Span) -> &'a [Edge]
    requires rises { span.now.start ≤ span.now.end }
    requires within { span.now.end ≤ length edges.now }
    ensures { (end : Edge → ℕ) → IsSpan end edges.now span.now
        → result.now ≡ bucket end span.now.vertex.0 edges.now }
{
    &edges[span.start as usize..span.end as usize]
}

/// The sources of the first edges of a vertex.
#[inline]
pub fn first_sources<'a>(sources: &'a [VertexId], span: &Span, count: u32) -> &'a [VertexId]
    requires count { span.now.start + count ≤ span.now.end }
    requires within { span.now.end ≤ length sources.now }
    ensures { (edges : List Edge) → IsSpan target edges span.now
        → map (λ v. v.0) sources.now ≡ map source edges
        → map (λ v. v.0) result.now
        ≡ map source (take count (bucket target span.now.vertex.0 edges)) }
{
    let start = span.start as usize;
    &sources[start..start + count as usize]
}

/// The spans of the vertices from one on and before another one. It halves the list twice.
pub fn spans_within(spans: &[Span], start: u32, end: u32) -> &[Span]
    requires { IsNonDecreasingBy vertex_of spans.now }
    ensures { result.now
        ≡ filter (λ s. nat_le start (vertex_of s) && nat_lt (vertex_of s) end) spans.now }
{
    let (below, _) = split_at_vertex(spans, end);
    let (_, within) = split_at_vertex(below, start);
    within
}

// The spans of the vertices below one, and the others.
fn split_at_vertex(spans: &[Span], vertex: u32) -> (&[Span], &[Span])
    requires { IsNonDecreasingBy vertex_of spans.now }
    ensures below { result.0.now ≡ filter (λ s. nat_lt (vertex_of s) vertex) spans.now }
    ensures others { result.1.now ≡ filter (λ s. nat_le vertex (vertex_of s)) spans.now }
{
    let count = spans.partition_point(|span| span.vertex.0 < vertex);
    spans.split_at(count)
}
