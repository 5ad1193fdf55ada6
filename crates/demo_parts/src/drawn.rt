// The graph that a seed draws.
ghost use Rattle.std.specs.Prelude.{◌≡◌, ◌%◌, ◌++◌, ◌∷◌, [], IfOk, OnOk};
ghost use Rattle.demo_parts.specs.DrawnGraphs.{drawn_graph, edge_of};
ghost use Rattle.demo_parts.specs.WordStreams.{behind_word, word_of};
ghost use Rattle.edge_reader.specs.Gives.{graph_of_edges};

use edge_reader::Edges;
use rand_core::utils::NextWord;
use rand_pcg::Lcg64Xsh32;
use std::alloc::{AllocError, Global};
use vert_base::{Edge, VertexId, Want};

/// How many vertices the drawn graph has.
pub const DRAWN_VERTICES: u32 = 20_000;

/// How many edges the drawn graph has.
pub const DRAWN_EDGES: u32 = 200_000;

/// The stream of the generator from which edges are drawn.
const STREAM: u64 = 7;

/// The edges that a seed draws.
pub fn drawn_edges(alloc: Global, seed: u64) -> Result<Edges, Want>
    ensures { IfOk result (λ edges. graph_of_edges edges ≡ drawn_graph seed) }
{
    let mut generator = Lcg64Xsh32::new(seed, STREAM);
    let mut list = Vec::with_capacity(alloc, DRAWN_EDGES as usize)?;
    'edges: for _ in 0..DRAWN_EDGES {
        add(&mut list, next_edge(&mut generator))?;
    }
    Ok(Edges {
        vertices: DRAWN_VERTICES,
        list,
    })
}

/// Adds an edge at the end.
fn add(list: &mut Vec<Edge>, edge: Edge) -> Result<(), AllocError>
    ensures { OnOk result (list.new.items ≡ list.old.items ++ edge ∷ []) }
{
    list.push(edge)?;
    Ok(())
}

/// The edge of the next two words.
fn next_edge(generator: &mut Lcg64Xsh32) -> Edge
    ensures edge { result
        ≡ edge_of (word_of generator.old) (word_of (behind_word generator.old)) }
    ensures behind { generator.new ≡ behind_word (behind_word generator.old) }
{
    let from = next_vertex(generator);
    let to = next_vertex(generator);
    Edge {
        from,
        to,
        weight: 1,
    }
}

/// The vertex of the next word.
fn next_vertex(generator: &mut Lcg64Xsh32) -> VertexId
    ensures vertex { result.0 ≡ word_of generator.old % DRAWN_VERTICES }
    ensures behind { generator.new ≡ behind_word generator.old }
{
    VertexId(generator.next_word() % DRAWN_VERTICES)
}
