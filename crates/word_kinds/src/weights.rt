//! The weights of edges fit 32 bits, since each is an `i32`.
#![tactic(auto)]

ghost use Rattle.std.specs.Prelude.{◌≡◌, FitsSigned};
ghost use Rattle.std.specs.Int.{w32};
ghost use Rattle.word_kinds.specs.Fits.{HaveWeights};

use vert_base::Edge;

/// The weight of an edge, which fits its 32 bits.
pub fn weight_of(edge: &Edge) -> i32
    ensures is { result ≡ edge.now.weight }
    ensures fits { FitsSigned w32 edge.now.weight }
{
    edge.weight
}

/// Each weight of a list of edges fits its 32 bits. It reads each one, and does no more.
pub fn edges_have_weights(edges: &[Edge])
    ensures { HaveWeights edges.now }
{
    for edge in edges {
        let _weight = weight_of(edge);
    }
}
