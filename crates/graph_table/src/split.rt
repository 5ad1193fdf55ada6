ghost use Rattle.std.specs.Prelude.{◌≡◌, filter, nat_le, nat_lt};
ghost use Rattle.std.specs.List.Sorted.{IsNonDecreasingBy};
ghost use Rattle.graph_table.specs.Sides.{key_of};

use crate::side::{Side, end_of};
use vert_base::Edge;

/// Cuts edges that stand in order of one end: those whose end is below a vertex, and the others.
pub fn split_below(edges: &[Edge], side: Side, end: u32) -> (&[Edge], &[Edge])
    requires { IsNonDecreasingBy (key_of side) edges.now }
    ensures below { result.0.now ≡ filter (λ e. nat_lt (key_of side e) end) edges.now }
    ensures others { result.1.now ≡ filter (λ e. nat_le end (key_of side e)) edges.now }
{
    let len = edges.partition_point(|edge| end_of(side, edge) < end);
    edges.split_at(len)
}
