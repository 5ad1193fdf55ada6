// Lists of vertices, one for each machine.
ghost use Rattle.std.specs.Prelude.{◌≡◌, [], map, nat_le, nat_lt, slice_index_or};
ghost use Rattle.std.specs.List.{filter};
ghost use Rattle.std.specs.List.Sorted.{IsNonDecreasingBy};
ghost use Rattle.symple_face.specs.CoreSight.{those_within};
ghost use Rattle.symple_face.specs.Parts.{lists_of};
ghost use Rattle.vertex_work.specs.Known.{number};

use vert_base::VertexId;

/// The list of a machine.
pub fn list_at(lists: &[Vec<VertexId>], machine: u8) -> &[VertexId]
    ensures { map (λ v. v.0) result.now ≡ slice_index_or (lists_of lists.now) machine [] }
{
    match lists.get(usize::from(machine)) {
        Some(list) => list,
        None => &[],
    }
}

/// The vertices of an ascending list that lie from the first to the second of two. It halves the
/// list twice.
pub(crate) fn vertices_within(list: &[VertexId], range: (u32, u32)) -> &[VertexId]
    requires { IsNonDecreasingBy number list.now }
    ensures { map number result.now ≡ those_within range (map number list.now) }
{
    let (below, _) = split_at_vertex(list, range.1);
    let (_, within) = split_at_vertex(below, range.0);
    within
}

// The vertices below one, and the others.
fn split_at_vertex(list: &[VertexId], vertex: u32) -> (&[VertexId], &[VertexId])
    requires { IsNonDecreasingBy number list.now }
    ensures below { result.0.now ≡ filter (λ v. nat_lt (number v) vertex) list.now }
    ensures others { result.1.now ≡ filter (λ v. nat_le vertex (number v)) list.now }
{
    let count = list.partition_point(|v| v.0 < vertex);
    list.split_at(count)
}
