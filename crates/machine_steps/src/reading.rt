// What a machine read of each target.
ghost use Rattle.std.specs.Prelude.{◌≡◌, ◌≤◌, ◌<◌, ℕ, [], length, map, slice_index_or};
ghost use Rattle.std.specs.List.Sorted.{IsNonDecreasingBy};
ghost use Rattle.symple_face.specs.CoreSight.{beside, targets_of};
ghost use Rattle.symple_face.specs.PartViews.{plain_of};
ghost use Rattle.machine_parts.specs.Spans.{vertex_of};
ghost use Rattle.machine_parts.proofs.SpanLaws.{no_span};
ghost use Rattle.machine_steps.specs.Counts.{AreCounts, lists_read};

use machine_parts::{Span, first_sources};
use vert_base::VertexId;
use vertex_work::Ground;

/// The sources of the first members of a vertex, by the counts that stand beside the targets.
pub fn sources_read<'a>(ground: &'a Ground, counts: &[u32], v: VertexId) -> &'a [VertexId]
    requires { AreCounts (plain_of ground.now.part) counts.now }
    ensures { map (λ u. u.0) result.now
        ≡ beside [] v.0 (targets_of (plain_of ground.now.part))
        (lists_read (plain_of ground.now.part) counts.now) }
{
    let targets: &[Span] = &ground.groups.targets;
    let place = place_of(targets, v.0);
    if place >= targets.len() {
        return &[];
    }
    let span = targets[place];
    if span.vertex.0 != v.0 {
        return &[];
    }
    first_sources(&ground.groups.sources, &span, counts[place])
}

// Where the spans of the vertices from one on begin.
pub(crate) fn place_of(spans: &[Span], vertex: u32) -> usize
    requires { IsNonDecreasingBy vertex_of spans.now }
    ensures within { result ≤ length spans.now }
    ensures below { (i : ℕ) → i < result → vertex_of (slice_index_or spans.now i no_span) < vertex }
    ensures others { (i : ℕ) → result ≤ i → i < length spans.now →
        vertex ≤ vertex_of (slice_index_or spans.now i no_span) }
{
    spans.partition_point(|span| span.vertex.0 < vertex)
}
