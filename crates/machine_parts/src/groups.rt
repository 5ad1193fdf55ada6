// The tables that a machine makes of its edges.
ghost use Rattle.std.specs.Prelude.{◌≡◌, map, IfOk};
ghost use Rattle.vert_base.specs.Neighbours.{source};

use crate::spans::{Span, spans_of};
use graph_table::Side;
use std::alloc::Global;
use symple_face::Part;
use vert_base::{Edge, VertexId, Want};

/// Where the edges of each target stand in what a machine scans, and those of each source in what
/// it pushes over; and the source of each edge that it scans, by which reads are lent.
#[derive(Drop)]
pub struct Groups {
    pub targets: Vec<Span>,
    pub senders: Vec<Span>,
    pub sources: Vec<VertexId>,
}

impl Groups {
    ghost use Rattle.std.specs.Prelude.{IfOk};
    ghost use Rattle.symple_face.specs.PartViews.{plain_of};
    ghost use Rattle.machine_parts.specs.Spans.{AreGroups};

    /// The tables of a part. It goes through its edges three times.
    pub fn make(alloc: Global, part: &Part) -> Result<Groups, Want>
        ensures { IfOk result (λ groups. AreGroups (plain_of part.now) groups) }
    {
        Ok(Groups {
            targets: spans_of(alloc, &part.scan, Side::Target)?,
            senders: spans_of(alloc, &part.push, Side::Source)?,
            sources: sources_of(alloc, &part.scan)?,
        })
    }
}

// The sources of edges.
fn sources_of(alloc: Global, edges: &[Edge]) -> Result<Vec<VertexId>, Want>
    ensures { IfOk result (λ sources. map (λ v. v.0) sources.items ≡ map source edges.now) }
{
    let mut sources = Vec::with_capacity(alloc, edges.len())?;
    for edge in edges {
        sources.push(edge.from)?;
    }
    Ok(sources)
}
