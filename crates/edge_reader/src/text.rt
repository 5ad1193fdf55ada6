ghost use Rattle.std.specs.Prelude.{◌≤◌};
ghost use Rattle.std.specs.Option.{ForSome};
ghost use Rattle.edge_reader.specs.EdgeText.{reading_of_text};
ghost use Rattle.edge_reader.specs.Gives.{Gives};

use crate::edges::Edges;
use crate::fault::EdgeFault;
use crate::gather::{add, refusal, vertex_count};
use crate::line::next_entry;
use std::alloc::Global;
use vert_base::limits::{GRAPH_BYTES, VERTICES};

/// Reads a text edge list. `vertices` is the number of vertices, where it is given; with `both`, each
/// edge is followed by its reversal.
pub fn read_text(
    alloc: Global,
    bytes: &[u8],
    vertices: Option<u32>,
    both: bool,
) -> Result<Edges, EdgeFault>
    requires { ForSome vertices (λ n. n ≤ VERTICES) }
    ensures { Gives (reading_of_text vertices both bytes.now) result }
{
    if bytes.len() as u64 > GRAPH_BYTES {
        return Err(EdgeFault::Byte {
            code: 7,
            at: GRAPH_BYTES,
        });
    }
    let mut list = Vec::new(alloc);
    let mut rest = bytes;
    let mut number = 1u32;
    while let Some((entry, after)) = next_entry(rest) {
        if let Some(code) = refusal(entry, list.len(), vertices, both) {
            return Err(EdgeFault::Line { code, line: number });
        }
        add(&mut list, entry, both)?;
        rest = after;
        number += 1;
    }
    let vertices = vertex_count(&list, vertices);
    Ok(Edges { vertices, list })
}
