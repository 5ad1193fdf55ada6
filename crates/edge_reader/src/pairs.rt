ghost use Rattle.std.specs.Prelude.{◌≡◌, ◌+◌, ◌<◌, [], ◌∷◌, length, MatchOption, IfSome};
ghost use Rattle.edge_reader.specs.EdgePairs.{entry_of_unit, reading_of_pairs, unit_of, units_of};
ghost use Rattle.edge_reader.specs.Gives.{Gives};

use crate::edges::Edges;
use crate::entry::Entry;
use crate::fault::EdgeFault;
use crate::gather::{add, refusal, vertex_count};
use byteorder::{ByteOrder, LittleEndian};
use std::alloc::Global;
use vert_base::limits::{EDGES, GRAPH_BYTES};
use vert_base::{Edge, VertexId};

/// The bytes of a source and a target.
const PAIR: usize = 8;

/// The bytes of a source, a target and a weight.
const WEIGHTED: usize = 12;

/// How many bytes a unit has.
fn unit_size(weighted: bool) -> usize
    ensures value { result ≡ unit_of weighted }
    ensures some { 0 < result }
{
    if weighted { WEIGHTED } else { PAIR }
}

/// The first unit of so many bytes, where there is a whole one, and what stands behind it.
fn next_unit(bytes: &[u8], size: usize) -> Option<(&[u8], &[u8])>
    requires { 0 < size }
    ensures units { MatchOption result (units_of size bytes.now ≡ []) (λ found.
        units_of size bytes.now ≡ found.0.now ∷ units_of size found.1.now) }
    ensures whole { IfSome result (λ found. length found.0.now ≡ size) }
    ensures behind { IfSome result (λ found. length found.1.now + size ≡ length bytes.now) }
{
    if bytes.len() < size {
        return None;
    }
    Some(bytes.split_at(size))
}

/// What a unit says.
fn read_unit(unit: &[u8], weighted: bool) -> Entry
    requires { length unit.now ≡ unit_of weighted }
    ensures { result ≡ entry_of_unit weighted unit.now }
{
    let from = LittleEndian::read_u32(unit);
    let to = LittleEndian::read_u32(&unit[4..]);
    let weight = if weighted {
        LittleEndian::read_i32(&unit[8..])
    } else {
        1
    };
    Entry::Read(Edge {
        from: VertexId(from),
        to: VertexId(to),
        weight,
    })
}

/// How many edges so many units give, and no more than a graph has.
fn most_edges(units: usize, both: bool) -> usize {
    let each = if both { 2 } else { 1 };
    units.saturating_mul(each).min(EDGES as usize)
}

/// Reads a binary edge list: units of a source and a target as little-endian `u32`, and with `weighted`
/// a weight as little-endian `i32`. With `both`, each edge is followed by its reversal.
pub fn read_pairs(
    alloc: Global,
    bytes: &[u8],
    weighted: bool,
    both: bool,
) -> Result<Edges, EdgeFault>
    ensures { Gives (reading_of_pairs weighted both bytes.now) result }
{
    if bytes.len() as u64 > GRAPH_BYTES {
        return Err(EdgeFault::Byte {
            code: 7,
            at: GRAPH_BYTES,
        });
    }
    let size = unit_size(weighted);
    let broken = bytes.len() % size;
    if broken > 0 {
        return Err(EdgeFault::Byte {
            code: 6,
            at: (bytes.len() - broken) as u64,
        });
    }
    let mut list = Vec::with_capacity(alloc, most_edges(bytes.len() / size, both))?;
    let mut rest = bytes;
    let mut number = 0usize;
    while let Some((unit, after)) = next_unit(rest, size) {
        let entry = read_unit(unit, weighted);
        if let Some(code) = refusal(entry, list.len(), None, both) {
            return Err(EdgeFault::Byte {
                code,
                at: (number * size) as u64,
            });
        }
        add(&mut list, entry, both)?;
        rest = after;
        number += 1;
    }
    let vertices = vertex_count(&list, None);
    Ok(Edges { vertices, list })
}
