// The numbers of a part file's lists.
ghost use Rattle.std.specs.Prelude.{◌≡◌, ◌≤◌, map, length, IfOk};
ghost use Rattle.byteorder.specs.Endian.{little_number};
ghost use Rattle.edge_reader.specs.EdgePairs.{units_of};
ghost use Rattle.worker_stream.specs.PartFiles.{degree_of_unit, edge_in};

use crate::sections::cut_at;
use byteorder::{ByteOrder, LittleEndian};
use std::alloc::{AllocError, Global};
use symple_face::Degree;
use vert_base::{Edge, VertexId};

/// How many bytes an edge or a degree has.
const UNIT: usize = 12;

fn edge_in(unit: &[u8]) -> Edge
    requires { UNIT ≤ length unit.now }
    ensures { result ≡ edge_in unit.now }
{
    Edge {
        from: VertexId(LittleEndian::read_u32(unit)),
        to: VertexId(LittleEndian::read_u32(&unit[4..])),
        weight: LittleEndian::read_i32(&unit[8..]),
    }
}

fn degree_in(unit: &[u8]) -> Degree
    requires { UNIT ≤ length unit.now }
    ensures { result ≡ degree_of_unit unit.now }
{
    Degree {
        id: VertexId(LittleEndian::read_u32(unit)),
        ins: LittleEndian::read_u32(&unit[4..]),
        outs: LittleEndian::read_u32(&unit[8..]),
    }
}

/// The edges that stand in bytes.
pub(crate) fn edges(alloc: Global, bytes: &[u8]) -> Result<Vec<Edge>, AllocError>
    ensures { IfOk result (λ list. list.items ≡ map edge_in (units_of UNIT bytes.now)) }
{
    let mut list = Vec::with_capacity(alloc, bytes.len() / UNIT)?;
    let mut rest = bytes;
    while let Some((unit, behind)) = cut_at(rest, UNIT) {
        list.push(edge_in(unit))?;
        rest = behind;
    }
    Ok(list)
}

/// The degrees that stand in bytes.
pub(crate) fn degrees(alloc: Global, bytes: &[u8]) -> Result<Vec<Degree>, AllocError>
    ensures { IfOk result (λ list. list.items
        ≡ map degree_of_unit (units_of UNIT bytes.now)) }
{
    let mut list = Vec::with_capacity(alloc, bytes.len() / UNIT)?;
    let mut rest = bytes;
    while let Some((unit, behind)) = cut_at(rest, UNIT) {
        list.push(degree_in(unit))?;
        rest = behind;
    }
    Ok(list)
}

/// The chunk ends that stand in bytes.
pub(crate) fn ends(alloc: Global, bytes: &[u8]) -> Result<Vec<u32>, AllocError>
    ensures { IfOk result (λ list. list.items ≡ map (little_number 4) (units_of 4 bytes.now)) }
{
    let mut list = Vec::with_capacity(alloc, bytes.len() / 4)?;
    let mut rest = bytes;
    while let Some((unit, behind)) = cut_at(rest, 4) {
        list.push(LittleEndian::read_u32(unit))?;
        rest = behind;
    }
    Ok(list)
}
