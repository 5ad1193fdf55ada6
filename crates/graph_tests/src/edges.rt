//! Edge files: the edges that are read, or the first fault.

ghost use Rattle.std.specs.Prelude.{◌≤◌, IfOk};
ghost use Rattle.std.specs.Option.{ForSome};

use super::bytes::bytes_of;
use edge_reader::{EdgeFault, Edges, read_pairs, read_text};
use sample_programs::{Cells, plain};
use std::alloc::{AllocError, Global};
use std::process::Abort;
use std::test::Fail;
use vert_base::limits::VERTICES;

/// The given number of vertices, whether each edge comes with its reversal, what is read, and the text.
static TEXTS: &str = "\
- | one | 4 vertices, 0 1 1, 0 2 1, 1 3 1, 2 3 1 | # x␍/0␉1␍//0 2/  1 3/2 3
4 | one | 4 vertices, 0 1 1, 0 2 1, 1 3 1, 2 3 1 | 0 1/0 2/1 3/2 3/
- | one | 0 vertices |
0 | both | 0 vertices |
7 | one | 7 vertices | /# 1 2/
10 | one | 10 vertices, 2 1 1 | 2 1/
- | one | 2 vertices, 0 1 1 | 0 1///
- | both | 3 vertices, 0 2 -5, 2 0 -5, 1 1 7, 1 1 7 | 0 2 -5/1 1 7/
- | one | 8 vertices, 7 2 -3, 3 0 0 | 007 0002 -0003/3 00 -0
- | one | 2 vertices, 0 1 2147483647, 1 0 -2147483648 | 0 1 2147483647/1 0 -2147483648/
- | one | 2 vertices, 0 1 2 | 0 000000000000000000000000000000000001 2
- | one | 2097152 vertices, 2097151 0 4 | 2097151 0 ␉ 4 ␉␍
2097152 | one | 2097152 vertices, 2097151 0 1 | ␉ 2097151 0
- | one | 6 vertices, 5 5 1 | ␠␉␍/␉ # 1 2 3 4/#/5 5/␍
- | one | 4 vertices, 0 3 1, 2 1 1 | # Directed graph: web.txt/# Nodes: 4 Edges: 2/# FromNodeId␉ToNodeId/0␉3/2␉1/
- | one | 2 vertices, 0 1 -1, 1 0 1 | #␍/0␉1␉-1␍/1␉0␉1␍/
- | one | 0 vertices | ␍
- | one | 2 vertices, 0 1 1 | 0 1␍
- | one | 4 vertices, 3 0 1 | # ␍␀␋␍␍/3 0
- | one | 2 vertices, 0 1 5, 0 1 5, 0 1 1 | 0 1 5/0 1 5/0 1
2097152 | both | 2097152 vertices, 4 4 1, 4 4 1 | 4 4/
- | one | code 1 line 4 | 0 1/0 2/1 3/3 x/
- | one | code 1 line 1 | 1/
- | one | code 1 line 1 | 1 2 3 4/
- | one | code 1 line 1 | +1 2/
- | one | code 1 line 1 | -1 2/
- | one | code 1 line 1 | 1 -2/
- | one | code 1 line 1 | 1 2 +3
- | one | code 1 line 1 | 1 2 -
- | one | code 1 line 1 | 1 2 --3
- | one | code 1 line 1 | 1 2 3-
- | one | code 1 line 1 | 1 2 0x3
- | one | code 1 line 1 | 1 2 3.0
- | one | code 1 line 3 | //1,2/
- | one | code 1 line 1 | 1␍2/
- | one | code 1 line 1 | 0 1␍␍/
- | one | code 1 line 1 | ␍ /
- | one | code 1 line 1 | 0 1␍0 x␍/
- | one | code 1 line 2 | 0 1/0␋1/
- | one | code 1 line 1 | 0␌1 2
- | one | code 1 line 1 | 0 1␀/
- | one | code 1 line 1 | 0 1 # no/
- | one | code 1 line 1 | 0 #1/
- | one | code 1 line 4 | 0 1␍/# x␍/␍/0␍/
- | one | code 1 line 1 | x 4294967296/
- | one | code 1 line 1 | 99999999999 1 2 3/
- | one | code 2 line 1 | 4294967296 0/
- | one | code 2 line 2 | 0 1/0 4294967296/
3 | one | code 2 line 1 | 4294967296 0
- | one | code 2 line 1 | 0 1 2147483648
- | one | code 2 line 1 | 0 1 -2147483649
- | one | code 2 line 1 | 0 1 99999999999999999999999999999
- | one | code 2 line 1 | 18446744073709551617 0
3 | one | code 2 line 1 | 0 5 2147483648
3 | one | code 3 line 3 | 0 1/0 2/1 3/2 3/
0 | one | code 3 line 1 | 0 0
5 | one | code 3 line 1 | 4294967295 0
2097152 | one | code 3 line 1 | 2097152 0
- | one | code 4 line 1 | 0 2097152
- | one | code 4 line 3 | # x//4294967295 0
- | one | code 4 line 1 | 0 9999999/0 x
- | one | code 1 line 2 | 0 1/0 x/0 9999999
- | one | code 1 line 1 | % asym positive/1 2/
- | one | code 1 line 1 | 0 1␍␍
- | one | code 1 line 2 | 0 1/␍#/
- | one | code 1 line 1 | 0 1␍ /
- | one | code 1 line 1 | 0 1 5 # w/
- | one | code 1 line 1 | 0 -0/
- | one | code 1 line 1 | 1e3 2/
- | one | code 1 line 1 | \u{663} 4/
- | one | code 1 line 1 | \u{feff}0 1/
- | one | code 1 line 1 | 0\u{a0}1/
3 | one | code 1 line 2 | 0 1/0 5 x/9 9/
3 | one | code 3 line 1 | 0 3/0 4294967296/
- | one | code 4 line 1 | 2097151 2097152
- | one | code 2 line 1 | 0 9999999 2147483648
- | one | code 2 line 4 | 0 1/# c//2097152 2097152 -2147483649";

/// Whether units have a weight, whether each edge comes with its reversal, what is read, and the bytes.
static PAIRS: &str = "\
- | one | 0 vertices |
weight | both | 0 vertices |
- | one | 4 vertices, 0 1 1, 0 2 1, 1 3 1, 2 3 1 | 0000000001000000000000000200000001000000030000000200000003000000
- | one | 2097152 vertices, 2097151 0 1 | ffff1f0000000000
- | one | 197122 vertices, 8192 197121 1 | 0020000001020300
- | one | 7 vertices, 1 2 1, 3 4 1, 5 6 1 | 010000000200000003000000040000000500000006000000
weight | one | 6 vertices, 1 2 3, 4 5 6 | 010000000200000003000000040000000500000006000000
weight | one | 2 vertices, 0 1 -1, 1 0 -2147483648, 1 1 2147483647 | 0000000001000000ffffffff0100000000000000000000800100000001000000ffffff7f
weight | both | 3 vertices, 0 2 -5, 2 0 -5, 1 1 7, 1 1 7 | 0000000002000000fbffffff010000000100000007000000
- | both | 2 vertices, 0 1 1, 1 0 1, 1 1 1, 1 1 1 | 00000000010000000100000001000000
- | one | code 6 byte 0 | 00
- | one | code 6 byte 0 | 00000000010000
- | one | code 6 byte 8 | 000000000100000000
- | one | code 6 byte 32 | 000000000100000000000000020000000100000003000000020000000300000000
- | one | code 4 byte 0 | 0000000000002000
- | one | code 4 byte 8 | 00000000010000000000200000000000
- | one | code 4 byte 0 | ffffffff00000000
- | one | code 6 byte 8 | 000000000000200000
- | one | code 4 byte 8 | 000000000100000000000000000020000000200000000000
- | both | code 4 byte 8 | 00000000010000000000000000002000
weight | one | code 6 byte 0 | 0000000001000000
weight | one | code 6 byte 0 | 00000000
weight | one | code 6 byte 12 | 00000000000000000000000000000000
weight | one | code 6 byte 24 | 0000000001000000000000000200000001000000030000000200000003000000
weight | one | code 4 byte 12 | 0000000001000000ffffffff000000000000200000000000
weight | both | code 4 byte 24 | 0000000001000000ffffffff000000000100000000000000000020000100000001000000";

/// So many bytes that are all 0, whether units have a weight, whether each edge comes with its reversal,
/// and what is read: the most edges that there may be, or the first edge too many.
static LARGE_PAIRS: &str = "\
67108864 | - | one | 8388608 edges
67108872 | - | one | code 5 byte 67108864
33554432 | - | both | 8388608 edges
33554440 | - | both | code 5 byte 33554432
100663296 | weight | one | 8388608 edges
100663308 | weight | one | code 5 byte 100663296";

/// A number of vertices, which is given where the cell has one.
pub(crate) fn given(rt: &impl Abort, cell: &str) -> Result<Option<u32>, Fail>
    ensures { IfOk result (λ given. ForSome given (λ n. n ≤ VERTICES)) }
{
    if cell == "-" {
        return Ok(None);
    }
    let vertices = cell.parse::<u32>()?;
    assert!(rt; vertices <= VERTICES);
    Ok(Some(vertices))
}

fn fault_told(alloc: Global, fault: EdgeFault) -> Result<String, AllocError> {
    match fault {
        EdgeFault::Line { code, line } => format!(in alloc; "code {code} line {line}"),
        EdgeFault::Byte { code, at } => format!(in alloc; "code {code} byte {at}"),
        EdgeFault::Want => String::from_str(alloc, "no memory"),
    }
}

fn edges_told(alloc: Global, edges: &Edges) -> Result<String, AllocError> {
    let mut text = format!(in alloc; "{} vertices", edges.vertices)?;
    for edge in &edges.list {
        write!(text, ", {} {} {}", edge.from.0, edge.to.0, edge.weight)?;
    }
    Ok(text)
}

fn told(alloc: Global, found: Result<Edges, EdgeFault>) -> Result<String, AllocError> {
    match found {
        Ok(edges) => edges_told(alloc, &edges),
        Err(fault) => fault_told(alloc, fault),
    }
}

/// What is read, without the edges themselves.
fn counted(alloc: Global, found: Result<Edges, EdgeFault>) -> Result<String, AllocError> {
    match found {
        Ok(edges) => format!(in alloc; "{} edges", edges.list.len()),
        Err(fault) => fault_told(alloc, fault),
    }
}

#[test]
fn texts(rt: HostRuntime) -> Result<(), Fail> {
    let alloc = rt.alloc();
    for line in TEXTS.lines() {
        let mut cells = Cells::new(line);
        let vertices = given(&rt, cells.text())?;
        let both = cells.is("both");
        let wanted = cells.text();
        let text = plain(alloc, cells.text())?;
        let found = told(alloc, read_text(alloc, text.as_bytes(), vertices, both))?;
        assert_eq!(rt; found.as_str(), wanted, "{line}");
    }
    Ok(())
}

#[test]
fn pairs(rt: HostRuntime) -> Result<(), Fail> {
    let alloc = rt.alloc();
    for line in PAIRS.lines() {
        let mut cells = Cells::new(line);
        let weighted = cells.is("weight");
        let both = cells.is("both");
        let wanted = cells.text();
        let bytes = bytes_of(alloc, cells.text())?;
        let found = told(alloc, read_pairs(alloc, &bytes, weighted, both))?;
        assert_eq!(rt; found.as_str(), wanted, "{line}");
    }
    Ok(())
}

/// What the first bytes of a text are read as: a cut line is refused, and a whole one is not.
fn check_first_lines(rt: &impl Abort, alloc: Global, text: &[u8]) {
    for k in 0..=text.len() {
        let fault = read_text(alloc, &text[..k], None, false).err();
        let line = (k as u64 / 4 + 1).min(9) as u32;
        let cut = k % 4 == 1 || k % 4 == 2;
        let wanted = cut.then_some(EdgeFault::Line { code: 1, line });
        assert_eq!(rt; fault, wanted, "{k}");
    }
}

/// The same of units of eight bytes.
fn check_first_units(rt: &impl Abort, alloc: Global, bytes: &[u8]) {
    for k in 0..=bytes.len() {
        let fault = read_pairs(alloc, &bytes[..k], false, false).err();
        let at = k as u64 / 8 * 8;
        let cut = k % 8 != 0;
        let wanted = cut.then_some(EdgeFault::Byte { code: 6, at });
        assert_eq!(rt; fault, wanted, "{k}");
    }
}

#[test]
fn first_parts(rt: HostRuntime) -> Result<(), Fail> {
    let alloc = rt.alloc();
    check_first_lines(&rt, alloc, b"0 1\n0 2\n1 3\n2 3\n");
    let units = "0000000001000000000000000200000001000000030000000200000003000000";
    check_first_units(&rt, alloc, &bytes_of(alloc, units)?);
    Ok(())
}

/// Reads so many loops in both directions.
fn loops_told(alloc: Global, count: usize) -> Result<String, AllocError> {
    let text = "7 7\n".repeat(alloc, count)?;
    counted(alloc, read_text(alloc, text.as_bytes(), None, true))
}

#[test]
fn as_many_edges_as_there_may_be(rt: HostRuntime) -> Result<(), Fail> {
    let alloc = rt.alloc();
    assert_eq!(rt; loops_told(alloc, 4_194_304)?.as_str(), "8388608 edges");
    assert_eq!(rt;
        loops_told(alloc, 4_194_305)?.as_str(),
        "code 5 line 4194305"
    );
    for line in LARGE_PAIRS.lines() {
        let mut cells = Cells::new(line);
        let zeros = vec![in alloc; 0u8; cells.number()? as usize]?;
        let weighted = cells.is("weight");
        let both = cells.is("both");
        let found = counted(alloc, read_pairs(alloc, &zeros, weighted, both))?;
        assert_eq!(rt; found.as_str(), cells.text(), "{line}");
    }
    Ok(())
}

#[test]
fn as_many_bytes_as_there_may_be(rt: HostRuntime) -> Result<(), Fail> {
    let alloc = rt.alloc();
    let bytes = vec![in alloc; b'x'; 268_435_457]?;
    let (_, fewer) = bytes.split_first().ok_or("no bytes")?;
    let found = told(alloc, read_text(alloc, fewer, None, false))?;
    assert_eq!(rt; found.as_str(), "code 1 line 1");
    let found = told(alloc, read_text(alloc, &bytes, None, false))?;
    assert_eq!(rt; found.as_str(), "code 7 byte 268435456");
    let found = told(alloc, read_pairs(alloc, fewer, false, false))?;
    assert_eq!(rt; found.as_str(), "code 4 byte 0");
    let found = told(alloc, read_pairs(alloc, &bytes, true, true))?;
    assert_eq!(rt; found.as_str(), "code 7 byte 268435456");
    Ok(())
}
