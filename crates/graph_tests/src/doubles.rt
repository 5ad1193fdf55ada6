//! Shelves, sources, sinks and feeds in memory.

use arrayvec::ArrayVec;
use sample_programs::{Cells, plain};
use std::alloc::{AllocError, Global};
use std::process::Abort;
use std::test::Fail;
use symple_face::{
    DripSink, Feed, FirmShelf, FirmSink, ListFeed, MemShelf, MemSink, MemSource, Shelf, Sink,
    Source, StoreFault,
};
use vert_base::{Neighbour, Row, VertexId};

/// Pieces that are put into a sink with room for five bytes, each with the length that is taken of it.
static FIRM: &str = "\
ab | 2
cdef | fault
| 0
cde | 3
f | fault";

/// The same of a sink with room for two, which takes one byte at a time.
static DRIP: &str = "\
ab | 1
bc | 1
| 0
c | fault";

/// The same of a sink with room for four, whose second put fails.
static SECOND_FAILS: &str = "\
ab | 2
c | fault
cde | fault
cd | 2";

fn puts<S: Sink>(rt: &impl Abort, sink: &mut S, lines: &str) {
    for line in lines.lines() {
        let mut cells = Cells::new(line);
        let taken = sink.put(cells.text().as_bytes()).ok();
        assert_eq!(rt; taken, cells.text().parse::<usize>().ok(), "{line}");
    }
}

#[test]
fn sinks(rt: HostRuntime) -> Result<(), Fail> {
    let mut firm = FirmSink::new(rt.alloc(), 5)?;
    puts(&rt, &mut firm, FIRM);
    assert_eq!(rt; firm.bytes(), b"abcde".as_slice());
    let mut drip = DripSink::new(rt.alloc(), 2)?;
    puts(&rt, &mut drip, DRIP);
    assert_eq!(rt; drip.bytes(), b"ab".as_slice());
    let fails = vec![in rt.alloc(); 2]?;
    let mut sink = MemSink::new(rt.alloc(), 4, fails)?;
    puts(&rt, &mut sink, SECOND_FAILS);
    assert_eq!(rt; sink.bytes(), b"abcd".as_slice());
    Ok(())
}

/// Room for so many bytes, and what a source gives there, whose third take fails.
static TAKES: &str = "\
3 | abc
0 |
8 | fault
8 | de
1 | f
8 | g
8 |";

fn takes<S: Source>(rt: &impl Abort, source: &mut S) -> Result<(), Fail> {
    let mut into = [b'.'; 8];
    for line in TAKES.lines() {
        let mut cells = Cells::new(line);
        let room = usize::from(cells.byte()?).min(8);
        let given = cells.text();
        match source.take(&mut into[..room]) {
            Ok(size) => assert_eq!(rt; &into[..size.min(8)], given.as_bytes(), "{line}"),
            Err(_) => assert_eq!(rt; given, "fault", "{line}"),
        }
    }
    Ok(())
}

#[test]
fn a_source(rt: HostRuntime) -> Result<(), Fail> {
    let mut pieces = Vec::new(rt.alloc());
    for piece in ["abcde", "", "fg"] {
        pieces.push(Vec::from_slice(rt.alloc(), piece.as_bytes())?)?;
    }
    let fails = vec![in rt.alloc(); 3]?;
    takes(&rt, &mut MemSource::new(pieces, fails))
}

/// Names and limits, each with the text that is loaded, or the fault.
static BEFORE: &str = "\
graph | 4 | 0 1/
graph | 3 | TooLong
log | 9 | Missing";

static AFTER: &str = "\
graph | 9 | 2/
log | 4 | go 0";

static FIRST_FAILS: &str = "\
graph | 4 | Failed
log | 4 | Missing";

fn loads<H: Shelf>(rt: &impl Abort, alloc: Global, shelf: &mut H, lines: &str) -> Result<(), Fail> {
    for line in lines.lines() {
        let mut cells = Cells::new(line);
        let name = cells.text();
        let limit = u64::from(cells.number()?);
        let wanted = plain(alloc, cells.text())?;
        match shelf.load(alloc, name, limit) {
            Ok(bytes) => assert_eq!(rt; bytes.as_slice(), wanted.as_bytes(), "{line}"),
            Err(fault) => {
                let fault = format!(in alloc; "{fault:?}")?;
                assert_eq!(rt; fault.as_str(), wanted.as_str(), "{line}");
            }
        }
    }
    Ok(())
}

fn graph(alloc: Global) -> Result<(String, Vec<u8>), AllocError> {
    Ok((
        String::from_str(alloc, "graph")?,
        Vec::from_slice(alloc, b"0 1\n")?,
    ))
}

#[test]
fn a_shelf_that_never_fails(rt: HostRuntime) -> Result<(), Fail> {
    let alloc = rt.alloc();
    let mut shelf = FirmShelf::new(alloc, vec![in alloc; graph(alloc)?]?);
    loads(&rt, alloc, &mut shelf, BEFORE)?;
    assert_eq!(rt; shelf.store("log", b"go 0"), Ok(()));
    assert_eq!(rt; shelf.store("graph", b"2\n"), Ok(()));
    loads(&rt, alloc, &mut shelf, AFTER)
}

#[test]
fn a_shelf_whose_calls_fail(rt: HostRuntime) -> Result<(), Fail> {
    let alloc = rt.alloc();
    let fails = vec![in alloc; 1, 3]?;
    let mut shelf = MemShelf::new(alloc, vec![in alloc; graph(alloc)?]?, fails);
    loads(&rt, alloc, &mut shelf, FIRST_FAILS)?;
    assert_eq!(rt; shelf.store("log", b"go 0"), Err(StoreFault::Failed));
    loads(&rt, alloc, &mut shelf, BEFORE)
}

/// The neighbours of a list: their ids, the words of their rows, and whether they are active.
static NEIGHBOURS: &str = "\
7 | -1 5 | active
7 | 3 | idle";

/// The row of words that stand in a cell.
pub(crate) fn row(cell: &str, active: bool) -> Result<Row, Fail> {
    let mut row = Row {
        words: ArrayVec::new(),
        active,
    };
    for word in cell.split_whitespace() {
        let _ = row.words.try_push(word.parse::<i64>()?);
    }
    Ok(row)
}

fn members(alloc: Global) -> Result<Vec<(Neighbour, Row)>, Fail> {
    let mut list = Vec::new(alloc);
    for line in NEIGHBOURS.lines() {
        let mut cells = Cells::new(line);
        let neighbour = Neighbour {
            id: VertexId(cells.number()?),
            weight: 1,
            indeg: 0,
            outdeg: 2,
        };
        let words = cells.text();
        list.push((neighbour, row(words, cells.is("active"))?))?;
    }
    Ok(list)
}

#[test]
fn a_feed_of_a_list(rt: HostRuntime) -> Result<(), Fail> {
    let mut feed = ListFeed::new(members(rt.alloc())?);
    let mut into = row("9 9 9", false)?;
    for line in NEIGHBOURS.lines() {
        let mut cells = Cells::new(line);
        let id = VertexId(cells.number()?);
        assert_eq!(rt; feed.next(&mut into).map(|n| n.id), Some(id), "{line}");
        let words = cells.text();
        let wanted = row(words, cells.is("active"))?;
        assert_eq!(rt; into.words.as_slice(), wanted.words.as_slice(), "{line}");
        assert_eq!(rt; into.active, wanted.active, "{line}");
    }
    assert_eq!(rt; feed.next(&mut into), None);
    assert_eq!(rt; into.words.as_slice(), [3].as_slice());
    Ok(())
}
