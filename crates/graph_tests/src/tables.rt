//! Tables of graphs, and the chunks that they are cut into.

use super::edges::given;
use chunk_split::{Cuts, cuts_of};
use edge_reader::read_text;
use graph_table::Table;
use sample_programs::{Cells, plain};
use std::alloc::{AllocError, Global};
use std::process::Abort;
use std::test::Fail;
use vert_base::{Edge, VertexId};

/// How many vertices a graph is given, whether each edge comes with its reversal, its text, and for each
/// vertex the sources of the edges into it and then the targets of those from it, with their weights.
static TABLES: &str = "\
0 | one |  |  |
2 | both |  | -; - | -; -
4 | one | 0 1/0 2/1 3/2 3/ | -; 0 1; 0 1; 1 1, 2 1 | 1 1, 2 1; 3 1; 3 1; -
4 | both | 0 1/1 2/0 2/0 3/ | 1 1, 2 1, 3 1; 0 1, 2 1; 0 1, 1 1; 0 1 | 1 1, 2 1, 3 1; 0 1, 2 1; 0 1, 1 1; 0 1
3 | one | 2 1 4/0 1 9/0 1 5/ | -; 0 9, 0 5, 2 4; - | 1 9, 1 5; -; 1 4
4 | one | 2 0 1/2 1 8/2 0 3/0 0 6/2 1 7/2 0 2/ | 0 6, 2 1, 2 3, 2 2; 2 8, 2 7; -; - | 0 6; -; 0 1, 0 3, 0 2, 1 8, 1 7; -
1 | both | 0 0 -1/0 0 2/ | 0 -1, 0 -1, 0 2, 0 2 | 0 -1, 0 -1, 0 2, 0 2
4 | one | 3 0/1 0/2 0/3 1/ | 1 1, 2 1, 3 1; 3 1; -; - | -; 0 1; 0 1; 0 1, 1 1";

/// The vertices, the direction and the text of a graph, how many machines there are, and the first ends. The
/// other ends are the last of these.
static CHUNKS: &str = "\
4 | one | 0 1/0 2/1 3/2 3/ | 1 | 4
4 | one | 0 1/0 2/1 3/2 3/ | 2 | 2 4
4 | one | 0 1/0 2/1 3/2 3/ | 3 | 2 3 4
4 | one | 0 1/0 2/1 3/2 3/ | 64 | 1 2 3 4
4 | both | 0 1/1 2/0 2/0 3/ | 3 | 2 3 4
3 | one | 0 2/1 2/ | 3 | 1 2 3
3 | one | 2 1 4/0 1 9/0 1 5/ | 2 | 2 3
2 | one | 1 0/ | 2 | 2
0 | one |  | 1 | 0
0 | one |  | 4 | 0
1 | one |  | 1 | 1
1 | one |  | 16 | 1
1 | one |  | 64 | 1
4 | one | 0 1/0 1/0 1/0 1/0 1/0 1/0 1/0 1/0 1/ | 2 | 2 4
4 | one | 3 1/3 1/3 1/3 1/3 1/3 1/3 1/3 1/3 1/ | 3 | 2 4";

/// Ends of at most six chunks, and for each vertex its owner and where its list turns.
static OWNERS: &str = "\
2 4 | 0 2, 0 2, 1 4, 1 4
2 3 4 | 0 2, 0 2, 1 3, 2 4
0 0 2 2 3 3 | 2 2, 2 2, 4 3
3 | 0 3, 0 3, 0 3
0 0 0 |";

/// Lists that are no ends of at most four chunks.
static REFUSED: &str = "\
|
1 0
0 3 2
4 3 3 5
1 2 3 4 5
0 0 0 0 0";

/// The table of the graph in the next three cells.
pub(crate) fn table_at(rt: &impl Abort, alloc: Global, cells: &mut Cells) -> Result<Table, Fail> {
    let vertices = given(rt, cells.text())?;
    let both = cells.is("both");
    let text = plain(alloc, cells.text())?;
    let edges = read_text(alloc, text.as_bytes(), vertices, both)?;
    match Table::build(alloc, &edges) {
        Ok(table) => Ok(table),
        Err(_) => Err(AllocError.into()),
    }
}

/// The numbers of a cell.
pub(crate) fn numbers(alloc: Global, cell: &str) -> Result<Vec<u32>, Fail> {
    let mut list = Vec::new(alloc);
    for word in cell.split_whitespace() {
        list.push(word.parse::<u32>()?)?;
    }
    Ok(list)
}

/// Puts the other ends of the edges at a vertex behind a text, with their weights.
fn put_ends(text: &mut String, edges: &[Edge], sources: bool) -> Result<(), AllocError> {
    if edges.is_empty() {
        return text.push_str("-");
    }
    let mut mark = "";
    for edge in edges {
        let end = if sources { edge.from.0 } else { edge.to.0 };
        write!(text, "{mark}{end} {}", edge.weight)?;
        mark = ", ";
    }
    Ok(())
}

/// The edges into each vertex, or those from it.
fn told(rt: &impl Abort, alloc: Global, table: &Table, ins: bool) -> Result<String, AllocError> {
    let mut text = String::new(alloc);
    for v in 0..table.vertices() {
        if v > 0 {
            text.push_str("; ")?;
        }
        let v = VertexId(v);
        let edges = if ins { table.ins(v) } else { table.outs(v) };
        let degree = if ins { table.indeg(v) } else { table.outdeg(v) };
        assert_eq!(rt; degree as usize, edges.len());
        put_ends(&mut text, edges, ins)?;
    }
    Ok(text)
}

#[test]
fn tables(rt: HostRuntime) -> Result<(), Fail> {
    let alloc = rt.alloc();
    for line in TABLES.lines() {
        let mut cells = Cells::new(line);
        let table = table_at(&rt, alloc, &mut cells)?;
        let mut count = 0u64;
        for v in 0..table.vertices() {
            count = count.saturating_add(table.ins(VertexId(v)).len() as u64);
        }
        assert_eq!(rt; u64::from(table.edges()), count, "{line}");
        let found = told(&rt, alloc, &table, true)?;
        assert_eq!(rt; found.as_str(), cells.text(), "{line}");
        let found = told(&rt, alloc, &table, false)?;
        assert_eq!(rt; found.as_str(), cells.text(), "{line}");
    }
    Ok(())
}

#[test]
fn chunks(rt: HostRuntime) -> Result<(), Fail> {
    let alloc = rt.alloc();
    for line in CHUNKS.lines() {
        let mut cells = Cells::new(line);
        let table = table_at(&rt, alloc, &mut cells)?;
        let machines = cells.byte()?;
        let ends = numbers(alloc, cells.text())?;
        assert!(rt; machines >= 1 && machines <= 64, "{line}");
        let cuts = cuts_of::<64>(&table, machines);
        assert_eq!(rt; cuts.count(), machines, "{line}");
        assert_eq!(rt; cuts.ends().len(), usize::from(machines), "{line}");
        for (m, end) in cuts.ends().iter().enumerate() {
            let wanted = ends.get(m).or(ends.last()).ok_or("no end")?;
            assert_eq!(rt; end, wanted, "{line}, machine {m}");
        }
    }
    Ok(())
}

/// The owner of each vertex, and where its list turns.
fn owners_told(rt: &impl Abort, alloc: Global, cuts: &Cuts<6>) -> Result<String, AllocError> {
    let mut text = String::new(alloc);
    let mut start = 0;
    for m in 0..cuts.count() {
        assert_eq!(rt; cuts.start(m), start);
        start = cuts.end(m);
    }
    for v in 0..start {
        if v > 0 {
            text.push_str(", ")?;
        }
        assert!(rt; v < cuts.end(cuts.count() - 1));
        let v = VertexId(v);
        write!(text, "{} {}", cuts.owner(v), cuts.turn(v))?;
    }
    Ok(text)
}

#[test]
fn ends_of_chunks(rt: HostRuntime) -> Result<(), Fail> {
    let alloc = rt.alloc();
    for line in OWNERS.lines() {
        let mut cells = Cells::new(line);
        let ends = numbers(alloc, cells.text())?;
        let cuts = Cuts::<6>::from_ends(&ends).ok_or("no chunks")?.clone()?;
        let found = owners_told(&rt, alloc, &cuts)?;
        assert_eq!(rt; cuts.ends(), ends.as_slice(), "{line}");
        assert_eq!(rt; found.as_str(), cells.text(), "{line}");
    }
    for line in REFUSED.lines() {
        let ends = numbers(alloc, Cells::new(line).text())?;
        assert!(rt; Cuts::<4>::from_ends(&ends).is_none(), "{line}");
    }
    let ends = [7u32; 65];
    assert!(rt; Cuts::<64>::from_ends(&ends).is_none());
    assert!(rt; Cuts::<64>::from_ends(&ends[1..]).is_some());
    Ok(())
}
