//! Programs that tests read, and what tests run them over.

use chunk_split::Cuts;
use edge_reader::{Edges, read_text};
use graph_table::Table;
use instrument::{Split, split_of};
use plain_run::{PlainRun, run_plainly};
use program_reader::read_program;
use sample_programs::plain;
use std::alloc::{AllocError, Global};
use std::test::Fail;
use vert_base::limits::MACHINES;
use vert_code::{Code, compile};
use vert_tree::Typed;

pub(crate) fn typed(alloc: Global, text: &str) -> Result<Typed, Fail> {
    match read_program(alloc, text.as_bytes()) {
        Ok(typed) => Ok(typed),
        Err(_) => Err(Fail::from("no program")),
    }
}

pub(crate) fn split(alloc: Global, text: &str) -> Result<Split, Fail> {
    Ok(split_of(typed(alloc, text)?))
}

pub(crate) fn code_of(alloc: Global, split: &Split) -> Result<Code, AllocError> {
    match compile(alloc, split) {
        Ok(code) => Ok(code),
        Err(_) => Err(AllocError),
    }
}

/// The edges of a text in which a slash ends a line.
pub(crate) fn edges(alloc: Global, text: &str) -> Result<Edges, Fail> {
    let text = plain(alloc, text)?;
    Ok(read_text(alloc, text.as_bytes(), None, false)?)
}

/// The numbers of a cell.
pub(crate) fn numbers(alloc: Global, cell: &str) -> Result<Vec<u32>, Fail> {
    let mut list = Vec::new(alloc);
    for word in cell.split_whitespace() {
        list.push(word.parse::<u32>()?)?;
    }
    Ok(list)
}

/// The source run of a program over chunks with these ends, with draws from 42 and its reads.
pub(crate) fn plain_run(
    alloc: Global,
    program: &Typed,
    edges: &Edges,
    ends: &[u32],
) -> Result<PlainRun, Fail> {
    let Ok(table) = Table::build(alloc, edges) else {
        return Err(Fail::from("no table"));
    };
    let cuts: Cuts<MACHINES> = Cuts::from_ends(ends).ok_or("no ends")?;
    let whole = cuts.end(cuts.count() - 1);
    if whole != table.vertices() {
        return Err(Fail::from("ends of another graph"));
    }
    match run_plainly(alloc, program, &table, &cuts, 42, true) {
        Ok(run) => Ok(run),
        Err(_) => Err(Fail::from("no run")),
    }
}
