//! What a case names, a program, a graph and machines, and the files that it runs over.

use crate::play::{Otherwise, performed};
use command_steps::Status;
use outside::{MemShelf, MemSource, Shelf};
use sample_programs::{Cells, graph_named, plain, program_named};
use std::alloc::{AllocError, Global};
use symple_face::Restart;

/// A program, the text of a graph, the options by which the text is read, and how many machines
/// run.
#[derive(Drop)]
pub struct Case<'a> {
    pub program: &'static str,
    pub graph: String,
    pub options: &'a str,
    pub machines: u8,
}

/// The text of a graph: that of its name, or of lines that slashes end.
fn graph_of(alloc: Global, cell: &str) -> Result<String, AllocError> {
    match graph_named(cell) {
        Some(text) => String::from_str(alloc, text),
        None => plain(alloc, cell),
    }
}

/// The number that is the next cell.
pub fn number(cells: &mut Cells<'_>) -> Result<u64, Otherwise> {
    match cells.text().parse::<u64>() {
        Ok(number) => Ok(number),
        Err(_) => Err(Otherwise::Told("a cell has no number")),
    }
}

impl<'a> Case<'a> {
    /// The case of which the next four cells tell: the program, the graph, options and how many
    /// machines.
    pub fn read(alloc: Global, cells: &mut Cells<'a>) -> Result<Case<'a>, Otherwise> {
        let Some(program) = program_named(cells.text()) else {
            return Err(Otherwise::Told("no such program"));
        };
        let graph = graph_of(alloc, cells.text())?;
        let options = cells.text();
        match cells.byte() {
            Ok(machines) => Ok(Case {
                program,
                graph,
                options,
                machines,
            }),
            Err(_) => Err(Otherwise::Told("no number of machines")),
        }
    }

    /// A shelf with the program under `p` and the graph under `g`, which fails at these calls. The
    /// first call has been made.
    pub fn shelf(&self, alloc: Global, fails: Vec<u64>) -> Result<MemShelf, Otherwise> {
        shelf(alloc, self.program, &self.graph, fails)
    }

    /// These words with those for the options and the machines.
    pub fn line(&self, alloc: Global, words: &str) -> Result<String, AllocError> {
        line_by(alloc, words, self.options, self.machines)
    }
}

/// Words with those for options and so many machines.
pub fn line_by(
    alloc: Global,
    words: &str,
    options: &str,
    machines: u8,
) -> Result<String, AllocError> {
    format!(in alloc; "{words} --machines {machines} {options}")
}

/// A shelf with a program under `p` whose call 1 stored a graph under `g`, and that fails at these
/// calls.
pub fn shelf(
    alloc: Global,
    program: &str,
    graph: &str,
    fails: Vec<u64>,
) -> Result<MemShelf, Otherwise> {
    let bytes = Vec::from_slice(alloc, program.as_bytes())?;
    let file = (String::from_str(alloc, "p")?, bytes);
    let mut shelf = MemShelf::new(alloc, vec![in alloc; file]?, fails);
    put(&mut shelf, "g", graph.as_bytes())?;
    Ok(shelf)
}

/// Puts bytes under a name.
pub fn put(shelf: &mut MemShelf, name: &str, bytes: &[u8]) -> Result<(), Otherwise> {
    match shelf.store(name, bytes) {
        Ok(()) => Ok(()),
        Err(_) => Err(Otherwise::Told("a file isn't stored")),
    }
}

/// The most bytes of a file that a case reads, those of the longest schedule.
const LONGEST: u64 = 67_108_864;

/// The bytes under a name.
pub fn got(alloc: Global, shelf: &mut MemShelf, name: &str) -> Result<Vec<u8>, Otherwise> {
    match shelf.load(alloc, name, LONGEST) {
        Ok(bytes) => Ok(bytes),
        Err(_) => Err(Otherwise::Told("a file isn't there")),
    }
}

/// What a line prints that is done, with no note.
pub fn done<S: Restart>(
    alloc: Global,
    line: &str,
    shelf: &mut MemShelf,
    input: &mut MemSource,
) -> Result<String, Otherwise> {
    let outcome = performed::<S>(alloc, line, shelf, input, Vec::new(alloc))?;
    if outcome.status != Status::Done || !outcome.noted.bytes().is_empty() {
        return Err(Otherwise::Told("a line isn't done"));
    }
    let text = std::str::from_utf8(outcome.printed.bytes()).unwrap_or("no text");
    Ok(String::from_str(alloc, text)?)
}

/// What a line prints that is done with no note and takes nothing from the input.
pub fn told<S: Restart>(
    alloc: Global,
    line: &str,
    shelf: &mut MemShelf,
) -> Result<String, Otherwise> {
    let mut input = MemSource::new(Vec::new(alloc), Vec::new(alloc));
    done::<S>(alloc, line, shelf, &mut input)
}

/// The text under a name.
pub fn text_under(alloc: Global, shelf: &mut MemShelf, name: &str) -> Result<String, Otherwise> {
    let bytes = got(alloc, shelf, name)?;
    match std::str::from_utf8(&bytes) {
        Ok(text) => Ok(String::from_str(alloc, text)?),
        Err(_) => Err(Otherwise::Told("a file is no text")),
    }
}

/// Two texts must be the same.
pub fn same(text: &str, wanted: &str, what: &'static str) -> Result<(), Otherwise> {
    if text == wanted {
        Ok(())
    } else {
        Err(Otherwise::Told(what))
    }
}
