//! One line of words, performed over files and streams in memory.

use command_steps::Status;
use outside::{MemShelf, MemSink, MemSource};
use std::alloc::{AllocError, AllocFailed, Global};
use std::fmt;
use symple_face::Restart;
use symple_run::symple;
use vert_base::Want;

/// What was otherwise than a case says.
#[derive(Debug, Drop)]
pub enum Otherwise {
    Want,
    Told(&'static str),
}

impl fmt::Display for Otherwise {
    fn fmt<W: fmt::Write>(&self, out: &mut fmt::Formatter<W>) -> fmt::Result {
        match self {
            Otherwise::Want => out.write_str("memory was wanted"),
            Otherwise::Told(what) => out.write_str(what),
        }
    }
}

impl From<AllocError> for Otherwise {
    fn from(_error: AllocError) -> Otherwise {
        Otherwise::Want
    }
}

impl<T: Drop> From<AllocFailed<T>> for Otherwise {
    fn from(_error: AllocFailed<T>) -> Otherwise {
        Otherwise::Want
    }
}

impl From<Want> for Otherwise {
    fn from(_error: Want) -> Otherwise {
        Otherwise::Want
    }
}

/// The words of a line, which spaces part.
fn words(alloc: Global, line: &str) -> Result<Vec<String>, AllocError> {
    let mut words = Vec::new(alloc);
    for word in line.split_ascii_whitespace() {
        words.push(String::from_str(alloc, word)?)?;
    }
    Ok(words)
}

/// What a line came to: its status, what it printed and what it noted.
#[derive(Drop)]
pub struct Outcome {
    pub status: Status,
    pub printed: MemSink,
    pub noted: MemSink,
}

/// The most bytes that a case prints.
const ROOM: usize = 4_000_000;

/// Performs a line by machines of the kind `S`, over an output that fails at these puts.
pub fn performed<S: Restart>(
    alloc: Global,
    line: &str,
    shelf: &mut MemShelf,
    input: &mut MemSource,
    fails: Vec<u64>,
) -> Result<Outcome, Otherwise> {
    performed_noting::<S>(alloc, line, shelf, input, fails, Vec::new(alloc))
}

/// Performs a line by machines of the kind `S`, over an output and notes that fail at these puts.
pub fn performed_noting<S: Restart>(
    alloc: Global,
    line: &str,
    shelf: &mut MemShelf,
    input: &mut MemSource,
    fails: Vec<u64>,
    note_fails: Vec<u64>,
) -> Result<Outcome, Otherwise> {
    let words = words(alloc, line)?;
    let mut printed = MemSink::new(alloc, ROOM, fails)?;
    let mut noted = MemSink::new(alloc, 4_000, note_fails)?;
    let status = symple::<S, _, _, _, _>(alloc, &words, shelf, input, &mut printed, &mut noted);
    Ok(Outcome {
        status,
        printed,
        noted,
    })
}
