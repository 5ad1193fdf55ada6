//! The files that stand before a line, and the line performed over them while calls fail.

use crate::files::{put, shelf, told};
use crate::pieces::{Cut, in_pieces};
use crate::play::{Otherwise, Outcome, performed_noting};
use machine_core::Core;
use outside::{LoadFault, MemShelf, MemSource, Shelf};
use sample_programs::{BFS, Cells, DIAMOND};
use std::alloc::{AllocError, Global};

/// The lines that make the files of all cases from the program `p` and the graph `g`.
static MAKING: &str = "\
record p g s --machines 2 --seed 1
record p g l --machines 2 --seed 1 --lossy
run p g --machines 2 --image i
split p g w --machines 2";

/// A schedule whose second event can't happen: machine 0 waits for the other's tally.
static BAD: &str = "schedule 2 machines 2\ngo 0\ngo 0\n";

/// The names under which a case looks for files, and those that a line stores.
static NAMES: &str = "p g s l b i.0 i.1 w.0 w.1 t t.0 t.1 rows";

/// The most bytes of a file.
const LIMIT: u64 = 1_000_000;

/// The calls that fail, by their numbers from 1. None fails where the number is 0.
#[derive(Clone, Copy)]
pub struct Failing {
    pub call: u64,
    pub put: u64,
    pub note: u64,
    pub take: u64,
}

/// No call fails.
pub const NONE: Failing = Failing {
    call: 0,
    put: 0,
    note: 0,
    take: 0,
};

/// What stands under a name.
#[derive(Drop)]
pub struct Standing {
    pub name: &'static str,
    pub bytes: Option<Vec<u8>>,
}

impl Standing {
    /// Whether the same bytes stand there, or none.
    pub fn is_as(&self, other: &Standing) -> bool {
        match (&self.bytes, &other.bytes) {
            (Some(bytes), Some(others)) => bytes.as_slice() == others.as_slice(),
            (None, None) => true,
            _ => false,
        }
    }
}

/// What a line came to, what stood under each name behind it, and whether the call of the shelf
/// that was to fail was the first that the line didn't make.
#[derive(Drop)]
pub struct Played {
    pub outcome: Outcome,
    pub files: Vec<Standing>,
    pub is_past: bool,
}

/// A line, the files before it, and what comes in at it.
#[derive(Drop)]
pub struct Scene<'a> {
    line: &'a str,
    pub files: Vec<Standing>,
    input: Vec<u8>,
}

/// What stands under a name of a shelf.
fn look_at(alloc: Global, shelf: &mut MemShelf, name: &'static str) -> Result<Standing, Otherwise> {
    let bytes = match shelf.load(alloc, name, LIMIT) {
        Ok(bytes) => Some(bytes),
        Err(LoadFault::Missing) => None,
        Err(_) => return Err(Otherwise::Told("a file isn't read")),
    };
    Ok(Standing { name, bytes })
}

/// What stands under each name of a shelf.
fn all_standing(alloc: Global, shelf: &mut MemShelf) -> Result<Vec<Standing>, Otherwise> {
    let mut files = Vec::new(alloc);
    for name in NAMES.split(' ') {
        files.push(look_at(alloc, shelf, name)?)?;
    }
    Ok(files)
}

/// A shelf with all files that a case can name.
fn made(alloc: Global) -> Result<MemShelf, Otherwise> {
    let mut shelf = shelf(alloc, BFS, DIAMOND, Vec::new(alloc))?;
    for line in MAKING.lines() {
        told::<Core>(alloc, line, &mut shelf)?;
    }
    put(&mut shelf, "b", BAD.as_bytes())?;
    Ok(shelf)
}

/// The files, of which those without these names are taken away.
fn keep(files: &mut Vec<Standing>, names: &str) {
    for file in files.iter_mut() {
        if !names.split(' ').any(|name| name == file.name) {
            file.bytes = None;
        }
    }
}

/// The messages that machine 0 takes by a log, one behind the other.
fn taken_by_the_first(alloc: Global, log: &str) -> Result<Vec<u8>, Otherwise> {
    let mut bytes = Vec::new(alloc);
    for line in log.lines() {
        if let Some(event) = line.strip_prefix("take ") {
            let digits = event.split(' ').last().unwrap_or("");
            let Ok(message) = hex::decode(alloc, digits) else {
                return Err(Otherwise::Told("a message isn't in base 16"));
            };
            if message.get(8) == Some(&0) {
                bytes.extend_from_slice(&message)?;
            }
        }
    }
    Ok(bytes)
}

/// The number of a call that fails, as the double takes it.
fn at(alloc: Global, number: u64) -> Result<Vec<u64>, AllocError> {
    let numbers = vec![in alloc; number]?;
    Ok(numbers)
}

impl<'a> Scene<'a> {
    /// The scene of which the next two cells tell: the names of the files, and the line. What comes
    /// in are the messages that machine 0 of two takes.
    pub fn read(alloc: Global, cells: &mut Cells<'a>) -> Result<Scene<'a>, Otherwise> {
        let mut shelf = made(alloc)?;
        let log = told::<Core>(alloc, "run p g --machines 2 --log", &mut shelf)?;
        let mut files = all_standing(alloc, &mut shelf)?;
        keep(&mut files, cells.text());
        Ok(Scene {
            line: cells.text(),
            files,
            input: taken_by_the_first(alloc, &log)?,
        })
    }

    /// A shelf with its files, at whose call of this number from now on it fails.
    fn shelf(&self, alloc: Global, call: u64) -> Result<MemShelf, Otherwise> {
        let there = self
            .files
            .iter()
            .filter(|file| file.bytes.is_some())
            .count();
        let number = match call {
            0 => 0,
            _ => call.saturating_add(there as u64),
        };
        let mut shelf = MemShelf::new(alloc, Vec::new(alloc), at(alloc, number)?);
        for file in &self.files {
            if let Some(bytes) = &file.bytes {
                put(&mut shelf, file.name, bytes)?;
            }
        }
        Ok(shelf)
    }

    /// Performs the line while these calls fail, over an input that is cut so.
    pub fn played(&self, alloc: Global, failing: Failing, cut: Cut) -> Result<Played, Otherwise> {
        let mut shelf = self.shelf(alloc, failing.call)?;
        let pieces = in_pieces(alloc, &self.input, cut)?;
        let mut input = MemSource::new(pieces, at(alloc, failing.take)?);
        let outcome = performed_noting::<Core>(
            alloc,
            self.line,
            &mut shelf,
            &mut input,
            at(alloc, failing.put)?,
            at(alloc, failing.note)?,
        )?;
        let is_past = matches!(shelf.load(alloc, "", 0), Err(LoadFault::Failed));
        Ok(Played {
            outcome,
            files: all_standing(alloc, &mut shelf)?,
            is_past,
        })
    }
}
