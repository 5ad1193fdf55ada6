//! Runs that stop at a store of an image, and `resume` behind them.

use crate::files::{Case, got, line_by, number, put, told};
use crate::play::{Otherwise, Outcome, performed};
use command_steps::Status;
use machine_core::Core;
use outside::{MemShelf, MemSource};
use sample_programs::Cells;
use std::alloc::{AllocError, Global};

/// The words of the unbroken run, of the run that leaves images, and of what goes on from them.
pub static RUN: &str = "run p g --draws 7 --rounds --reads";

pub static IMAGED: &str = "run p g --draws 7 --rounds --reads --image i";

static RESUME: &str = "resume p g i --draws 7 --rounds --reads";

/// Runs that leave images with another key, with how many machines more they have: of the program
/// with a line end more, over the graph with a line end more, from other draws, by other machines.
static FOREIGN: [(&str, u8); 4] = [
    ("run q g --draws 7 --image i", 0),
    ("run p h --draws 7 --image i", 0),
    ("run p g --draws 8 --image i", 0),
    ("run p g --draws 7 --image i", 1),
];

/// The first calls of the shelf of a run: the graph is put there, and the program and the graph are
/// loaded.
const CALLS_BEFORE: u64 = 3;

/// The name under which the image of a round stands.
pub fn name_of(round: u64) -> &'static str {
    if round % 2 == 0 { "i.0" } else { "i.1" }
}

/// How the line of a round begins.
fn head_of(alloc: Global, round: u64) -> Result<String, AllocError> {
    format!(in alloc; "round {round} ")
}

/// Whether a text is what a whole run prints from a round on. Where no round took place, that is
/// all.
fn is_rest(text: &str, whole: &str, head: &str) -> bool {
    match whole.split_once(head) {
        Some((_, behind)) => match text.strip_prefix(head) {
            Some(rest) => rest == behind,
            None => false,
        },
        None => text == whole && !whole.starts_with("round "),
    }
}

/// Whether bytes are what a whole run prints before a round.
fn is_front(bytes: &[u8], whole: &str, head: &str) -> bool {
    match whole.split_once(head) {
        Some((before, _)) => bytes == before.as_bytes(),
        None => false,
    }
}

/// How many rounds a run prints.
fn count_rounds(whole: &str) -> u64 {
    let mut rounds = 0u64;
    for line in whole.lines() {
        if line.starts_with("round ") {
            rounds = rounds.saturating_add(1);
        }
    }
    rounds
}

/// What `resume` prints over a shelf must be what the whole run prints from a round on.
pub fn check_resume(
    alloc: Global,
    case: &Case<'_>,
    shelf: &mut MemShelf,
    whole: &str,
    round: u64,
) -> Result<(), Otherwise> {
    let line = case.line(alloc, RESUME)?;
    let text = told::<Core>(alloc, &line, shelf)?;
    let head = head_of(alloc, round)?;
    if is_rest(&text, whole, &head) {
        Ok(())
    } else {
        Err(Otherwise::Told("resume doesn't print the rest of the run"))
    }
}

/// A run that leaves images prints what it prints without them, and what goes on behind it prints
/// the last round: the last image is that of the round before it. The shelf that it leaves.
fn unstopped(
    alloc: Global,
    case: &Case<'_>,
    whole: &str,
    rounds: u64,
) -> Result<MemShelf, Otherwise> {
    let mut shelf = case.shelf(alloc, Vec::new(alloc))?;
    let line = case.line(alloc, IMAGED)?;
    let text = told::<Core>(alloc, &line, &mut shelf)?;
    if text.as_str() != whole {
        return Err(Otherwise::Told("a run prints otherwise with images"));
    }
    check_resume(alloc, case, &mut shelf, whole, rounds.max(1))?;
    Ok(shelf)
}

/// A run whose store fails ends so, having printed what stands before a round.
fn check_stopped(
    alloc: Global,
    outcome: &Outcome,
    whole: &str,
    next: u64,
) -> Result<(), Otherwise> {
    if outcome.status != Status::WriteFault {
        return Err(Otherwise::Told("a store that fails doesn't stop the run"));
    }
    if outcome.noted.bytes() != b"symple: cannot write\n".as_slice() {
        return Err(Otherwise::Told("a store that fails isn't noted"));
    }
    let head = head_of(alloc, next)?;
    if is_front(outcome.printed.bytes(), whole, &head) {
        Ok(())
    } else {
        Err(Otherwise::Told("a stopped run doesn't print what stands before its store"))
    }
}

/// The shelf that a run leaves whose store of a round's image fails.
fn stopped_at(
    alloc: Global,
    case: &Case<'_>,
    whole: &str,
    round: u64,
) -> Result<MemShelf, Otherwise> {
    let mut fails = Vec::new(alloc);
    fails.push(round.saturating_add(CALLS_BEFORE))?;
    let mut shelf = case.shelf(alloc, fails)?;
    let line = case.line(alloc, IMAGED)?;
    let mut input = MemSource::new(Vec::new(alloc), Vec::new(alloc));
    let outcome = performed::<Core>(alloc, &line, &mut shelf, &mut input, Vec::new(alloc))?;
    check_stopped(alloc, &outcome, whole, round.saturating_add(1))?;
    Ok(shelf)
}

/// The image of a round that the whole run stores: it stands there until the store behind the next
/// one.
fn image_of(
    alloc: Global,
    case: &Case<'_>,
    whole: &str,
    rounds: u64,
    round: u64,
) -> Result<Vec<u8>, Otherwise> {
    let next = round.saturating_add(1);
    let mut shelf = if next < rounds {
        stopped_at(alloc, case, whole, next)?
    } else {
        unstopped(alloc, case, whole, rounds)?
    };
    got(alloc, &mut shelf, name_of(round))
}

/// A text with a line end more.
fn longer(alloc: Global, text: &str) -> Result<String, AllocError> {
    format!(in alloc; "{text}\n")
}

/// The shelf that a run with another key leaves.
fn foreign_shelf(
    alloc: Global,
    case: &Case<'_>,
    words: &str,
    more: u8,
) -> Result<MemShelf, Otherwise> {
    let mut shelf = case.shelf(alloc, Vec::new(alloc))?;
    put(&mut shelf, "q", longer(alloc, case.program)?.as_bytes())?;
    put(&mut shelf, "h", longer(alloc, &case.graph)?.as_bytes())?;
    let machines = case.machines.saturating_add(more);
    let line = line_by(alloc, words, case.options, machines)?;
    told::<Core>(alloc, &line, &mut shelf)?;
    Ok(shelf)
}

/// What is left under the name whose store failed is no image of the run. So the run goes on from
/// the image before it, if there is one, with the round of that store.
fn check_left(
    alloc: Global,
    case: &Case<'_>,
    shelf: &mut MemShelf,
    whole: &str,
    round: u64,
    left: &[u8],
) -> Result<(), Otherwise> {
    put(shelf, name_of(round), left)?;
    check_resume(alloc, case, shelf, whole, round)
}

/// Images of other runs in the place of the one whose store failed.
fn check_foreign(
    alloc: Global,
    case: &Case<'_>,
    shelf: &mut MemShelf,
    whole: &str,
    round: u64,
) -> Result<(), Otherwise> {
    for (words, more) in FOREIGN {
        let mut others = foreign_shelf(alloc, case, words, more)?;
        let image = got(alloc, &mut others, name_of(round))?;
        check_left(alloc, case, shelf, whole, round, &image)?;
    }
    Ok(())
}

/// A run that is stopped at the store of a round's image. Under its name stands in turn what stood
/// there before, half of the image, nothing, and images of other runs; then the image, from which
/// the next round follows.
fn check_stop(
    alloc: Global,
    case: &Case<'_>,
    whole: &str,
    rounds: u64,
    round: u64,
) -> Result<(), Otherwise> {
    let mut shelf = stopped_at(alloc, case, whole, round)?;
    check_resume(alloc, case, &mut shelf, whole, round)?;
    let image = image_of(alloc, case, whole, rounds, round)?;
    let half = image.as_slice().split_at(image.len() / 2).0;
    check_left(alloc, case, &mut shelf, whole, round, half)?;
    check_left(alloc, case, &mut shelf, whole, round, b"")?;
    check_foreign(alloc, case, &mut shelf, whole, round)?;
    put(&mut shelf, name_of(round), &image)?;
    check_resume(alloc, case, &mut shelf, whole, round.saturating_add(1))
}

/// A case of which the cells tell a program, a graph, options, how many machines and how many
/// rounds there are: its run is stopped at each store of an image, and goes on from what it left.
pub fn stopped(alloc: Global, cells: &mut Cells<'_>) -> Result<(), Otherwise> {
    let case = Case::read(alloc, cells)?;
    let rounds = number(cells)?;
    let mut shelf = case.shelf(alloc, Vec::new(alloc))?;
    let line = case.line(alloc, RUN)?;
    let whole = told::<Core>(alloc, &line, &mut shelf)?;
    if count_rounds(&whole) != rounds {
        return Err(Otherwise::Told("another number of rounds"));
    }
    unstopped(alloc, &case, &whole, rounds)?;
    for round in 1..rounds {
        check_stop(alloc, &case, &whole, rounds, round)?;
    }
    Ok(())
}
