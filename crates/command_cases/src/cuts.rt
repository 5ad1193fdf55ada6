//! Schedules that are cut behind each of their lines: what is played then, and what is missed.

use crate::files::{Case, number, put, text_under, told};
use crate::play::{Otherwise, Outcome, performed};
use crate::schedules::{Links, is_event, record_line, replay_line};
use command_steps::Status;
use machine_core::Core;
use outside::{MemShelf, MemSource};
use sample_programs::Cells;
use std::alloc::{AllocError, Global};

/// How many lines of a text are those of events.
fn count_events(text: &str) -> usize {
    let mut events = 0usize;
    for line in text.lines() {
        if is_event(line) {
            events = events.saturating_add(1);
        }
    }
    events
}

/// The text of bytes that a line wrote.
fn text_of(bytes: &[u8]) -> Result<&str, Otherwise> {
    match std::str::from_utf8(bytes) {
        Ok(text) => Ok(text),
        Err(_) => Err(Otherwise::Told("a line writes no text")),
    }
}

/// A schedule whose text is refused plays nothing.
fn check_refused(outcome: &Outcome, note: &str) -> Result<(), Otherwise> {
    if outcome.noted.bytes() != note.as_bytes() {
        return Err(Otherwise::Told("a refused text has another note"));
    }
    if outcome.printed.bytes().is_empty() {
        Ok(())
    } else {
        Err(Otherwise::Told("a refused text is played"))
    }
}

/// The events of a schedule that is cut are played, and nothing else: what the whole one prints
/// behind them. It begins with the next event.
fn rest_of<'a>(outcome: &Outcome, front: &str, whole: &'a str) -> Result<&'a str, Otherwise> {
    let printed = text_of(outcome.printed.bytes())?;
    let Some(rest) = whole.strip_prefix(printed) else {
        return Err(Otherwise::Told("a cut schedule prints otherwise"));
    };
    if count_events(printed) != count_events(front) {
        return Err(Otherwise::Told("a cut schedule plays other events"));
    }
    if is_event(rest) {
        Ok(rest)
    } else {
        Err(Otherwise::Told("a cut schedule doesn't print all that its events bring"))
    }
}

/// Whether the rest of a log has the take of a message, with the bytes of the message.
fn is_taken(alloc: Global, rest: &str, name: &str) -> Result<bool, AllocError> {
    let take = format!(in alloc; "take {name} ")?;
    for line in rest.lines() {
        if line.starts_with(&take) {
            return Ok(true);
        }
    }
    Ok(false)
}

/// Whether the rest of a log has a step of a machine.
fn is_gone(alloc: Global, rest: &str, machine: &str) -> Result<bool, AllocError> {
    let go = format!(in alloc; "go {machine}")?;
    for line in rest.lines() {
        if line == go.as_str() {
            return Ok(true);
        }
    }
    Ok(false)
}

/// Whether the note of a schedule that is cut names a message that is taken in the rest of the log,
/// or a machine that goes there. Over sure links no message is under way where a machine is named,
/// so the next event is a step.
fn is_lacking(alloc: Global, links: Links, note: &str, rest: &str) -> Result<bool, AllocError> {
    let Some(note) = note.strip_prefix("symple: schedule: ") else {
        return Ok(false);
    };
    if let Some(name) = note.strip_suffix(" was not taken\n") {
        return is_taken(alloc, rest, name);
    }
    let Some(step) = note.strip_suffix(" did not go\n") else {
        return Ok(false);
    };
    match step.strip_prefix("machine ") {
        Some(machine) if links == Links::Lossy || rest.starts_with("go ") => {
            is_gone(alloc, rest, machine)
        }
        _ => Ok(false),
    }
}

/// A run that isn't finished names what it lacks.
fn check_lacking(
    alloc: Global,
    links: Links,
    outcome: &Outcome,
    front: &str,
    whole: &str,
) -> Result<(), Otherwise> {
    let rest = rest_of(outcome, front, whole)?;
    if is_lacking(alloc, links, text_of(outcome.noted.bytes())?, rest)? {
        Ok(())
    } else {
        Err(Otherwise::Told("a note doesn't name what a cut schedule lacks"))
    }
}

/// What a schedule that is cut behind the line of this number comes to. With no line it has no
/// header; a round stands before a take alone, so one at the end is a bad line.
fn check_cut(
    alloc: Global,
    links: Links,
    outcome: &Outcome,
    front: &str,
    is_round: bool,
    number: u64,
    whole: &str,
) -> Result<(), Otherwise> {
    if outcome.status != Status::BadSchedule {
        return Err(Otherwise::Told("a cut schedule isn't refused"));
    }
    if number == 0 {
        return check_refused(outcome, "symple: schedule: line 1: bad header\n");
    }
    if is_round {
        let note = format!(in alloc; "symple: schedule: line {number}: bad line\n")?;
        return check_refused(outcome, &note);
    }
    check_lacking(alloc, links, outcome, front, whole)
}

/// Plays a schedule that is put under `c`.
fn replayed(
    alloc: Global,
    line: &str,
    shelf: &mut MemShelf,
    front: &str,
) -> Result<Outcome, Otherwise> {
    put(shelf, "c", front.as_bytes())?;
    let mut input = MemSource::new(Vec::new(alloc), Vec::new(alloc));
    performed::<Core>(alloc, line, shelf, &mut input, Vec::new(alloc))
}

/// A schedule is cut before each of its lines.
fn check_cuts(
    alloc: Global,
    links: Links,
    line: &str,
    shelf: &mut MemShelf,
    text: &str,
    whole: &str,
) -> Result<(), Otherwise> {
    let mut front = String::new(alloc);
    let mut is_round = false;
    let mut number = 0u64;
    for next in text.lines() {
        let outcome = replayed(alloc, line, shelf, &front)?;
        check_cut(alloc, links, &outcome, &front, is_round, number, whole)?;
        front.push_str(next)?;
        front.push('\n')?;
        is_round = next.starts_with("round ");
        number = number.saturating_add(1);
    }
    Ok(())
}

/// A case whose recorded schedule is cut.
fn check_case(alloc: Global, links: Links, cells: &mut Cells<'_>) -> Result<(), Otherwise> {
    let case = Case::read(alloc, cells)?;
    let seed = number(cells)?;
    let mut shelf = case.shelf(alloc, Vec::new(alloc))?;
    let record = record_line(alloc, &case, links, seed, "s")?;
    told::<Core>(alloc, &record, &mut shelf)?;
    let whole = told::<Core>(
        alloc,
        &replay_line(alloc, &case, "s --log --rounds")?,
        &mut shelf,
    )?;
    let text = text_under(alloc, &mut shelf, "s")?;
    let line = replay_line(alloc, &case, "c --log --rounds")?;
    check_cuts(alloc, links, &line, &mut shelf, &text, &whole)
}

/// A case of which the cells tell a program, a graph, options, how many machines and a seed: its
/// recorded schedule is cut behind each line.
pub fn cut(alloc: Global, cells: &mut Cells<'_>) -> Result<(), Otherwise> {
    check_case(alloc, Links::Sure, cells)
}

/// The same over links that lose and repeat.
pub fn lossy_cut(alloc: Global, cells: &mut Cells<'_>) -> Result<(), Otherwise> {
    check_case(alloc, Links::Lossy, cells)
}
