//! Runs whose order of delivery is drawn: recorded, played again, and written in another form.

use crate::files::{Case, got, number, put, same, text_under, told};
use crate::play::{Otherwise, performed};
use command_steps::Status;
use machine_core::Core;
use outside::{MemShelf, MemSource};
use sample_programs::Cells;
use std::alloc::{AllocError, Global};

/// The words of the run in the plain order.
static RUN: &str = "run p g --draws 7 --rounds --reads";

/// How the lines of events begin, in schedules and in logs.
static EVENTS: [&str; 6] = ["go ", "take ", "lose ", "again ", "ack ", "drop "];

/// Over which links a run is recorded.
#[derive(Clone, Copy, PartialEq, Eq)]
pub enum Links {
    /// Each message arrives once.
    Sure,
    /// Messages are lost and repeated.
    Lossy,
}

impl Links {
    /// The option of `record`.
    fn option(self) -> &'static str {
        match self {
            Links::Sure => "",
            Links::Lossy => "--lossy",
        }
    }

    /// The form of the schedule that `record` stores.
    fn form(self) -> u8 {
        match self {
            Links::Sure => 2,
            Links::Lossy => 3,
        }
    }
}

/// A line that records the run of a case under a name.
pub fn record_line(
    alloc: Global,
    case: &Case<'_>,
    links: Links,
    seed: u64,
    words: &str,
) -> Result<String, AllocError> {
    let option = links.option();
    let words = format!(in alloc; "record p g {words} --draws 7 --seed {seed} {option}")?;
    case.line(alloc, &words)
}

/// A line that plays the run of a case by a schedule.
pub fn replay_line(alloc: Global, case: &Case<'_>, words: &str) -> Result<String, AllocError> {
    let options = case.options;
    format!(in alloc; "replay p g {words} --draws 7 {options}")
}

/// Whether a line of a schedule or of what is printed is that of an event.
pub fn is_event(line: &str) -> bool {
    for head in EVENTS {
        if line.starts_with(head) {
            return true;
        }
    }
    false
}

/// The lines of a text that aren't those of events.
fn without_events(alloc: Global, text: &str) -> Result<String, AllocError> {
    let mut rest = String::new(alloc);
    for line in text.lines() {
        if !is_event(line) {
            rest.push_str(line)?;
            rest.push('\n')?;
        }
    }
    Ok(rest)
}

/// The run is recorded under `s` and played again: both print what `run` prints.
fn check_table(
    alloc: Global,
    case: &Case<'_>,
    shelf: &mut MemShelf,
    links: Links,
    seed: u64,
) -> Result<String, Otherwise> {
    let table = told::<Core>(alloc, &case.line(alloc, RUN)?, shelf)?;
    let line = record_line(alloc, case, links, seed, "s --rounds --reads")?;
    let recorded = told::<Core>(alloc, &line, shelf)?;
    same(&recorded, &table, "record doesn't print what run prints")?;
    let line = replay_line(alloc, case, "s --rounds --reads")?;
    let replayed = told::<Core>(alloc, &line, shelf)?;
    same(&replayed, &table, "replay doesn't print what run prints")?;
    Ok(table)
}

/// What was recorded begins with its header.
fn check_header(alloc: Global, text: &str, form: u8, machines: u8) -> Result<(), Otherwise> {
    let header = format!(in alloc; "schedule {form} machines {machines}\n")?;
    if text.starts_with(&header) {
        Ok(())
    } else {
        Err(Otherwise::Told("another header"))
    }
}

/// The run is recorded under `l` with a log and played again: both print the same, the table with
/// the events among its lines. The log.
fn check_log(
    alloc: Global,
    case: &Case<'_>,
    shelf: &mut MemShelf,
    links: Links,
    seed: u64,
    table: &str,
) -> Result<String, Otherwise> {
    let line = record_line(alloc, case, links, seed, "l --rounds --reads --log")?;
    let log = told::<Core>(alloc, &line, shelf)?;
    let line = replay_line(alloc, case, "l --rounds --reads --log")?;
    let replayed = told::<Core>(alloc, &line, shelf)?;
    same(&replayed, &log, "replay doesn't log what record logs")?;
    same(
        &without_events(alloc, &log)?,
        table,
        "a log changes the table",
    )?;
    Ok(log)
}

/// Whether a line of a log is that of an event: a take has the bytes of its message behind it.
fn is_logged(line: &str, event: &str) -> bool {
    match line.strip_prefix(event) {
        Some(rest) => rest.is_empty() || event.starts_with("take ") && rest.starts_with(' '),
        None => false,
    }
}

/// The events of a log are those of a schedule with whole names, in turn.
fn check_events(log: &str, schedule: &str) -> Result<(), Otherwise> {
    let mut events = schedule.lines();
    events.next();
    for line in log.lines() {
        if !is_event(line) {
            continue;
        }
        match events.next() {
            Some(event) if is_logged(line, event) => {}
            _ => return Err(Otherwise::Told("a log has other events")),
        }
    }
    match events.next() {
        Some(_) => Err(Otherwise::Told("a log lacks events")),
        None => Ok(()),
    }
}

/// Adds the line of form 1 for a line of an event of form 2 whose message, if there is one, belongs
/// to a round.
fn push_event(alloc: Global, text: &mut String, line: &str, round: u64) -> Result<(), AllocError> {
    let mut words = line.splitn(3, ' ');
    let (event, kind) = (words.next().unwrap_or(""), words.next().unwrap_or(""));
    text.push_str(event)?;
    text.push(' ')?;
    text.push_str(kind)?;
    if let Some(places) = words.next() {
        text.push_str(&format!(in alloc; " {round} {places}")?)?;
    }
    text.push('\n')
}

/// The text of form 1 of the events of a text of form 2.
fn form_one(alloc: Global, text: &str, machines: u8) -> Result<String, AllocError> {
    let mut lines = text.lines();
    lines.next();
    let mut one = format!(in alloc; "schedule 1 machines {machines}\n")?;
    let mut round = 0u64;
    for line in lines {
        match line.strip_prefix("round ") {
            Some(number) => round = number.parse::<u64>().unwrap_or(0),
            None => push_event(alloc, &mut one, line, round)?,
        }
    }
    Ok(one)
}

/// `renew` writes the schedule under a name as this text.
fn check_renewed(
    alloc: Global,
    shelf: &mut MemShelf,
    name: &str,
    wanted: &str,
) -> Result<(), Otherwise> {
    let line = format!(in alloc; "renew {name} t")?;
    same(
        &told::<Core>(alloc, &line, shelf)?,
        "",
        "renew prints something",
    )?;
    let renewed = text_under(alloc, shelf, "t")?;
    same(&renewed, wanted, "a schedule is renewed otherwise")
}

/// A schedule of form 1 plays the events of this log, and is renewed as the text of form 2.
fn check_form_one(
    alloc: Global,
    case: &Case<'_>,
    shelf: &mut MemShelf,
    one: &str,
    two: &str,
    log: &str,
) -> Result<(), Otherwise> {
    put(shelf, "o", one.as_bytes())?;
    let line = replay_line(alloc, case, "o --rounds --reads --log")?;
    let replayed = told::<Core>(alloc, &line, shelf)?;
    same(&replayed, log, "form 1 is replayed otherwise")?;
    check_renewed(alloc, shelf, "o", two)
}

/// `renew` reads no schedule of form 3, and stores nothing then.
fn check_not_renewed(alloc: Global, shelf: &mut MemShelf) -> Result<(), Otherwise> {
    let mut input = MemSource::new(Vec::new(alloc), Vec::new(alloc));
    let outcome = performed::<Core>(alloc, "renew s t", shelf, &mut input, Vec::new(alloc))?;
    if outcome.status != Status::BadSchedule || !outcome.printed.bytes().is_empty() {
        return Err(Otherwise::Told("form 3 is renewed"));
    }
    if outcome.noted.bytes() != b"symple: schedule: line 1: bad header\n".as_slice() {
        return Err(Otherwise::Told("the form isn't noted"));
    }
    match got(alloc, shelf, "t") {
        Ok(_) => Err(Otherwise::Told("renew stores something")),
        Err(_) => Ok(()),
    }
}

/// A case of which the cells tell a program, a graph, options, how many machines and a seed: its
/// run is recorded, replayed and renewed, and written in form 1 where so many machines have it.
pub fn recorded(alloc: Global, cells: &mut Cells<'_>) -> Result<(), Otherwise> {
    let case = Case::read(alloc, cells)?;
    let seed = number(cells)?;
    let mut shelf = case.shelf(alloc, Vec::new(alloc))?;
    let table = check_table(alloc, &case, &mut shelf, Links::Sure, seed)?;
    let log = check_log(alloc, &case, &mut shelf, Links::Sure, seed, &table)?;
    let two = text_under(alloc, &mut shelf, "s")?;
    check_header(alloc, &two, Links::Sure.form(), case.machines)?;
    same(
        &text_under(alloc, &mut shelf, "l")?,
        &two,
        "a log changes the schedule",
    )?;
    check_renewed(alloc, &mut shelf, "s", &two)?;
    let one = form_one(alloc, &two, case.machines)?;
    check_events(&log, &one)?;
    if case.machines > 16 {
        return Ok(());
    }
    check_form_one(alloc, &case, &mut shelf, &one, &two, &log)
}

/// A case with the same cells: its run is recorded over links that lose and repeat, and replayed.
pub fn lossy(alloc: Global, cells: &mut Cells<'_>) -> Result<(), Otherwise> {
    let case = Case::read(alloc, cells)?;
    let seed = number(cells)?;
    let mut shelf = case.shelf(alloc, Vec::new(alloc))?;
    let table = check_table(alloc, &case, &mut shelf, Links::Lossy, seed)?;
    let log = check_log(alloc, &case, &mut shelf, Links::Lossy, seed, &table)?;
    let three = text_under(alloc, &mut shelf, "s")?;
    check_header(alloc, &three, Links::Lossy.form(), case.machines)?;
    same(
        &text_under(alloc, &mut shelf, "l")?,
        &three,
        "a log changes the schedule",
    )?;
    check_events(&log, &three)?;
    check_not_renewed(alloc, &mut shelf)
}
