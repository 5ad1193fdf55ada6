//! Machines that run alone, each over what it took by the log of a whole run.

use crate::files::{Case, got, put, told};
use crate::pieces::{Cut, in_pieces};
use crate::play::{Otherwise, performed};
use command_steps::Status;
use machine_core::Core;
use outside::{MemShelf, MemSource, Source};
use sample_programs::Cells;
use std::alloc::{AllocError, Global};

/// The action of a machine that sends a message, in the order of a round. To tell is as to close
/// round 0, and what a judge rules is of the round that it begins.
#[derive(Clone, Copy, PartialEq, Eq, PartialOrd, Ord)]
enum Action {
    Judge,
    Begin,
    Scan,
    Close,
}

/// Where a message stands among those that its sender sends. A scan sends its update before the
/// state of its loop, and a begin or a judge sends to one machine after the other.
#[derive(Clone, Copy, PartialEq, Eq, PartialOrd, Ord)]
struct Turn {
    round: u32,
    action: Action,
    step: u8,
    half: u8,
    is_state: bool,
    to: u8,
}

/// A message of a log, as its bytes.
#[derive(Drop)]
struct Logged {
    turn: Turn,
    from: u8,
    bytes: Vec<u8>,
}

/// The action that sends a message, by the number of its kind.
fn action_of(kind: u8) -> Option<Action> {
    match kind {
        1 | 4 => Some(Action::Begin),
        2 | 3 => Some(Action::Scan),
        5 => Some(Action::Close),
        6 => Some(Action::Judge),
        _ => None,
    }
}

/// The turn and the sender that a header tells: the kind, the round in four bytes, the step, the
/// half, the sender and the receiver.
fn head_of(bytes: &[u8]) -> Option<(Turn, u8)> {
    let [kind, low, second, third, high, step, half, from, to, ..] = bytes else {
        return None;
    };
    let turn = Turn {
        round: u32::from_le_bytes([*low, *second, *third, *high]),
        action: action_of(*kind)?,
        step: *step,
        half: *half,
        is_state: *kind == 2,
        to: *to,
    };
    Some((turn, *from))
}

/// The message that bytes are.
fn message_of(bytes: Vec<u8>) -> Result<Logged, Otherwise> {
    let Some((turn, from)) = head_of(&bytes) else {
        return Err(Otherwise::Told("a message has no header"));
    };
    Ok(Logged { turn, from, bytes })
}

/// The messages of a log, in the order in which they were taken.
fn messages_of(alloc: Global, log: &str) -> Result<Vec<Logged>, Otherwise> {
    let mut messages = Vec::new(alloc);
    for line in log.lines() {
        if let Some(event) = line.strip_prefix("take ") {
            let digits = event.split(' ').last().unwrap_or("");
            let Ok(bytes) = hex::decode(alloc, digits) else {
                return Err(Otherwise::Told("a message isn't in base 16"));
            };
            messages.push(message_of(bytes)?)?;
        }
    }
    Ok(messages)
}

/// The messages that a machine took, one behind the other.
fn taken_by(alloc: Global, messages: &[Logged], machine: u8) -> Result<Vec<u8>, AllocError> {
    let mut bytes = Vec::new(alloc);
    for message in messages {
        if message.turn.to == machine {
            bytes.extend_from_slice(&message.bytes)?;
        }
    }
    Ok(bytes)
}

/// The messages that a machine sent, one behind the other.
fn sent_by(alloc: Global, messages: &[Logged], machine: u8) -> Result<Vec<u8>, AllocError> {
    let mut bytes = Vec::new(alloc);
    for message in messages {
        if message.from == machine {
            bytes.extend_from_slice(&message.bytes)?;
        }
    }
    Ok(bytes)
}

/// What a log tells but for its events: the table.
fn table_of(alloc: Global, log: &str) -> Result<String, AllocError> {
    let mut table = String::new(alloc);
    for line in log.lines() {
        if !line.starts_with("go ") && !line.starts_with("take ") {
            table.push_str(line)?;
            table.push_str("\n")?;
        }
    }
    Ok(table)
}

/// The first vertex of a machine's chunk and the one behind its last, by the plan, whose first
/// lines tell of chunks.
fn chunk_of(plan: &str, machine: u8) -> Option<(usize, usize)> {
    let line = plan.lines().nth(usize::from(machine))?;
    let (_, ends) = line.strip_prefix("chunk ")?.split_once(' ')?;
    let (start, end) = ends.split_once(' ')?;
    Some((start.parse::<usize>().ok()?, end.parse::<usize>().ok()?))
}

/// The lines of a table that are of a chunk. The machine 0 has the header too.
fn rows_of(
    alloc: Global,
    table: &str,
    machine: u8,
    chunk: (usize, usize),
) -> Result<String, AllocError> {
    let (start, end) = chunk;
    let mut rows = String::new(alloc);
    let mut lines = table.lines();
    let header = lines.next().unwrap_or("");
    if machine == 0 {
        rows.push_str(header)?;
        rows.push_str("\n")?;
    }
    for line in lines.skip(start).take(end.saturating_sub(start)) {
        rows.push_str(line)?;
        rows.push_str("\n")?;
    }
    Ok(rows)
}

/// A machine that runs alone: its number, what it takes with a byte more behind it, what it sends,
/// and its rows.
#[derive(Drop)]
struct Alone {
    machine: u8,
    input: Vec<u8>,
    sent: Vec<u8>,
    rows: String,
}

impl Alone {
    /// Runs it over its input in pieces. It must leave the byte that is no message's.
    fn check(&self, alloc: Global, shelf: &mut MemShelf, cut: Cut) -> Result<(), Otherwise> {
        put(shelf, "rows", b"of another run")?;
        let mut input = MemSource::new(in_pieces(alloc, &self.input, cut)?, Vec::new(alloc));
        let line = format!(in alloc; "worker w.{} rows", self.machine)?;
        let outcome = performed::<Core>(alloc, &line, shelf, &mut input, Vec::new(alloc))?;
        if outcome.status != Status::Done || !outcome.noted.bytes().is_empty() {
            return Err(Otherwise::Told("a worker isn't done"));
        }
        if outcome.printed.bytes() != self.sent.as_slice() {
            return Err(Otherwise::Told("a worker doesn't write what its machine sent"));
        }
        self.check_left(alloc, shelf, &mut input)
    }

    /// What it leaves: its rows, and of its input the last byte.
    fn check_left(
        &self,
        alloc: Global,
        shelf: &mut MemShelf,
        input: &mut MemSource,
    ) -> Result<(), Otherwise> {
        let rows = got(alloc, shelf, "rows")?;
        if rows.as_slice() != self.rows.as_bytes() {
            return Err(Otherwise::Told("a worker doesn't store the rows of its chunk"));
        }
        let mut left = [0u8; 2];
        match input.take(&mut left) {
            Ok(1) => Ok(()),
            _ => Err(Otherwise::Told("a worker doesn't read what its machine took")),
        }
    }
}

/// What a whole run tells of its machines: the messages in the order in which they were taken and
/// in that in which each machine sent them, the table, and the plan.
#[derive(Drop)]
struct Whole {
    taken: Vec<Logged>,
    sent: Vec<Logged>,
    table: String,
    plan: String,
}

impl Whole {
    /// That of a case.
    fn of(alloc: Global, case: &Case<'_>, shelf: &mut MemShelf) -> Result<Whole, Otherwise> {
        let log = told::<Core>(alloc, &case.line(alloc, "run p g --draws 7 --log")?, shelf)?;
        let plan = told::<Core>(alloc, &case.line(alloc, "plan g")?, shelf)?;
        let mut sent = messages_of(alloc, &log)?;
        sent.sort_by_key(|message| message.turn)?;
        Ok(Whole {
            taken: messages_of(alloc, &log)?,
            sent,
            table: table_of(alloc, &log)?,
            plan,
        })
    }

    /// What it tells of a machine alone.
    fn alone(&self, alloc: Global, machine: u8) -> Result<Alone, Otherwise> {
        let Some(chunk) = chunk_of(&self.plan, machine) else {
            return Err(Otherwise::Told("a machine has no chunk"));
        };
        let mut input = taken_by(alloc, &self.taken, machine)?;
        input.push(255)?;
        Ok(Alone {
            machine,
            input,
            sent: sent_by(alloc, &self.sent, machine)?,
            rows: rows_of(alloc, &self.table, machine, chunk)?,
        })
    }
}

/// A machine alone, over an input that comes whole, byte by byte and in pieces of drawn sizes.
fn check_alone(alloc: Global, shelf: &mut MemShelf, alone: &Alone) -> Result<(), Otherwise> {
    alone.check(alloc, shelf, Cut::Whole)?;
    alone.check(alloc, shelf, Cut::Bytes)?;
    for seed in 1..=4 {
        alone.check(alloc, shelf, Cut::Drawn(seed))?;
    }
    Ok(())
}

/// A case of which the cells tell a program, a graph, options and how many machines there are: each
/// machine alone does what it did among the others, and the rows of all are the table.
pub fn machines_alone(alloc: Global, cells: &mut Cells<'_>) -> Result<(), Otherwise> {
    let case = Case::read(alloc, cells)?;
    let mut shelf = case.shelf(alloc, Vec::new(alloc))?;
    let whole = Whole::of(alloc, &case, &mut shelf)?;
    let printed = told::<Core>(
        alloc,
        &case.line(alloc, "split p g w --draws 7")?,
        &mut shelf,
    )?;
    if !printed.is_empty() {
        return Err(Otherwise::Told("split prints something"));
    }
    let mut rows = String::new(alloc);
    for machine in 0..case.machines {
        let alone = whole.alone(alloc, machine)?;
        check_alone(alloc, &mut shelf, &alone)?;
        rows.push_str(&alone.rows)?;
    }
    if rows.as_str() != whole.table.as_str() {
        return Err(Otherwise::Told("the rows of all machines aren't the table"));
    }
    Ok(())
}
