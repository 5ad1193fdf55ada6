//! Lines over files, an output, notes and an input of which each call fails once.

use crate::files::number;
use crate::pieces::Cut;
use crate::play::{Otherwise, Outcome};
use crate::scene::{Failing, NONE, Played, Scene};
use sample_programs::Cells;
use std::alloc::{AllocError, Global};

/// No line of a case makes as many calls.
const CALLS: u64 = 10_000;

/// The number of the status of what can't be written.
const WRITE_FAULT: u64 = 6;

/// The number of the status of what can't be read.
const READ_FAULT: u64 = 2;

/// Tells what is otherwise where a thing isn't so.
fn wants(is_so: bool, otherwise: &'static str) -> Result<(), Otherwise> {
    if is_so {
        Ok(())
    } else {
        Err(Otherwise::Told(otherwise))
    }
}

/// Whether a name is among those that blanks part.
fn has(names: &str, name: &str) -> bool {
    names.split_ascii_whitespace().any(|other| other == name)
}

/// Whether a line ended with the status of this number.
fn ended(outcome: &Outcome, status: u64) -> bool {
    u64::from(outcome.status.number()) == status
}

/// The note of a call that fails with this status, for a file of this name or the input.
fn note_of(alloc: Global, status: u64, name: &str) -> Result<String, AllocError> {
    if status == READ_FAULT {
        format!(in alloc; "symple: cannot read {name}\n")
    } else {
        String::from_str(alloc, "symple: cannot write\n")
    }
}

/// How a line ends where one of its calls fails: with this status, its note, and a first part of
/// what is printed where none fails.
fn check_ending(
    alloc: Global,
    whole: &Played,
    played: &Played,
    status: u64,
    name: &str,
) -> Result<(), Otherwise> {
    wants(
        ended(&played.outcome, status),
        "it ends with another status",
    )?;
    let note = note_of(alloc, status, name)?;
    wants(
        played.outcome.noted.bytes() == note.as_bytes(),
        "it has another note",
    )?;
    let (printed, all) = (
        played.outcome.printed.bytes(),
        whole.outcome.printed.bytes(),
    );
    wants(all.starts_with(printed), "it prints otherwise")
}

/// The line with no call failing: it ends with this status, with a note where it isn't 0, and
/// stores these files alone.
fn whole_of(
    alloc: Global,
    scene: &Scene<'_>,
    status: u64,
    stored: &str,
) -> Result<Played, Otherwise> {
    let whole = scene.played(alloc, NONE, Cut::Whole)?;
    wants(
        ended(&whole.outcome, status),
        "the whole has another status",
    )?;
    wants(
        whole.outcome.noted.bytes().is_empty() == (status == 0),
        "the whole has no such note",
    )?;
    for (file, before) in whole.files.iter().zip(scene.files.iter()) {
        let is_so = if has(stored, file.name) {
            file.bytes.is_some() && !file.is_as(before)
        } else {
            file.is_as(before)
        };
        wants(is_so, "the whole leaves other files")?;
    }
    Ok(whole)
}

/// A line of which no call failed after all is as the whole one.
fn check_same(whole: &Played, played: &Played) -> Result<(), Otherwise> {
    let (all, outcome) = (&whole.outcome, &played.outcome);
    wants(
        outcome.status == all.status,
        "it ends otherwise than the whole",
    )?;
    wants(
        outcome.printed.bytes() == all.printed.bytes()
            && outcome.noted.bytes() == all.noted.bytes(),
        "it tells otherwise than the whole",
    )?;
    for (file, other) in played.files.iter().zip(whole.files.iter()) {
        wants(file.is_as(other), "it leaves other files than the whole")?;
    }
    Ok(())
}

/// These files are stored, and all others are as before.
fn check_stored(
    scene: &Scene<'_>,
    whole: &Played,
    played: &Played,
    stored: &str,
) -> Result<(), Otherwise> {
    let all = scene.files.iter().zip(whole.files.iter());
    for (file, (before, behind)) in played.files.iter().zip(all) {
        let wanted = if has(stored, file.name) {
            behind
        } else {
            before
        };
        wants(file.is_as(wanted), "it leaves other files")?;
    }
    Ok(())
}

/// Each of these files is stored or as before, and all others are as before.
fn check_open(
    scene: &Scene<'_>,
    whole: &Played,
    played: &Played,
    stored: &str,
) -> Result<(), Otherwise> {
    let all = scene.files.iter().zip(whole.files.iter());
    for (file, (before, behind)) in played.files.iter().zip(all) {
        let is_stored = has(stored, file.name) && file.is_as(behind);
        wants(is_stored || file.is_as(before), "it leaves other files")?;
    }
    Ok(())
}

/// The names of the calls that are stores. The calls stand between commas, each a name with the
/// number of its status behind it.
fn stores_of(alloc: Global, calls: &str) -> Result<String, AllocError> {
    let mut stores = String::new(alloc);
    for call in calls.split(", ") {
        if let Some((name, status)) = call.split_once(' ') {
            if status == "6" {
                stores.push_str(name)?;
                stores.push(' ')?;
            }
        }
    }
    Ok(stores)
}

/// One call of the shelf fails, that of this name and status, and the files before it are stored.
fn check_call(
    alloc: Global,
    scene: &Scene<'_>,
    whole: &Played,
    call: u64,
    (name, status, stored): (&str, u64, &str),
) -> Result<(), Otherwise> {
    let played = scene.played(alloc, Failing { call, ..NONE }, Cut::Whole)?;
    check_ending(alloc, whole, &played, status, name)?;
    if status == READ_FAULT {
        let printed = played.outcome.printed.bytes();
        wants(printed.is_empty(), "it prints where a file isn't read")?;
    }
    check_stored(scene, whole, &played, stored)
}

/// Each call of the shelf fails once, in turn. How many calls there are.
fn check_calls(
    alloc: Global,
    scene: &Scene<'_>,
    whole: &Played,
    calls: &str,
) -> Result<u64, Otherwise> {
    let mut stored = String::new(alloc);
    let mut count = 0u64;
    for call in calls.split(", ") {
        if let Some((name, digit)) = call.split_once(' ') {
            count = count.saturating_add(1);
            let is_store = digit == "6";
            let status = if is_store { WRITE_FAULT } else { READ_FAULT };
            check_call(alloc, scene, whole, count, (name, status, &stored))?;
            if is_store {
                stored.push_str(name)?;
                stored.push(' ')?;
            }
        }
    }
    Ok(count)
}

/// Each call of the shelf fails once, and there are no others. The cells are the files, the line,
/// its status where none fails, and the calls: names with statuses, between commas.
pub fn shelf_fails(alloc: Global, cells: &mut Cells<'_>) -> Result<(), Otherwise> {
    let scene = Scene::read(alloc, cells)?;
    let status = number(cells)?;
    let calls = cells.text();
    let whole = whole_of(alloc, &scene, status, &stores_of(alloc, calls)?)?;
    let call = check_calls(alloc, &scene, &whole, calls)?.saturating_add(1);
    let played = scene.played(alloc, Failing { call, ..NONE }, Cut::Whole)?;
    wants(played.is_past, "it makes other calls")?;
    check_same(&whole, &played)
}

/// Each put of the output fails once. The cells are the files, the line and the files that it
/// stores.
pub fn puts_fail(alloc: Global, cells: &mut Cells<'_>) -> Result<(), Otherwise> {
    let scene = Scene::read(alloc, cells)?;
    let stored = cells.text();
    let whole = whole_of(alloc, &scene, 0, stored)?;
    for put in 1..CALLS {
        let played = scene.played(alloc, Failing { put, ..NONE }, Cut::Whole)?;
        if ended(&played.outcome, 0) {
            wants(put > 1, "it puts nothing")?;
            return check_same(&whole, &played);
        }
        check_ending(alloc, &whole, &played, WRITE_FAULT, "")?;
        check_open(&scene, &whole, &played, stored)?;
    }
    Err(Otherwise::Told("it puts without end"))
}

/// The first put of the notes fails. The cells are the files, the line and its status; for that of
/// what can't be written the first put of the output fails too.
pub fn notes_fail(alloc: Global, cells: &mut Cells<'_>) -> Result<(), Otherwise> {
    let scene = Scene::read(alloc, cells)?;
    let status = number(cells)?;
    let failing = Failing {
        put: u64::from(status == WRITE_FAULT),
        ..NONE
    };
    let whole = scene.played(alloc, failing, Cut::Whole)?;
    wants(
        ended(&whole.outcome, status),
        "the whole has another status",
    )?;
    wants(
        !whole.outcome.noted.bytes().is_empty(),
        "the whole has no note",
    )?;
    let played = scene.played(alloc, Failing { note: 1, ..failing }, Cut::Whole)?;
    wants(ended(&played.outcome, status), "a note changes the status")?;
    wants(played.outcome.noted.bytes().is_empty(), "it is noted")?;
    wants(
        played.outcome.printed.bytes() == whole.outcome.printed.bytes(),
        "a note changes the output",
    )?;
    check_stored(&scene, &whole, &played, "")
}

/// Each take of an input that is cut so fails once.
fn check_takes(
    alloc: Global,
    scene: &Scene<'_>,
    whole: &Played,
    cut: Cut,
) -> Result<(), Otherwise> {
    for take in 1..CALLS {
        let played = scene.played(alloc, Failing { take, ..NONE }, cut)?;
        if ended(&played.outcome, 0) {
            wants(take > 1, "it takes nothing")?;
            return check_same(whole, &played);
        }
        check_ending(alloc, whole, &played, READ_FAULT, "input")?;
        check_stored(scene, whole, &played, "")?;
    }
    Err(Otherwise::Told("it takes without end"))
}

/// Each take of the input fails once, where it comes whole and byte by byte. The cells are the
/// files, the line and the files that it stores.
pub fn takes_fail(alloc: Global, cells: &mut Cells<'_>) -> Result<(), Otherwise> {
    let scene = Scene::read(alloc, cells)?;
    let whole = whole_of(alloc, &scene, 0, cells.text())?;
    check_takes(alloc, &scene, &whole, Cut::Whole)?;
    check_takes(alloc, &scene, &whole, Cut::Bytes)
}
