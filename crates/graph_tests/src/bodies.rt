//! Bodies of messages: ring states, rows, updates, sends, tallies and verdicts.

ghost use Rattle.std.specs.Prelude.{◌≤◌};

use super::bytes::bytes_of;
use dep_layout::{DepState, Mark, by_width, fits_ring, pack, unpack};
use dep_message::{bounded_bodies, fits};
use sample_programs::Cells;
use std::alloc::{AllocError, Global};
use std::test::Fail;
use symple_face::BodyShape;

/// The words of a vertex, the vertices, the Bools, the bytes, and then the states or the fault.
static RING: &str = "\
0 | 1 | 0 | 02 | states broken
0 | 1 | 0 | 03 | Bits
0 | 1 | 0 | 04 | Padding
0 | 1 | 0 | | Length
1 | 1 | 1 | 010200000000000000 | NotBool
1 | 1 | 1 | 010100000000000000 | states running 1
0 | 0 | 0 | | states
0 | 5 | 0 | 2402 | states fresh running broken fresh broken
0 | 5 | 0 | 24 | Length
0 | 5 | 0 | 240200 | Length
0 | 5 | 0 | 2406 | Padding
0 | 1 | 0 | 07 | Bits
1 | 1 | 0 | 05 | Padding
1 | 1 | 0 | 01 | Length
1 | 1 | 0 | | Length
1 | 1 | 1 | 00 | states fresh 0
1 | 2 | 0 | 060100000000000000ffffffffffffffff | states broken 1 running -1
2 | 1 | 2 | 0105000000000000000100000000000000 | states running 5 1
2 | 1 | 1 | 0105000000000000000100000000000000 | NotBool
2 | 1 | 2 | 0105000000000000000100000000000001 | NotBool
8 | 1 | 128 | 0200000000000000000000000000000000000000000000000000000000000000000000000000000000000000000000000000000000000000000100000000000000 | states broken 0 0 0 0 0 0 0 1
8 | 1 | 128 | 0200000000000000000000000000000000000000000000000000000000000000000000000000000000000000000000000000000000000000000200000000000000 | NotBool";

/// The form: its kind and its three numbers; the bytes, and whether they fit.
static BODIES: &str = "\
refresh | 0 | 2 | 0 | | fits
refresh | 1 | 1 | 1 | 0100000000000000 | fits
refresh | 1 | 1 | 1 | 0200000000000000 | no
refresh | 1 | 1 | 0 | 0200000000000000 | fits
refresh | 1 | 1 | 1 | 01000000000000 | no
refresh | 1 | 1 | 1 | 010000000000000000 | no
refresh | 0 | 1 | 1 | 00 | no
refresh | 1 | 2 | 2 | 02000000000000000100000000000000 | fits
refresh | 1 | 2 | 2 | 02000000000000000200000000000000 | no
refresh | 2 | 1 | 1 | 0100000000000000ffffffffffffffff | no
refresh | 2 | 1 | 1 | 01000000000000000000000000000000 | fits
refresh | 1 | 1 | 1 | 0100000000000001 | no
refresh | 1 | 3 | 4 | ffffffffffffffffffffffffffffffff0100000000000000 | fits
refresh | 2 | 3 | 4 | ffffffffffffffffffffffffffffffff0100000000000000 | no
dep | 1 | 0 | 0 | 02 | fits
dep | 1 | 0 | 0 | 01 | fits
dep | 1 | 0 | 0 | 03 | no
dep | 1 | 0 | 0 | 04 | no
dep | 1 | 0 | 0 | | no
dep | 1 | 0 | 0 | 0200 | no
dep | 1 | 1 | 0 | 01 | no
dep | 1 | 1 | 1 | 010200000000000000 | no
dep | 1 | 1 | 1 | 010100000000000000 | fits
update | 1 | 1 | 0 | 01000000000000000000 | fits
update | 1 | 1 | 0 | 0000 | fits
update | 1 | 1 | 0 | 02000000000000000000 | no
update | 1 | 1 | 0 | 00010000000000000000 | no
update | 1 | 1 | 1 | 00010700000000000000 | fits
update | 1 | 8 | 0 | 80000000000000000000 | fits
update | 1 | 9 | 0 | 80000000000000000000 | fits
update | 1 | 7 | 0 | 80000000000000000000 | no
update | 1 | 1 | 0 | 010000000000000000 | no
update | 1 | 1 | 0 | 0100000000000000000000 | no
update | 1 | 1 | 0 | 01 | no
update | 1 | 1 | 0 | | no
update | 0 | 1 | 0 | | fits
update | 0 | 1 | 0 | 00 | no
update | 2 | 1 | 0 | 0000 | no
update | 2 | 1 | 0 | 00000000 | fits
update | 2 | 1 | 0 | 010000000000000000000000 | fits
update | 2 | 1 | 0 | 010000000000000000000200 | no
update | 1 | 2 | 0 | 030001000000000000000200000000000000 | fits
update | 1 | 2 | 0 | 03000100000000000000 | no
update | 1 | 8 | 8 | 00800000000000000000 | fits
update | 1 | 8 | 7 | 00800000000000000000 | no
update | 1 | 0 | 0 | 01000000000000000000 | no
push | 1 | 1 | 0 | 010300000000000000 | fits
push | 1 | 1 | 0 | 00 | fits
push | 1 | 1 | 0 | 02 | no
push | 1 | 1 | 0 | 80 | no
push | 1 | 1 | 0 | 0300000000000000000000000000000000 | no
push | 1 | 1 | 0 | 01 | no
push | 1 | 1 | 0 | | no
push | 1 | 0 | 0 | 01 | fits
push | 8 | 0 | 0 | ff | fits
push | 8 | 0 | 0 | ff00 | no
push | 9 | 0 | 0 | ff | no
push | 9 | 0 | 0 | ff01 | fits
push | 9 | 0 | 0 | ff02 | no
push | 9 | 0 | 0 | ff03 | no
push | 2 | 1 | 1 | 020100000000000000 | fits
push | 2 | 1 | 1 | 020200000000000000 | no
push | 2 | 1 | 1 | 030100000000000000 | no
push | 0 | 1 | 0 | | fits
push | 0 | 1 | 0 | 00 | no
tally | 0 | 0 | 0 | 000000000000000000000000000000000000000000000000 | fits
tally | 1 | 0 | 0 | 0100000000000000000000000000000000000000000000000100000000000000 | fits
tally | 0 | 0 | 0 | 0100000000000000000000000000000000000000000000000100000000000000 | no
tally | 1 | 0 | 0 | 000000000000000000000000000000000000000000000000 | no
tally | 0 | 0 | 0 | 000000000100000000000000000000000000000000000000 | fits
tally | 0 | 0 | 0 | 010000000100000000000000000000000000000000000000 | no
tally | 0 | 0 | 0 | 000000000000000001000000010000000000000000000000 | no
tally | 0 | 0 | 0 | 000000000000000000000000000000000100000001000000 | no
tally | 0 | 0 | 0 | 0000000000000000000000000000000000000000000000 | no
tally | 1 | 0 | 0 | 000000000000000000000000000000000000000000000000ffffffffffffffff | fits
verdict | 1 | 0 | 1 | 010300000000000000 | fits
verdict | 0 | 1 | 1 | 010300000000000000 | no
verdict | 1 | 0 | 0 | 02 | no
verdict | 0 | 0 | 0 | 00 | fits
verdict | 0 | 0 | 0 | 01 | no
verdict | 0 | 0 | 0 | 02 | no
verdict | 1 | 1 | 0 | 03 | no
verdict | 1 | 1 | 0 | 01 | fits
verdict | 1 | 1 | 0 | 02 | fits
verdict | 1 | 1 | 0 | | no
verdict | 1 | 1 | 0 | 0100 | no
verdict | 1 | 1 | 1 | 01 | no
verdict | 1 | 1 | 0 | ff | no
verdict | 0 | 1 | 0 | 02 | fits";

/// The form, and how many bytes its longest body has.
static LONGEST: &str = "\
refresh | 3 | 2 | 2 | 48
dep | 5 | 1 | 0 | 42
update | 2 | 1 | 9 | 148
push | 9 | 1 | 1 | 74
tally | 1 | 0 | 0 | 32
verdict | 1 | 0 | 0 | 1";

/// The text of ring states.
fn states_told<const W: usize>(
    alloc: Global,
    states: &[DepState<W>],
) -> Result<String, AllocError> {
    let mut text = String::from_str(alloc, "states")?;
    for state in states {
        match state.mark {
            Mark::Fresh => text.push_str(" fresh")?,
            Mark::Running => text.push_str(" running")?,
            Mark::Broken => text.push_str(" broken")?,
        }
        for word in &state.words.at {
            write!(text, " {word}")?;
        }
    }
    Ok(text)
}

/// What a body is read as, where it is written again.
fn told<const W: usize>(
    alloc: Global,
    body: &[u8],
    vertices: u32,
    bools: u8,
) -> Result<String, AllocError>
    requires { W ≤ 8 }
{
    match unpack::<W>(alloc, body, vertices, bools) {
        Ok(states) => match pack(alloc, &states) {
            Ok(again) if again.as_slice() == body => states_told(alloc, &states),
            _ => String::from_str(alloc, "written otherwise"),
        },
        Err(fault) => format!(in alloc; "{fault:?}"),
    }
}

/// What a body is read as at the width that a number names.
fn told_at(
    alloc: Global,
    width: u8,
    body: &[u8],
    vertices: u32,
    bools: u8,
) -> Result<String, AllocError> {
    by_width!(width, told::<_>(alloc, body, vertices, bools), else String::from_str(alloc, "too wide"))
}

#[test]
fn ring_states(rt: HostRuntime) -> Result<(), Fail> {
    let alloc = rt.alloc();
    for line in RING.lines() {
        let mut cells = Cells::new(line);
        let width = cells.byte()?;
        let vertices = cells.number()?;
        let bools = cells.byte()?;
        let body = bytes_of(alloc, cells.text())?;
        let wanted = cells.text();
        let found = told_at(alloc, width, &body, vertices, bools)?;
        assert_eq!(rt; found.as_str(), wanted, "{line}");
        let suits = wanted.starts_with("states");
        assert_eq!(rt; fits_ring(&body, vertices, width, bools), suits, "{line}");
    }
    dep_layout::one_spelling();
    Ok(())
}

/// The form in the next four cells.
fn shape_at(cells: &mut Cells) -> Result<BodyShape, Fail> {
    let kind = cells.text();
    let vertices = cells.number()?;
    let words = cells.byte()?;
    let bools = cells.byte()?;
    Ok(match kind {
        "refresh" => BodyShape::Refresh {
            vertices,
            words,
            bools: u32::from(bools),
        },
        "dep" => BodyShape::Dep {
            vertices,
            words,
            bools,
        },
        "update" => BodyShape::Update {
            vertices,
            slots: words,
            reduced: bools,
        },
        "push" => BodyShape::Push {
            vertices,
            words,
            bools,
        },
        "tally" => BodyShape::Tally {
            totals: u8::try_from(vertices)?,
        },
        _ => BodyShape::Verdict {
            dense: vertices == 1,
            sparse: words == 1,
            totals: bools,
        },
    })
}

#[test]
fn bodies(rt: HostRuntime) -> Result<(), Fail> {
    for line in BODIES.lines() {
        let mut cells = Cells::new(line);
        let shape = shape_at(&mut cells)?;
        let body = bytes_of(rt.alloc(), cells.text())?;
        assert_eq!(rt; fits(&shape, &body), cells.is("fits"), "{line}");
    }
    for line in LONGEST.lines() {
        let mut cells = Cells::new(line);
        let shape = shape_at(&mut cells)?;
        assert_eq!(rt; shape.longest(), u64::from(cells.number()?), "{line}");
    }
    bounded_bodies();
    Ok(())
}
