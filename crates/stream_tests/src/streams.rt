//! One machine over a stream: what it writes and how it ends, however its input is cut.

use crate::files::{add_bytes, file_of};
use machine_core::Core;
use sample_programs::{Cells, program_named};
use std::alloc::{AllocError, Global};
use std::process::Abort;
use std::test::Fail;
use symple_face::{MemSink, MemSource, Part, Source};
use worker_stream::{ServeFault, forms_are_short, read_part, serve, steps_are_enough};

/// The tallies that the machine sends before the first round: of two active vertices, and of none.
static TALLIES: &str = "\
first0 | 05000000000000010018000000 0200000000000000 0100000000000000 0000000000000000
bfs | 05000000000000010018000000 0000000000000000 0000000000000000 0000000000000000";

/// The program, the input, how the machine ends, and what it writes behind its first tally. An end that isn't a
/// refusal tells how many bytes are left.
static CASES: &str = "\
first0 | 0601000000000000010100000000 | over 0 |
first0 | 0601000000000000010100000000 ff00 | over 2 |
first0 | 0601000000000000010100000000 0601000000000000010100000000 | over 14 |
first0 | | M6 verdict 1 0 1 |
first0 | 06 | M1 at 0 |
first0 | 060100 | M1 at 0 |
first0 | 060100000000000001010000 | M1 at 0 |
first0 | 06010000000000000101000000 | M1 at 0 |
first0 | 00010000000000000101000000 00 | M2 at 0 |
first0 | 07010000000000000101000000 00 | M2 at 0 |
first0 | 07010000000000000101000000 | M2 at 0 |
first0 | ff010000000000000101000000 00 | M2 at 0 |
first0 | 01010000000000000100000000 | M3 at 0 |
first0 | 02010000000000000101000000 02 | M3 at 0 |
first0 | 03010000000000000100000000 | M3 at 0 |
first0 | 04010000000000000100000000 | M3 at 0 |
first0 | 05010000000000010018000000 | M3 at 0 |
first0 | 05000000000000000118000000 | M3 at 0 |
first0 | 06000000000000000101000000 00 | M3 at 0 |
first0 | 06020000000000000101000000 00 | M3 at 0 |
first0 | 06010000000000010001000000 00 | M3 at 0 |
first0 | 06010000000000000001000000 00 | M3 at 0 |
first0 | 06010000000000000201000000 00 | M3 at 0 |
first0 | 06010000000001000101000000 00 | M3 at 0 |
first0 | 06010000000100000101000000 00 | M3 at 0 |
first0 | 06010000000001000101000000 ff | M3 at 0 |
first0 | 06010000000000000102000000 | M4 at 0 |
first0 | 060100000000000001ffffffff 00 | M4 at 0 |
first0 | 06010000000000000101000000 01 | M4 at 0 |
first0 | 06010000000000000101000000 02 | M4 at 0 |
first0 | 06010000000000000101000000 03 | M4 at 0 |
first0 | 06010000000000000100000000 | M4 at 0 |
first0 | 05000000000000010018000000 000000000000000000000000000000000000000000000000 | M5 at 0 |
bfs | 06010000000000000101000000 00 | over 0 |
bfs | 06010000000000000101000000 00 07 | over 1 |
bfs | 06020000000000000101000000 01 | M5 at 0 |
bfs | 06650000000000000101000000 00 | M5 at 0 |
bfs | 06660000000000000101000000 00 | M3 at 0 |
bfs | 06010000000000000101000000 03 | M4 at 0 |
bfs | 06650000000000000101000000 01 | M4 at 0 |
bfs | 06010000000000000101000000 02 | M6 push 1 0 1 | 04010000000000010000000000
bfs | 06010000000000000101000000 02 0601000000000000010100000002 | M5 at 14 | 04010000000000010000000000
bfs | 06010000000000000101000000 02 06 | M1 at 14 | 04010000000000010000000000
bfs | 06010000000000000101000000 02 04010000000000000101000000 | M1 at 14 | 04010000000000010000000000
bfs | 06010000000000000101000000 02 04010000000000000101000000 04 | M4 at 14 | 04010000000000010000000000
bfs | 06010000000000000101000000 02 04010000000000000101000000 01 | M4 at 14 | 04010000000000010000000000
bfs | 06010000000000000101000000 02 04010000000000000112000000 | M4 at 14 | 04010000000000010000000000
bfs | 06010000000000000101000000 02 04000000000000000101000000 00 | M3 at 14 | 04010000000000010000000000
bfs | 06010000000000000101000000 02 04650000000000000101000000 00 | M3 at 14 | 04010000000000010000000000
bfs | 06010000000000000101000000 02 04010000000100000101000000 00 | M3 at 14 | 04010000000000010000000000
bfs | 06010000000000000101000000 02 02010000000100000101000000 00 | M3 at 14 | 04010000000000010000000000
bfs | 06010000000000000101000000 02 02010000000002000101000000 00 | M3 at 14 | 04010000000000010000000000
bfs | 06010000000000000101000000 02 03010000000000010000000000 | M5 at 14 | 04010000000000010000000000
bfs | 06010000000000000101000000 02 04010000000000010000000000 | M5 at 14 | 04010000000000010000000000
bfs | 06010000000000000101000000 02 04020000000000000101000000 00 | M5 at 14 | 04010000000000010000000000
bfs | 06010000000000000101000000 02 01010000000000000100000000 01010000000000000100000000 | M5 at 27 | 04010000000000010000000000
bfs | 06010000000000000101000000 02 04010000000000000101000000 00 | M6 verdict 2 0 1 | \
04010000000000010000000000 05010000000000010018000000 000000000000000000000000000000000000000000000000
bfs | 06010000000000000101000000 02 04010000000000000101000000 00 06020000000000000101000000 00 | over 0 | \
04010000000000010000000000 05010000000000010018000000 000000000000000000000000000000000000000000000000
bfs | 04010000000000000101000000 00 06010000000000000101000000 02 | M6 verdict 2 0 1 | \
04010000000000010000000000 05010000000000010018000000 000000000000000000000000000000000000000000000000";

/// The input in pieces of so many bytes.
fn in_pieces(alloc: Global, bytes: &[u8], size: usize) -> Result<Vec<Vec<u8>>, AllocError> {
    let mut pieces = Vec::new(alloc);
    for at in 0..bytes.len() {
        if size != 0 && at % size == 0 {
            let end = bytes.len().min(at.saturating_add(size));
            pieces.push(Vec::from_slice(alloc, &bytes[at..end])?)?;
        }
    }
    Ok(pieces)
}

fn part_of(alloc: Global, program: &str) -> Result<Part, Fail> {
    let text = program_named(program).ok_or("no program")?;
    match read_part(alloc, &file_of(alloc, text, "0")?) {
        Ok(part) => Ok(part),
        Err(_) => Err(Fail::from("no part")),
    }
}

/// How many bytes a source has left.
fn count_left(input: &mut MemSource) -> usize {
    let mut count = 0usize;
    let mut into = [0u8; 64];
    for _ in 0..1_000 {
        match input.take(&mut into) {
            Ok(0) | Err(_) => return count,
            Ok(more) => count = count.saturating_add(more),
        }
    }
    count
}

fn end_of(
    alloc: Global,
    served: Result<Core, ServeFault>,
    input: &mut MemSource,
) -> Result<String, AllocError> {
    match served {
        Ok(_) => {
            let left = count_left(input);
            format!(in alloc; "over {left}")
        }
        Err(ServeFault::Message { code, at }) => format!(in alloc; "M{code} at {at}"),
        Err(ServeFault::Ended(name)) => {
            let kind = name.kind.word();
            let word = str::from_utf8(kind).unwrap_or("");
            let (round, from, to) = (name.round, name.from, name.to);
            format!(in alloc; "M6 {word} {round} {from} {to}")
        }
        Err(ServeFault::Source) => format!(in alloc; "source"),
        Err(ServeFault::Sink) => format!(in alloc; "sink"),
        Err(ServeFault::Want) => format!(in alloc; "want"),
    }
}

/// What the machine writes behind its first tally.
fn tally_of(alloc: Global, program: &str) -> Result<Vec<u8>, AllocError> {
    let mut bytes = Vec::new(alloc);
    for line in TALLIES.lines() {
        let mut cells = Cells::new(line);
        if cells.is(program) {
            add_bytes(&mut bytes, cells.text())?;
        }
    }
    Ok(bytes)
}

fn serve_case(rt: &impl Abort, alloc: Global, case: &str, size: usize) -> Result<(), Fail> {
    let mut cells = Cells::new(case);
    let program = cells.text();
    let mut bytes = Vec::new(alloc);
    add_bytes(&mut bytes, cells.text())?;
    let wanted = cells.text();
    let mut text = tally_of(alloc, program)?;
    add_bytes(&mut text, cells.text())?;
    let mut input = MemSource::new(in_pieces(alloc, &bytes, size)?, Vec::new(alloc));
    let mut out = MemSink::new(alloc, 1_000, Vec::new(alloc)).map_err(|_| "no memory")?;
    let served = serve::<Core, MemSource, MemSink>(
        alloc,
        part_of(alloc, program)?,
        &mut input,
        &mut out,
    );
    let end = end_of(alloc, served, &mut input)?;
    assert_eq!(rt; end.as_str(), wanted, "{case}");
    assert_eq!(rt; out.bytes(), text.as_slice(), "{case}");
    Ok(())
}

#[test]
fn streams_whole_and_in_pieces(rt: HostRuntime) -> Result<(), Fail> {
    for case in CASES.lines() {
        for size in [1_000, 1, 7, 13] {
            serve_case(&rt, rt.alloc(), case, size)?;
        }
    }
    forms_are_short();
    steps_are_enough::<Core>();
    Ok(())
}

/// How many takes a whole run has whose input comes in pieces of five bytes: each one ends where a piece, a header or a
/// body does.
const TAKES: u64 = 14;

/// Serves a whole run where a take and a put fail, 0 for none, and tells the end.
fn serve_failing(alloc: Global, take: u64, put: u64) -> Result<(String, usize), Fail> {
    let mut bytes = Vec::new(alloc);
    add_bytes(
        &mut bytes,
        "06010000000000000101000000 02 04010000000000000101000000 00",
    )?;
    add_bytes(&mut bytes, "06020000000000000101000000 00")?;
    let fails = vec![in alloc; take; 1]?;
    let mut input = MemSource::new(in_pieces(alloc, &bytes, 5)?, fails);
    let fails = vec![in alloc; put; 1]?;
    let mut out = MemSink::new(alloc, 1_000, fails).map_err(|_| "no memory")?;
    let part = part_of(alloc, "bfs")?;
    let served = serve::<Core, MemSource, MemSink>(alloc, part, &mut input, &mut out);
    let end = end_of(alloc, served, &mut input)?;
    Ok((end, out.bytes().len()))
}

#[test]
fn streams_that_fail(rt: HostRuntime) -> Result<(), Fail> {
    let alloc = rt.alloc();
    for call in 1..=TAKES {
        let (end, _) = serve_failing(alloc, call, 0)?;
        assert_eq!(rt; end.as_str(), "source", "{call}");
    }
    let (end, _) = serve_failing(alloc, TAKES + 1, 0)?;
    assert_eq!(rt; end.as_str(), "over 0");
    for (put, written) in [(1u64, 0usize), (2, 37), (3, 50)] {
        let (end, len) = serve_failing(alloc, 0, put)?;
        assert_eq!(rt; end.as_str(), "sink", "{put}");
        assert_eq!(rt; len, written, "{put}");
    }
    let (end, len) = serve_failing(alloc, 0, 4)?;
    assert_eq!(rt; end.as_str(), "over 0");
    assert_eq!(rt; len, 87);
    Ok(())
}
