//! Texts that are written into sinks.

use super::doubles::row;
use array_text::{put_all, write_header, write_read_head, write_reads, write_round, write_row};
use instrument::{Split, split_of};
use program_reader::read_program;
use sample_programs::{Cells, plain};
use std::alloc::Global;
use std::test::Fail;
use symple_face::{DripSink, FirmSink, MemSink, Report, Sink, SinkFault};
use vert_base::{Ruling, VertexId};

/// A program with two ints and a bool.
static PROGRAM: &str = "vertex 1;
mode dense;
limit 1;
field dist: int = 0;
field parent: int = 0;
field alive: bool = true;
start true;
dense when true { for u { } }
update { }
";

/// The ids and words of rows, and their lines.
static ROWS: &str = "\
0 | 0 -1 1 | 0 0 -1 true
2097151 | 9223372036854775807 -9223372036854775808 0 | \
2097151 9223372036854775807 -9223372036854775808 false";

static TABLE: &str = "vertex dist parent alive
0 0 -1 true
2097151 9223372036854775807 -9223372036854775808 false
";

fn split(alloc: Global) -> Result<Split, Fail> {
    match read_program(alloc, PROGRAM.as_bytes()) {
        Ok(typed) => Ok(split_of(typed)),
        Err(_) => Err(Fail::from("no program")),
    }
}

fn write_table<S: Sink>(split: &Split, sink: &mut S) -> Result<(), Fail> {
    write_header(split, sink)?;
    for line in ROWS.lines() {
        let mut cells = Cells::new(line);
        let v = VertexId(cells.number()?);
        write_row(split, v, &row(cells.text(), true)?, sink)?;
    }
    Ok(())
}

#[test]
fn tables_in_whole_pieces_and_byte_by_byte(rt: HostRuntime) -> Result<(), Fail> {
    let split = split(rt.alloc())?;
    let mut whole = FirmSink::new(rt.alloc(), 128)?;
    write_table(&split, &mut whole)?;
    assert_eq!(rt; whole.bytes(), TABLE.as_bytes());
    let mut drip = DripSink::new(rt.alloc(), 128)?;
    write_table(&split, &mut drip)?;
    assert_eq!(rt; drip.bytes(), TABLE.as_bytes());
    Ok(())
}

#[test]
fn reads_of_two_machines(rt: HostRuntime) -> Result<(), Fail> {
    let mut drip = DripSink::new(rt.alloc(), 64)?;
    write_read_head(10_000, VertexId(2_097_151), &mut drip)?;
    write_reads(&[VertexId(3), VertexId(12)], &mut drip)?;
    write_reads(&[], &mut drip)?;
    write_reads(&[VertexId(0)], &mut drip)?;
    assert_eq!(rt; drip.bytes(), b"read 10000 2097151 3 12 0".as_slice());
    Ok(())
}

/// Lines of rounds.
static ROUNDS: &str = "\
round 1 dense 1 2 4/
round 1 sparse 1 2 4/
round 1 stop 1 2 4/";

#[test]
fn rounds_and_faults(rt: HostRuntime) -> Result<(), Fail> {
    let rulings = [Ruling::Dense, Ruling::Sparse, Ruling::Stop];
    for (ruling, line) in rulings.into_iter().zip(ROUNDS.lines()) {
        let report = Report {
            round: 1,
            ruling,
            active: 1,
            edges: 2,
            reads: 4,
        };
        let mut drip = DripSink::new(rt.alloc(), 32)?;
        write_round(&report, &mut drip)?;
        assert_eq!(rt; drip.bytes(), plain(rt.alloc(), line)?.as_bytes());
        let mut fails = MemSink::new(rt.alloc(), 32, vec![in rt.alloc(); 3]?)?;
        assert_eq!(rt; write_round(&report, &mut fails), Err(SinkFault));
        assert_eq!(rt; fails.bytes(), b"round 1".as_slice());
    }
    let mut small = FirmSink::new(rt.alloc(), 3)?;
    assert_eq!(rt; put_all(&mut small, b"abcd"), Err(SinkFault));
    assert_eq!(rt; put_all(&mut small, b"abc"), Ok(()));
    Ok(())
}
