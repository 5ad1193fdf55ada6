//! Source runs: rows, rounds and reads, by the trees of programs and by their code.

use super::engine::{Job, run_by_code};
use super::programs::{code_of, edges, numbers, plain_run, split};
use plain_run::PlainRun;
use sample_programs::{Cells, program_named};
use std::alloc::{AllocError, Global};
use std::process::Abort;
use std::test::Fail;
use vert_base::{Row, Ruling};

/// A program, its graph, the ends of the chunks, and what a run is: its rounds, each with its ruling,
/// its active vertices and edges and the reads at each vertex, and then the words of each row.
static ROUNDS: &str = "\
first | 0 1/2 1/3 1/1 0/ | 4 | dense 4 4 [1] [0] [] [] / 1 0 -1 -1
first | 0 1/2 1/3 1/1 0/ | 2 4 | dense 4 4 [1] [2] [] [] / 1 2 -1 -1
first0 | 0 1/2 1/3 1/1 0/ | 2 4 | / -1 -1 -1 -1
halve | 0 1/1 2/ | 1 2 3 | dense 3 2 [] [0] [1] dense 3 2 [] [0] [1] / 0 0 1
pushed | 0 1/2 1/3 1/1 0/ | 2 4 | sparse 4 4 [] [] [] [] / 1 5 -1 -1";

/// A program, its graph, the ends of the chunks, and the words of the last rows.
static ROWS: &str = "\
bfs | 0 1/0 2/1 3/2 3 | 4 | 0 -1 1 0 1 0 2 1
bfs | 0 1/0 2/1 3/2 3 | 2 4 | 0 -1 1 0 1 0 2 1
bfs | 0 1/0 2/1 3/2 3 | 2 3 4 | 0 -1 1 0 1 0 2 1
k | 0 1/1 0/1 2/2 1/0 2/2 0/0 3/3 0 | 4 | 1 1 1 0
k | 0 1/1 0/1 2/2 1/0 2/2 0/0 3/3 0 | 2 3 4 | 1 1 1 0
first | 0 1/2 1/3 1/1 0 | 4 | 1 0 -1 -1
first | 0 1/2 1/3 1/1 0 | 2 4 | 1 2 -1 -1
first0 | 0 1/0 2/1 3/2 3 | 2 4 | -1 -1 -1 -1
heavy | 2 1 4/0 1 9/0 1 5 | 3 | -1 9 -1
heavy | 2 1 4/0 1 9/0 1 5 | 2 3 | -1 4 -1
sum | 0 1 5/1 2 7/2 0 -3/0 2 4 | 1 2 3 | -3 5 11
sum | 0 1/0 2/1 3/2 3 | 4 | 0 1 1 2
wrap | 0 2/1 2 | 1 2 3 | 9223372036854775807 1 -9223372036854775808
zero | 0 1 | 1 2 | 0 1
sample | 0 1 | 2 | -1 0
sample | 0 1/2 1/3 1/1 0 | 4 | 1 2 -1 -1
sample | 0 1/2 1/3 1/1 0 | 2 4 | 1 3 -1 -1
halve | 0 1/1 2 | 3 | 0 0 1
halve | 0 1/1 2 | 1 2 3 | 0 0 1";

/// A program that only sends.
static PUSHED: &str = "vertex 1; mode sparse; limit 1;
field pick: int = -1;
slot seen: sum;
start true;
sparse when true { send from: int = id; emit seen from; }
update { if seen.got { pick = seen.value; } }
";

fn ruling(ruling: Ruling) -> &'static str {
    match ruling {
        Ruling::Stop => "stop ",
        Ruling::Dense => "dense ",
        Ruling::Sparse => "sparse ",
    }
}

fn put_rows(rows: &[Row], out: &mut String) -> Result<(), AllocError> {
    out.push_str("/")?;
    for row in rows {
        for word in row.words.as_slice() {
            write!(out, " {word}")?;
        }
    }
    Ok(())
}

/// A run as its text.
fn told(alloc: Global, run: &PlainRun) -> Result<String, AllocError> {
    let mut out = String::new(alloc);
    for played in &run.rounds {
        out.push_str(ruling(played.ruling))?;
        write!(out, "{} {} ", played.active, played.edges)?;
        for sources in &played.reads {
            out.push_str("[")?;
            for source in sources.as_slice() {
                write!(out, "{}", source.0)?;
            }
            out.push_str("] ")?;
        }
    }
    put_rows(&run.rows, &mut out)?;
    Ok(out)
}

/// The run of a program, which is the same by its trees and by its code.
fn run_told(
    rt: &impl Abort,
    alloc: Global,
    program: &str,
    graph: &str,
    ends: &str,
) -> Result<String, Fail> {
    let split = split(alloc, program_named(program).unwrap_or(PUSHED))?;
    let code = code_of(alloc, &split)?;
    let edges = edges(alloc, graph)?;
    let ends = numbers(alloc, ends)?;
    let plain = plain_run(alloc, &split.program, &edges, &ends)?;
    let job = Job {
        program: &split.program.program,
        code: &code,
        edges: &edges,
        ends: &ends,
        draws: 42,
    };
    let shown = told(alloc, &run_by_code(rt, alloc, job, &plain)?)?;
    let wanted = told(alloc, &plain)?;
    assert_eq!(rt; shown.as_str(), wanted.as_str(), "{program}");
    Ok(shown)
}

#[test]
fn source_runs(rt: HostRuntime) -> Result<(), Fail> {
    for line in ROUNDS.lines() {
        let mut cells = Cells::new(line);
        let (program, graph, ends) = (cells.text(), cells.text(), cells.text());
        let found = run_told(&rt, rt.alloc(), program, graph, ends)?;
        assert_eq!(rt; found.as_str(), cells.text(), "{line}");
    }
    for line in ROWS.lines() {
        let mut cells = Cells::new(line);
        let (program, graph, ends) = (cells.text(), cells.text(), cells.text());
        let found = run_told(&rt, rt.alloc(), program, graph, ends)?;
        let (_, rows) = found.split_once("/ ").ok_or("no rows")?;
        assert_eq!(rt; rows, cells.text(), "{line}");
    }
    Ok(())
}
