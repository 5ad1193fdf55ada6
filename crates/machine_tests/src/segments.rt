//! Segments of loops and other blocks, by their code.

use super::engine::{Job, Scene};
use super::programs::{code_of, edges, numbers, split};
use super::steps::{step, walk};
use super::values::words;
use super::views::{blank_emits, env_at, members_at};
use sample_programs::{Cells, program_named};
use slot_merge::Emits;
use std::alloc::{AllocError, Global};
use std::process::Abort;
use std::test::Fail;
use vert_base::{Combine, Row};
use vert_code::Block;
use vert_eval::Env;

/// A program with four bodies, none of which is empty.
static COUNTING: &str = "vertex 1; mode auto; limit 9;
field a: int = -1;
field alive: bool = true;
slot s: sum;
start true;
dense when true {
  let c: int = 0;
  for u { if u.alive { c += 1; if c >= 2 { break; } } }
  if c < 3 { emit s 5; }
}
sparse when true { send p: int = -1; emit s max(draw(1), p); }
update { a += min(s.got ? s.value : n, 7); active = true; }
";

/// A program; the rows of four vertices, whose edges are 0 1, 2 1, 3 1 and 1 0; the locals, the blocks that
/// run in turn at vertex 1 in round 2, where the second chunk begins at 2; and what stands then: how the last
/// loop ended after how many reads, the neighbour, the locals and their marks, the row, whether the vertex is
/// active next, and the word of the slot, behind its key where that counts. The draw is the one of PCG.
static STEPS: &str = "\
first | -1, -1, -1, -1 | | loop | Broke 1; 2; []; 0; [-1]; false; 3 2
counting | -1 1, -1 1, -1 0, -1 1 | 0 | loop | Broke 3; 0; [2]; 1; [-1, 1]; false; none
counting | -1 1, -1 1, -1 0, -1 1 | 0 | loop tail tail | Broke 3; 0; [2]; 1; [-1, 1]; false; 10
counting | -1 1, -1 1, -1 0, -1 0 | 0 | loop tail | Going 3; 0; [1]; 1; [-1, 1]; false; 5
counting | -1 1, -1 1, -1 0, -1 1 | 0 | update | Going 0; 1; [0]; 0; [3, 1]; true; none
counting | -1 1, -1 1, -1 0, -1 1 | 0 | update sparse | Going 0; 1; [0]; 0; [3, 1]; true; 3100809553";

fn rows_of(alloc: Global, cell: &str) -> Result<Vec<Row>, Fail> {
    let mut rows = Vec::new(alloc);
    for part in cell.split(',') {
        rows.push(Row {
            words: words(part)?,
            active: true,
        })?;
    }
    Ok(rows)
}

/// Puts what stands in an environment and in its slots behind a text.
fn put_state(text: &mut String, env: &Env, emits: &Emits) -> Result<(), AllocError> {
    let (locals, words) = (env.locals.as_slice(), env.row.words.as_slice());
    let (other, touched, active) = (env.other.id.0, env.touched, env.next_active);
    write!(
        text,
        "; {other}; {locals:?}; {touched}; {words:?}; {active}; "
    )?;
    match emits.slots.first() {
        Some(partial) => match partial.value {
            Some(value) if partial.op == Combine::First => {
                write!(text, "{} {value}", partial.key)
            }
            Some(value) => write!(text, "{value}"),
            None => text.push_str("none"),
        },
        None => text.push_str("no slot"),
    }
}

/// Runs blocks in turn at vertex 1: what stands then.
fn steps_told(
    rt: &impl Abort,
    alloc: Global,
    scene: &Scene,
    locals: &str,
    blocks: &str,
) -> Result<String, Fail> {
    let code = scene.job.code;
    let mut emits = blank_emits(rt, scene.job.program);
    let mut env = env_at(rt, scene, 1, &emits);
    env.locals = words(locals)?;
    env.sends = words("-1")?;
    env.key = 3;
    let mut text = String::from_str(alloc, "Going 0")?;
    for block in blocks.split_whitespace() {
        match block {
            "loop" => {
                let members = members_at(rt, alloc, scene, 1)?;
                let (flow, read) = walk(rt, code, members, &mut env, &mut emits);
                text = format!(in alloc; "{flow:?} {read}")?;
            }
            "tail" => step(rt, code, Block::Tail, &mut env, &mut emits),
            "sparse" => step(rt, code, Block::SparseBody, &mut env, &mut emits),
            _ => step(rt, code, Block::UpdateBody, &mut env, &mut emits),
        }
    }
    put_state(&mut text, &env, &emits)?;
    Ok(text)
}

#[test]
fn blocks_in_turn(rt: HostRuntime) -> Result<(), Fail> {
    let alloc = rt.alloc();
    let edges = edges(alloc, "0 1/2 1/3 1/1 0")?;
    let ends = numbers(alloc, "2 4")?;
    for line in STEPS.lines() {
        let mut cells = Cells::new(line);
        let program = program_named(cells.text()).unwrap_or(COUNTING);
        let split = split(alloc, program)?;
        let code = code_of(alloc, &split)?;
        let rows = rows_of(alloc, cells.text())?;
        let job = Job {
            program: &split.program.program,
            code: &code,
            edges: &edges,
            ends: &ends,
            draws: 42,
        };
        let scene = Scene {
            job: &job,
            round: 2,
            rows: &rows,
            totals: &[],
        };
        let (locals, blocks) = (cells.text(), cells.text());
        let found = steps_told(&rt, alloc, &scene, locals, blocks)?;
        assert_eq!(rt; found.as_str(), cells.text(), "{line}");
    }
    Ok(())
}
