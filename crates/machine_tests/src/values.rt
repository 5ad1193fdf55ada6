//! Values of expressions.

use super::programs::typed;
use super::steps::value;
use arrayvec::ArrayVec;
use sample_programs::{Cells, edited};
use std::alloc::Global;
use std::process::Abort;
use std::test::Fail;
use vert_base::{Neighbour, Row, VertexId};
use vert_eval::{Env, put, split_loops, word_in};
use vert_tree::{Program, Stmt};

/// A program with places for one statement in its loop, in its sparse body and in its update block.
static FRAME: &str = "vertex 2; mode auto; limit 9;
field a: int = 0;
field b: int = 0;
field f: bool = true;
slot none: sum;
slot some: sum;
total t: sum = a;
start true;
dense when true {
  let l: int = 0;
  let h: int = 0;
  let g: bool = true;
  for u { LOOP }
}
sparse when true {
  send m: int = a;
  SPARSE
}
update { UPDATE }
";

/// The place of a statement, the statement, and the value of its expression at vertex 3 of 9 in round 2, at
/// the neighbour 7.
static VALUES: &str = "\
LOOP | l = -8; | -8
LOOP | g = true; | 1
LOOP | g = false; | 0
LOOP | l = id; | 3
LOOP | l = n; | 9
LOOP | l = round; | 2
LOOP | l = indeg; | 4
LOOP | l = outdeg; | 1
LOOP | g = active; | 1
LOOP | l = w; | -20
LOOP | l = b; | -3
LOOP | h = l; | 5
SPARSE | emit none m; | 8
LOOP | l = t; | 100
UPDATE | f = none.got; | 0
UPDATE | a = none.value; | 0
UPDATE | f = some.got; | 1
UPDATE | a = some.value; | -6
LOOP | l = u.a; | 77
LOOP | l = u.id; | 7
LOOP | l = u.indeg; | 6
LOOP | l = u.outdeg; | 2
LOOP | g = u.active; | 0
LOOP | l = a - u.a * 2; | -144
LOOP | l = b < 0 ? min(l, h) : max(l, h); | 5
LOOP | l = b >= 0 ? min(l, h) : max(l, h); | 8
UPDATE | f = !(-(-9223372036854775807 - 1) / 0 == 1) && !none.got; | 1
LOOP | l = draw(54); | 389222225";

/// The value where nothing was drawn before: the word that PCG publishes for state 42 and stream 54.
const FIRST_DRAW: i64 = 2_707_161_783;

/// Words in their order, as many as there is room for.
pub(crate) fn words<const CAP: usize>(cell: &str) -> Result<ArrayVec<i64, CAP>, Fail> {
    let mut words = ArrayVec::new();
    for word in cell.split_whitespace() {
        let _ = words.try_push(word.parse::<i64>()?);
    }
    Ok(words)
}

fn env() -> Result<Env, Fail> {
    let mut slots = ArrayVec::new();
    let _ = slots.try_push(None);
    let _ = slots.try_push(Some(-6));
    Ok(Env {
        id: VertexId(3),
        n: 9,
        round: 2,
        indeg: 4,
        outdeg: 1,
        draws: 42,
        row: Row {
            words: words("10 -3 1")?,
            active: true,
        },
        next_active: false,
        locals: words("5 8 1")?,
        touched: 0,
        other: Neighbour {
            id: VertexId(7),
            weight: -20,
            indeg: 6,
            outdeg: 2,
        },
        other_row: Row {
            words: words("77 1 0")?,
            active: false,
        },
        sends: words("8")?,
        slots,
        totals: words("100")?,
        key: 0,
    })
}

/// The body at a place of the frame.
fn body_at<'a>(program: &'a Program, place: &str) -> &'a [Stmt] {
    match (place, &program.dense, &program.sparse) {
        ("LOOP", Some(dense), _) => &dense.body,
        ("SPARSE", _, Some(sparse)) => &sparse.body,
        _ => &program.update,
    }
}

/// The value of the expression of the statement that stands at a place of the frame.
fn value_at(
    rt: &impl Abort,
    alloc: Global,
    env: &Env,
    place: &str,
    statement: &str,
) -> Result<i64, Fail> {
    let mut text = edited(alloc, FRAME, place, statement)?;
    for other in ["LOOP", "SPARSE", "UPDATE"] {
        text = edited(alloc, &text, other, "")?;
    }
    let typed = typed(alloc, &text)?;
    match body_at(&typed.program, place) {
        [Stmt::Assign(_, _, e), ..] | [Stmt::Emit(_, _, e), ..] => Ok(value(rt, e, env)),
        _ => Err(Fail::from("no expression")),
    }
}

#[test]
fn values(rt: HostRuntime) -> Result<(), Fail> {
    split_loops();
    let alloc = rt.alloc();
    let mut env = env()?;
    for line in VALUES.lines() {
        let mut cells = Cells::new(line);
        let place = cells.text();
        let statement = cells.text();
        let found = value_at(&rt, alloc, &env, place, statement)?;
        assert_eq!(rt; found, cells.word()?, "{line}");
    }
    env.round = 0;
    env.id = VertexId(0);
    let found = value_at(&rt, alloc, &env, "LOOP", "l = draw(54);")?;
    assert_eq!(rt; found, FIRST_DRAW);
    Ok(())
}

#[test]
fn places_hold_what_is_put(rt: HostRuntime) -> Result<(), Fail> {
    let mut words = words::<16>("10 -3")?;
    assert_eq!(rt; words.len(), 2);
    put(&mut words, 1, 12);
    assert_eq!(rt; (word_in(&words, 0), word_in(&words, 1)), (10, 12));
    Ok(())
}
