//! Words: operators, partial values of slots, and rulings.

use mode_switch::ruling;
use sample_programs::Cells;
use slot_merge::{Partial, merging};
use std::alloc::{AllocError, Global};
use std::process::Abort;
use std::test::Fail;
use vert_base::{Combine, Mode};
use vert_eval::{apply, assign, negated, truth, word};
use vert_tree::{AssignOp, BinOp};

/// Operators with two words, and what they give.
static OPERATORS: &str = "\
+ | 9223372036854775807 | 1 | -9223372036854775808
- | -9223372036854775808 | 1 | 9223372036854775807
* | 9223372036854775807 | 2 | -2
* | 4294967296 | 4294967296 | 0
/ | 7 | 2 | 3
/ | -7 | 2 | -3
/ | 7 | -2 | -3
/ | -7 | -2 | 3
/ | 5 | 0 | 0
/ | -9223372036854775808 | -1 | -9223372036854775808
% | 7 | 2 | 1
% | -7 | 2 | -1
% | 7 | -2 | 1
% | -7 | -2 | -1
% | 5 | 0 | 0
% | -9223372036854775808 | -1 | 0
== | -3 | -3 | 1
== | 3 | -3 | 0
!= | -3 | -3 | 0
!= | 3 | -3 | 1
< | -1 | 0 | 1
< | 0 | 0 | 0
<= | 0 | 0 | 1
<= | 1 | 0 | 0
> | 1 | -1 | 1
> | 0 | 0 | 0
>= | 0 | 0 | 1
>= | -1 | 0 | 0
and | 1 | 1 | 1
and | 1 | 0 | 0
and | 0 | 1 | 0
or | 0 | 0 | 0
or | 0 | 1 | 1
or | 1 | 0 | 1";

/// Assignments to a word of another one, and what is there then.
static ASSIGNMENTS: &str = "\
= | 1 | 2 | 2
+= | 9223372036854775807 | 1 | -9223372036854775808
min= | 3 | -4 | -4
max= | 3 | -4 | 3";

/// Of one word.
static SINGLE: &str = "\
negated | -9223372036854775808 | -9223372036854775808
negated | 5 | -5
negated | -5 | 5
truth | 0 | 0
truth | 1 | 1
truth | -2 | 1";

fn operator(mark: &str) -> BinOp {
    match mark {
        "+" => BinOp::Add,
        "-" => BinOp::Sub,
        "*" => BinOp::Mul,
        "/" => BinOp::Div,
        "%" => BinOp::Rem,
        "==" => BinOp::Eq,
        "!=" => BinOp::Ne,
        "<" => BinOp::Lt,
        "<=" => BinOp::Le,
        ">" => BinOp::Gt,
        ">=" => BinOp::Ge,
        "and" => BinOp::And,
        _ => BinOp::Or,
    }
}

fn assignment(mark: &str) -> AssignOp {
    match mark {
        "=" => AssignOp::Set,
        "+=" => AssignOp::Add,
        "min=" => AssignOp::Least,
        _ => AssignOp::Greatest,
    }
}

#[test]
fn operators(rt: HostRuntime) -> Result<(), Fail> {
    for line in OPERATORS.lines() {
        let mut cells = Cells::new(line);
        let op = operator(cells.text());
        let (x, y) = (cells.word()?, cells.word()?);
        assert_eq!(rt; apply(op, x, y), cells.word()?, "{line}");
    }
    for line in ASSIGNMENTS.lines() {
        let mut cells = Cells::new(line);
        let op = assignment(cells.text());
        let (x, y) = (cells.word()?, cells.word()?);
        assert_eq!(rt; assign(op, x, y), cells.word()?, "{line}");
    }
    for line in SINGLE.lines() {
        let mut cells = Cells::new(line);
        let negates = cells.is("negated");
        let x = cells.word()?;
        let found = if negates { negated(x) } else { word(truth(x)) };
        assert_eq!(rt; found, cells.word()?, "{line}");
    }
    Ok(())
}

/// The operator of a slot, words behind their keys in the order in which they come, and the value.
static ADDED: &str = "\
sum | 0 9223372036854775807, 0 1, 0 5 | -9223372036854775803
sum | 3 1, 1 -2, 2 -4 | -5
min | 0 4, 2 -7, 1 0 | -7
max | 0 -4, 2 9, 1 0 | 9
first | 4 40, 2 20, 3 30 | 20
first | 2 20, 2 21, 5 1 | 20
first | 0 7, 1 0, 0 8 | 7";

/// The operator of a slot, the words of one partial value and those of another, and the value of both, behind its key where that
/// counts.
static MERGED: &str = "\
first | 2 20 | 5 50 | 2 20
first | 5 50 | 2 20 | 2 20
sum | 0 3 | | 3
sum | 0 3 | 1 -10 | -7
sum | | 0 -7 | -7";

fn combination(word: &str) -> Combine {
    match word {
        "sum" => Combine::Sum,
        "min" => Combine::Min,
        "max" => Combine::Max,
        _ => Combine::First,
    }
}

/// The partial value of a slot after these words.
fn partial(op: Combine, words: &str) -> Result<Partial, Fail> {
    let mut partial = Partial::new(op);
    for pair in words.split(", ") {
        if let Some((key, value)) = pair.split_once(' ') {
            partial.add(key.parse::<u32>()?, value.parse::<i64>()?);
        }
    }
    Ok(partial)
}

/// Both partial values of one slot, of which those of a first slot have different keys.
fn merged(rt: &impl Abort, mut one: Partial, other: &Partial) -> Partial {
    assert!(rt; one.op == other.op);
    match one.op {
        Combine::First => {
            assert!(rt; one.key != other.key);
            one.merge(other);
        }
        Combine::Sum | Combine::Min | Combine::Max => one.merge(other),
    }
    one
}

fn partial_told(alloc: Global, partial: &Partial) -> Result<String, AllocError> {
    match partial.value {
        Some(value) if partial.op == Combine::First => {
            format!(in alloc; "{} {value}", partial.key)
        }
        Some(value) => format!(in alloc; "{value}"),
        None => Ok(String::new(alloc)),
    }
}

#[test]
fn partial_values(rt: HostRuntime) -> Result<(), Fail> {
    merging();
    for line in ADDED.lines() {
        let mut cells = Cells::new(line);
        let op = combination(cells.text());
        assert_eq!(rt; Partial::new(op).value, None);
        let found = partial(op, cells.text())?;
        assert_eq!(rt; found.value, Some(cells.word()?), "{line}");
    }
    for line in MERGED.lines() {
        let mut cells = Cells::new(line);
        let op = combination(cells.text());
        let one = partial(op, cells.text())?;
        let other = partial(op, cells.text())?;
        let both = merged(&rt, one, &other);
        let found = partial_told(rt.alloc(), &both)?;
        assert_eq!(rt; found.as_str(), cells.text(), "{line}");
    }
    Ok(())
}

/// The active vertices, the edges from them and all edges; the round, the limit and the mode; the ruling.
static RULINGS: &str = "\
0 | 0 | 100 | 1 | 9 | dense | Stop
1 | 5 | 100 | 1 | 0 | dense | Stop
1 | 5 | 100 | 10 | 9 | sparse | Stop
1 | 5 | 100 | 9 | 9 | auto | Sparse
1 | 6 | 100 | 9 | 9 | auto | Dense
100 | 0 | 0 | 1 | 1 | auto | Sparse
1 | 0 | 100 | 1 | 1 | dense | Dense
1 | 100 | 100 | 1 | 1 | sparse | Sparse";

fn mode(word: &str) -> Mode {
    match word {
        "dense" => Mode::Dense,
        "sparse" => Mode::Sparse,
        _ => Mode::Auto,
    }
}

#[test]
fn rulings(rt: HostRuntime) -> Result<(), Fail> {
    for line in RULINGS.lines() {
        let mut cells = Cells::new(line);
        let active = u64::from(cells.number()?);
        let active_edges = u64::from(cells.number()?);
        let edges = u64::from(cells.number()?);
        let (round, limit) = (cells.number()?, cells.number()?);
        let mode = mode(cells.text());
        let found = ruling(active, active_edges, edges, round, limit, mode);
        let found = format!(in rt.alloc(); "{found:?}")?;
        assert_eq!(rt; found.as_str(), cells.text(), "{line}");
    }
    Ok(())
}
