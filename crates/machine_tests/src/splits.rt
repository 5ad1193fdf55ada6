//! How loops are split: the classes of their lets, what is shown of it, and what segments begin with and give.

ghost use Rattle.std.specs.Prelude.{◌≡◌};
ghost use Rattle.vert_tree.specs.Places.{lets_in};

use super::programs::{split, typed};
use super::steps::are_placed;
use super::values::words;
use arrayvec::ArrayVec;
use carry_analysis::{carry_of, classes_of};
use instrument::{Split, print_split, segments_are_the_loop};
use sample_programs::{Cells, edited, program_named};
use std::alloc::Global;
use std::process::Abort;
use std::test::Fail;
use vert_base::{Neighbour, Row, VertexId};
use vert_eval::Env;
use vert_tree::{Decl, Program, Typed};

/// A program with places for lets and for a loop body.
static FRAME: &str = "vertex 1; mode dense; limit 1;
start true;
dense when true { LETS for u { BODY } }
update { }
";

/// Lets and a loop body; the classes of the lets, whether the loop breaks, and how many words it hands on.
static LOOPS: &str = "\
let c: int = 0; | c += u.id; | [Reduced(Sum)] false None
| if u.active { break; } | [] true Some(0)
let c: int = 0; | if u.active { c += 1; if c >= 2 { break; } } | [Carried] true Some(1)
let a: int = 0; let b: int = 0; let c: int = 0; let d: int = 0; let e: int = 0; let f: int = 0; let g: int = 0; | \
if a >= 2 { c min= u.id; d max= u.id; d max= 7; e = 7; f += 1; } else { f max= 1; g += g; } | \
[Constant, Constant, Reduced(Min), Reduced(Max), Carried, Carried, Carried] false Some(3)";

/// Examples, and how many words their loops hand on.
static HANDED_ON: &str = "\
sum | None
bfs | Some(0)
sample | Some(1)";

/// The classes of the lets of a program, whether its loop breaks, and how many words it hands on.
fn classes_told(rt: &impl Abort, alloc: Global, typed: &Typed) -> Result<String, Fail> {
    let dense = typed.program.dense.as_ref().ok_or("no loop")?;
    assert!(rt; dense.lets.len() <= 8);
    let classes = classes_of(dense);
    let words = carry_of(&classes).map(|carry| carry.words);
    let locals = classes.locals.as_slice();
    Ok(format!(in alloc; "{locals:?} {} {words:?}", classes.breaks)?)
}

#[test]
fn classes_of_lets(rt: HostRuntime) -> Result<(), Fail> {
    let alloc = rt.alloc();
    for line in LOOPS.lines() {
        let mut cells = Cells::new(line);
        let text = edited(alloc, FRAME, "LETS", cells.text())?;
        let text = edited(alloc, &text, "BODY", cells.text())?;
        let found = classes_told(&rt, alloc, &typed(alloc, &text)?)?;
        assert_eq!(rt; found.as_str(), cells.text(), "{line}");
    }
    for line in HANDED_ON.lines() {
        let mut cells = Cells::new(line);
        let text = program_named(cells.text()).ok_or("no such program")?;
        let found = classes_told(&rt, alloc, &typed(alloc, text)?)?;
        assert!(rt; found.as_str().ends_with(cells.text()), "{line}");
    }
    Ok(())
}

/// A program with lets of the classes constant, reduced sum, carried and reduced min.
static EVERY_CLASS: &str = "vertex 1; mode dense; limit 100;
slot low: min;
start true;
dense when true {
  let k: int = 7;
  let s: int = 1;
  let c: int = id;
  let m: int = k;
  for u { if u.active { s += k; c = u.id; m min= c; emit low c; break; } }
}
update { }
";

/// What is shown of its split.
static SHOWN: &str = "vertex 1 ;
mode dense ;
limit 100 ;
slot low : min ;
start true ;
dense when true {
let k : int = 7 ;
let s : int = 1 ;
let c : int = id ;
let m : int = k ;
for u {
if u . active {
s += k ;
c = u . id ;
m min = c ;
emit low c ;
break ;
}
}
}
update {
}
local k constant
local s reduced sum
local c carried
local m reduced min
ring 1
begin {
let k : int = 7 ;
let s : int = 1 ;
let c : int = id ;
let m : int = k ;
receive c ;
reset s sum ;
reset m min ;
}
segment {
if u . active {
s += k ;
c = u . id ;
m min = c ;
emit low c ;
break ;
}
}
give {
forward c ;
update s sum ;
update m min ;
update low min ;
}
tail {
}
";

#[test]
fn a_split_is_shown(rt: HostRuntime) -> Result<(), Fail> {
    segments_are_the_loop();
    let split = split(rt.alloc(), EVERY_CLASS)?;
    let text = print_split(rt.alloc(), &split)?;
    assert_eq!(rt; text.as_str(), SHOWN);
    Ok(())
}

/// Vertex 9 of a graph, with no words but two locals, which are marked.
fn env() -> Result<Env, Fail> {
    let vertex = Neighbour {
        id: VertexId(9),
        weight: 0,
        indeg: 0,
        outdeg: 0,
    };
    Ok(Env {
        id: VertexId(9),
        n: 12,
        round: 1,
        indeg: 0,
        outdeg: 0,
        draws: 0,
        row: Row {
            words: ArrayVec::new(),
            active: true,
        },
        next_active: false,
        locals: words("70 71")?,
        touched: 3,
        other: vertex,
        other_row: Row {
            words: ArrayVec::new(),
            active: true,
        },
        sends: ArrayVec::new(),
        slots: ArrayVec::new(),
        totals: ArrayVec::new(),
        key: 0,
    })
}

/// What a segment receives; the locals that it begins with, their marks, and what it hands on then.
static SEGMENTS: &str = "\
| [7, 0, 9, 9223372036854775807] 0 [9]
-4 | [7, 0, -4, 9223372036854775807] 0 [-4]";

/// The lets of the loop.
fn lets_of(program: &Program) -> &[Decl]
    ensures { result.now ≡ lets_in program.now.dense }
{
    match &program.dense {
        Some(dense) => &dense.lets,
        None => &[],
    }
}

/// What a segment begins with after these words, and what it hands on.
fn segment_told(
    rt: &impl Abort,
    alloc: Global,
    split: &Split,
    received: &[i64],
) -> Result<String, Fail> {
    let Some(part) = &split.dense else {
        return Err(Fail::from("no split"));
    };
    let mut env = env()?;
    let mut given = ArrayVec::new();
    assert!(rt; env.round <= 10_000 && env.id.0 < 1 << 24);
    let lets = lets_of(&split.program.program);
    assert!(rt; lets.len() <= 8 && are_placed(lets, &env, 0));
    let received = if received.is_empty() {
        None
    } else {
        Some(received)
    };
    part.begin(&split.program, &mut env, received);
    part.give(&env, &mut given);
    let (locals, gives) = (env.locals.as_slice(), given.as_slice());
    Ok(format!(in alloc; "{locals:?} {} {gives:?}", env.touched)?)
}

#[test]
fn segments_begin_and_give(rt: HostRuntime) -> Result<(), Fail> {
    let split = split(rt.alloc(), EVERY_CLASS)?;
    for line in SEGMENTS.lines() {
        let mut cells = Cells::new(line);
        let received = words::<8>(cells.text())?;
        let found = segment_told(&rt, rt.alloc(), &split, received.as_slice())?;
        assert_eq!(rt; found.as_str(), cells.text(), "{line}");
    }
    Ok(())
}
