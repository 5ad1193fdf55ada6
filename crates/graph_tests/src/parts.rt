//! Parts of machines: what they hold, the forms of their messages, and the messages that they take.

use super::bytes::bytes_of;
use super::names::{name_at, name_told};
use super::tables::table_at;
use chunk_split::cuts_of;
use dep_message::{decode, encode};
use instrument::{Split, split_of};
use mirror_table::{degrees_ascend, edges_once, parts, shapes_agree};
use program_reader::read_program;
use sample_programs::{BFS, Cells};
use std::alloc::{AllocError, Global};
use std::process::Abort;
use std::rc::Rc;
use std::test::Fail;
use symple_face::{Part, planned_by_table};
use vert_base::{Edge, VertexId};
use vert_tree::print_program;

/// A program of both modes: an int and a bool as fields, a carried bool and a reduced int as lets, a break,
/// a bool that is sent, one slot and one total.
static BOTH_MODES: &str = "vertex 2;
mode auto;
limit 100;
field dist: int = 0;
field alive: bool = true;
slot claim: first;
total all: sum = 1;
start true;
dense when true {
  let seen: bool = false;
  let count: int = 0;
  for u { seen = true; count += 1; break; }
}
sparse when true {
  send on: bool = true;
  emit claim 1;
}
update {
  active = claim.got;
}
";

/// A program of one mode with a break and no words.
static BREAK_ALONE: &str = "vertex 1;
mode dense;
limit 100;
start true;
dense when true { for u { break; } }
update { }
";

/// The diamond, for four vertices.
static DIAMOND: &str = "4 | one | 0 1/0 2/1 3/2 3/";

/// Edges between two vertices in both directions, some of them twice, and a loop.
static LOOPS: &str = "3 | one | 0 0/1 0/0 0/2 2/0 1/";

/// The parts of the diamond for two machines.
static TWO: &str = "\
0 of 2, 4 edges, draws 7; scan 0>1 0>2 1>3; push 0>1; degrees 0:0:2 1:1:1 2:1:1 3:2:0; refresh to of 1:2 1:3; push to 1:0 1:1 of
1 of 2, 4 edges, draws 7; scan 2>3; push 0>2 1>3 2>3; degrees 2:1:1 3:2:0; refresh to 0:2 0:3 of; push to of 0:0 0:1";

/// The first parts of the other graph for 64 machines.
static MANY: &str = "\
0 of 64, 5 edges, draws 7; scan 0>0 0>0 0>1; push 0>0 0>0 1>0; degrees 0:3:3 1:1:1; refresh to 1:0 of 1:1; push to 1:0 of 1:1
1 of 64, 5 edges, draws 7; scan 1>0; push 0>1; degrees 0:3:3 1:1:1; refresh to 0:1 of 0:0; push to 0:1 of 0:0
2 of 64, 5 edges, draws 7; scan 2>2; push 2>2; degrees 2:1:1; refresh to of; push to of
3 of 64, 5 edges, draws 7; scan; push; degrees; refresh to of; push to of";

/// A message's name, and the form of its body at both machines.
static SHAPES: &str = "\
refresh | 1 | 0 | 0 | 1 | 0 | Some(Refresh { vertices: 2, words: 3, bools: 6 })
refresh | 100 | 0 | 0 | 1 | 0 | Some(Refresh { vertices: 2, words: 3, bools: 6 })
refresh | 101 | 0 | 0 | 1 | 0 | None
refresh | 0 | 0 | 0 | 1 | 0 | None
refresh | 1 | 0 | 1 | 1 | 0 | None
refresh | 1 | 0 | 0 | 1 | 2 | None
refresh | 1 | 0 | 0 | 1 | 1 | None
dep | 1 | 0 | 0 | 0 | 1 | Some(Dep { vertices: 1, words: 1, bools: 1 })
dep | 1 | 1 | 0 | 0 | 1 | None
update | 1 | 0 | 1 | 0 | 1 | Some(Update { vertices: 1, slots: 1, reduced: 1 })
update | 1 | 0 | 2 | 0 | 1 | None
push | 1 | 0 | 0 | 0 | 1 | Some(Push { vertices: 2, words: 1, bools: 1 })
tally | 0 | 0 | 0 | 1 | 0 | Some(Tally { totals: 1 })
tally | 0 | 0 | 0 | 0 | 1 | None
verdict | 100 | 0 | 0 | 0 | 1 | Some(Verdict { dense: true, sparse: true, totals: 1 })
verdict | 101 | 0 | 0 | 0 | 1 | Some(Verdict { dense: false, sparse: false, totals: 1 })
verdict | 102 | 0 | 0 | 0 | 1 | None";

/// Bytes, and what they are at both machines: a message of this name that is written again so, or a fault.
static TAKEN: &str = "\
0201000000000000010100000002 | Dep 1 0.0 0>1
0201000000000100010100000001 | Dep 1 0.1 0>1
02010000000000000101000000 | Short
0701000000000000010100000002 | Kind
02c8000000000000010100000002 | NotPlanned
0201000000000000010100000003 | Body
| Short
070100000000000001010000000200 | Short
00c8000000000000010100000003 | Kind
0201000000010000010100000002 | NotPlanned
0201000000000001000100000002 | Dep 1 0.0 1>0
0201000000000000000100000002 | NotPlanned
0501000000010001000100000002 | NotPlanned
020100000000000001020000000200 | Body
0500000000000001001800000000000000000000000000000000000000000000000000000000 | Short
05000000000000010018000000010000000000000001000000000000000000000000000000 | Tally 0 0.0 1>0
05000000000000010018000000010000000100000001000000000000000000000000000000 | Body
0601000000000000010100000001 | Verdict 1 0.0 0>1
0601000000000000010100000002 | Body
0665000000000000010100000000 | Verdict 101 0.0 0>1
0665000000000000010100000001 | Body
04010000000000000100000000 | NotPlanned";

/// The same of breadth-first search, whose loop hands a break on.
static BFS_TAKEN: &str = "\
0201000000000000010100000002 | Dep 1 0.0 0>1
0201000000000100010100000001 | Dep 1 0.1 0>1
02010000000000000101000000 | Short
0701000000000000010100000002 | Kind
02c8000000000000010100000002 | NotPlanned
0201000000000000010100000003 | Body";

fn split_from(alloc: Global, program: &str) -> Result<Rc<Split>, Fail> {
    match read_program(alloc, program.as_bytes()) {
        Ok(typed) => Ok(Rc::new(alloc, split_of(typed)).map_err(|_| "no memory")?),
        Err(_) => Err(Fail::from("no program")),
    }
}

/// The parts of a graph for so many machines, with a program.
fn parts_of(
    rt: &impl Abort,
    alloc: Global,
    program: &str,
    graph: &str,
    machines: u8,
) -> Result<Vec<Part>, Fail> {
    assert!(rt; machines >= 1 && machines <= 64);
    let table = table_at(rt, alloc, &mut Cells::new(graph))?;
    let cuts = cuts_of::<64>(&table, machines);
    let split = split_from(alloc, program)?;
    match parts(alloc, table, &cuts, &split, 7) {
        Ok(parts) => Ok(parts),
        Err(_) => Err(AllocError.into()),
    }
}

fn add_edges(text: &mut String, edges: &[Edge]) -> Result<(), AllocError> {
    for edge in edges {
        write!(text, " {}>{}", edge.from.0, edge.to.0)?;
    }
    Ok(())
}

fn add_lists(text: &mut String, lists: &[Vec<VertexId>]) -> Result<(), AllocError> {
    for (machine, list) in lists.iter().enumerate() {
        for v in list {
            write!(text, " {machine}:{}", v.0)?;
        }
    }
    Ok(())
}

/// What a part holds: its edges, degrees in and out, and the vertices of its lists behind their machines.
fn told(alloc: Global, part: &Part) -> Result<String, AllocError> {
    let mut text = String::new(alloc);
    let (at, edges, draws) = (part.at, part.edges, part.draws);
    let (number, count) = (at.number(), at.count());
    write!(
        text,
        "{number} of {count}, {edges} edges, draws {draws}; scan"
    )?;
    add_edges(&mut text, &part.scan)?;
    text.push_str("; push")?;
    add_edges(&mut text, &part.push)?;
    text.push_str("; degrees")?;
    for degree in &part.degrees {
        write!(text, " {}:{}:{}", degree.id.0, degree.ins, degree.outs)?;
    }
    text.push_str("; refresh to")?;
    add_lists(&mut text, &part.refresh_to)?;
    text.push_str(" of")?;
    add_lists(&mut text, &part.refresh_of)?;
    text.push_str("; push to")?;
    add_lists(&mut text, &part.push_to)?;
    text.push_str(" of")?;
    add_lists(&mut text, &part.push_of)?;
    Ok(text)
}

/// The first parts are as in the lines, and each edge of the graph is scanned once and pushed once.
fn check_parts(rt: &impl Abort, alloc: Global, parts: &[Part], lines: &str) -> Result<(), Fail> {
    for (part, line) in parts.iter().zip(lines.lines()) {
        let text = told(alloc, part)?;
        assert_eq!(rt; text.as_str(), line);
    }
    let mut scans = 0u64;
    let mut pushes = 0u64;
    for part in parts {
        scans = scans.saturating_add(part.scan.len() as u64);
        pushes = pushes.saturating_add(part.push.len() as u64);
    }
    for part in parts {
        assert_eq!(rt;
            (scans, pushes),
            (u64::from(part.edges), u64::from(part.edges))
        );
    }
    Ok(())
}

#[test]
fn parts_of_graphs(rt: HostRuntime) -> Result<(), Fail> {
    edges_once();
    degrees_ascend();
    shapes_agree();
    let two = parts_of(&rt, rt.alloc(), BOTH_MODES, DIAMOND, 2)?;
    assert_eq!(rt; two.len(), 2);
    check_parts(&rt, rt.alloc(), &two, TWO)?;
    let many = parts_of(&rt, rt.alloc(), BOTH_MODES, LOOPS, 64)?;
    assert_eq!(rt; many.len(), 64);
    check_parts(&rt, rt.alloc(), &many, MANY)?;
    Ok(())
}

#[test]
fn shapes_at_both_ends(rt: HostRuntime) -> Result<(), Fail> {
    planned_by_table();
    let parts = parts_of(&rt, rt.alloc(), BOTH_MODES, DIAMOND, 2)?;
    for line in SHAPES.lines() {
        let mut cells = Cells::new(line);
        let name = name_at(&mut cells)?;
        let wanted = cells.text();
        for part in &parts {
            let shape = format!(in rt.alloc(); "{:?}", part.shape(&name))?;
            assert_eq!(rt; shape.as_str(), wanted, "{line}");
        }
    }
    Ok(())
}

/// What bytes are at a part.
fn taken(rt: &impl Abort, alloc: Global, bytes: &[u8], part: &Part) -> Result<String, Fail> {
    match decode(alloc, bytes, part) {
        Ok(msg) => {
            assert!(rt; msg.body.len() < 100);
            let again = encode(alloc, &msg).map_err(|_| "no memory")?;
            assert_eq!(rt; again.as_slice(), bytes);
            Ok(name_told(alloc, Some(msg.name))?)
        }
        Err(fault) => Ok(format!(in alloc; "{fault:?}")?),
    }
}

/// The bytes of each line are what it says, at each of the parts.
fn check_taken(rt: &impl Abort, alloc: Global, parts: &[Part], lines: &str) -> Result<(), Fail> {
    for line in lines.lines() {
        let mut cells = Cells::new(line);
        let bytes = bytes_of(alloc, cells.text())?;
        let wanted = cells.text();
        for part in parts {
            assert_eq!(rt; taken(rt, alloc, &bytes, part)?.as_str(), wanted, "{line}");
        }
    }
    Ok(())
}

/// The text of a program, printed as it was read.
fn printed(alloc: Global, program: &str) -> Result<String, Fail> {
    let typed = read_program(alloc, program.as_bytes()).map_err(|_| "no program")?;
    Ok(print_program(alloc, &typed.program).map_err(|_| "no memory")?)
}

#[test]
fn messages_at_both_ends(rt: HostRuntime) -> Result<(), Fail> {
    let alloc = rt.alloc();
    let parts = parts_of(&rt, alloc, BREAK_ALONE, DIAMOND, 2)?;
    check_taken(&rt, alloc, &parts, TAKEN)?;
    let again = printed(alloc, BFS)?;
    for program in [BFS, again.as_str()] {
        let parts = parts_of(&rt, alloc, program, DIAMOND, 2)?;
        check_parts(&rt, alloc, &parts, TWO)?;
        check_taken(&rt, alloc, &parts, BFS_TAKEN)?;
    }
    Ok(())
}
