use crate::accepted::ACCEPTED;
use crate::controls::with_controls;
use crate::refused::REFUSED;
use program_reader::{ProgramFault, Stage, accepted_once, read_program};
use sample_programs::{HALVE, edited, program_named};
use std::alloc::{AllocError, Global};
use std::process::Abort;
use std::test::Fail;

/// Texts, and the answer for each.
static TEXTS: &str = " => P1 at 1:1
vertex 2; => P1 at 1:10
vertex 3; mode dense; => P1 at 1:8
vertex 1;␊mode @ => L1 at 2:6
vertex 1;␍@ => L1 at 1:11
vertex 1;␍␊␉@ => L1 at 2:2
vertex 1; // @ & ␍ @␊ ~ => L1 at 2:2
vertex␉1;␍␊mode auto; // \" @ => P1 at 2:18";

/// Programs, each with texts in it that others stand in the place of, and the answer for each.
static PROGRAMS: &str = "bfs => accepted
bfs | dense when dist | dense when dust => Y1 at 8:12
bfs | auto | dense | sparse when true {␊  send from: int = id;␊  if dist < 0 { emit claim from; }␊}␊ |  => accepted
bfs | sparse when true {␊  send from: int = id;␊  if dist < 0 { emit claim from; }␊}␊ |  => Y6 at 2:6
k => accepted
wrap => accepted
sample => accepted
halve => accepted
halve | int = 1 | int = t => Y4 at 2:16";

fn letter(stage: Stage) -> &'static str {
    match stage {
        Stage::Tokens => "L",
        Stage::Grammar => "P",
        Stage::Typing => "Y",
    }
}

/// The answer for a text: the word `accepted`, or the code and the place of the refusal.
pub(crate) fn told(alloc: Global, text: &str) -> Result<String, AllocError> {
    match read_program(alloc, text.as_bytes()) {
        Ok(_) => String::from_str(alloc, "accepted"),
        Err(ProgramFault::Refused(refusal)) => {
            let letter = letter(refusal.stage);
            let span = refusal.span;
            format!(in alloc;
                "{letter}{} at {}:{}",
                refusal.number, span.line, span.column
            )
        }
        Err(ProgramFault::Want) => String::from_str(alloc, "out of memory"),
    }
}

/// The program of that name, with its edits.
fn program(alloc: Global, row: &str) -> Result<String, Fail> {
    let mut parts = row.split(" | ");
    let name = parts.next().ok_or("no name")?;
    let mut text = String::from_str(alloc, program_named(name).ok_or("no program")?)?;
    while let Some(old) = parts.next() {
        let old = with_controls(alloc, old)?;
        text = edited(alloc, &text, &old, parts.next().ok_or("no new text")?)?;
    }
    Ok(text)
}

#[test]
fn whole_programs(rt: HostRuntime) -> Result<(), Fail> {
    let alloc = rt.alloc();
    for row in TEXTS.lines() {
        let (text, wanted) = row.split_once(" => ").ok_or("no answer")?;
        let text = with_controls(alloc, text)?;
        assert_eq!(rt; told(alloc, &text)?.as_str(), wanted, "{row}");
    }
    for row in PROGRAMS.lines() {
        let (parts, wanted) = row.split_once(" => ").ok_or("no answer")?;
        let text = program(alloc, parts)?;
        assert_eq!(rt; told(alloc, &text)?.as_str(), wanted, "{row}");
    }
    accepted_once();
    Ok(())
}

/// The parts of a group: what stands before each text, behind it, and the lines of the texts.
pub(crate) fn group_parts(group: &str) -> Result<(&str, &str, &str), Fail> {
    let (before, others) = group.split_once('\n').ok_or("no first line")?;
    let (after, rows) = others.split_once('\n').ok_or("no second line")?;
    Ok((before, after, rows))
}

/// Reads each text of the groups, of which each line says what is wanted.
fn check_groups(rt: &impl Abort, alloc: Global, groups: &str) -> Result<(), Fail> {
    for group in groups.split("%%\n") {
        let (before, after, rows) = group_parts(group)?;
        for row in rows.lines() {
            let (wanted, part) = row.split_once(": ").ok_or("no answer")?;
            let text = format!(in alloc; "{before}\n{part}\n{after}")?;
            assert_eq!(rt; told(alloc, &text)?.as_str(), wanted, "{part}");
        }
    }
    Ok(())
}

#[test]
fn groups_of_programs(rt: HostRuntime) -> Result<(), Fail> {
    check_groups(&rt, rt.alloc(), ACCEPTED)?;
    check_groups(&rt, rt.alloc(), REFUSED)
}

#[test]
fn parts_of_a_program(rt: HostRuntime) -> Result<(), Fail> {
    let Ok(typed) = read_program(rt.alloc(), HALVE.as_bytes()) else {
        return Err("refused".into());
    };
    assert_eq!(rt; (typed.program.version, typed.program.limit), (2, 10));
    assert_eq!(rt; typed.program.names.len(), 3);
    assert_eq!(rt; typed.program.totals.len(), 1);
    Ok(())
}
