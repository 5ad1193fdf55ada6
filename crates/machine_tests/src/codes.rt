//! The lists of instructions of programs.

use super::programs::{code_of, split};
use sample_programs::{Cells, edited, program_named};
use std::alloc::{AllocError, Global};
use std::test::Fail;
use vert_code::{Code, Instr};

/// Programs and their lists: of the loop, the tail, the sparse body and the update block.
static CODES: &str = "\
first | OtherWord(Id) Emit(0) Break; ; ; Got(0) JumpUnless(4) Value(0) ToField(Set, 0)
bfs | OtherWord(Active) JumpUnless(5) OtherWord(Id) Emit(0) Break; ; \
Field(0) Push(0) Op(Lt) JumpUnless(6) Sent(0) Emit(0); \
Got(0) JumpUnless(8) Word(Round) ToField(Set, 0) Value(0) ToField(Set, 1) Push(1) ToActive
k | OtherField(0) JumpUnless(9) Push(1) ToLocal(Add, 0) Local(0) Push(2) Op(Ge) JumpUnless(9) Break; \
Local(0) Push(2) Op(Lt) JumpUnless(6) Push(1) Emit(0); ; \
Got(0) JumpUnless(6) Push(0) ToField(Set, 0) Push(1) ToActive
sample | Local(0) Push(0) Op(Eq) JumpUnless(7) OtherWord(Id) Emit(0) Break Local(0) Push(1) Op(Sub) ToLocal(Set, 0); ; ; Got(0) JumpUnless(4) Value(0) ToField(Set, 0)
halve | OtherField(0) Emit(0); ; ; Value(0) ToField(Set, 0) Push(1) ToActive";

/// The names of the examples.
static EXAMPLES: &str = "bfs dice first first0 halve heavy k sample sum wrap zero";

/// A program that assigns an expression.
static FRAME: &str = "vertex 1; mode dense; limit 1;
field a: int = 0;
start true;
dense when true { for u { } }
update { a = EXPRESSION; }
";

/// The lists of a code.
fn lists_told(alloc: Global, code: &Code) -> Result<String, AllocError> {
    let mut out = String::new(alloc);
    for (at, list) in code.blocks.iter().enumerate() {
        if at > 0 {
            out.push_str("; ")?;
        }
        for (place, instr) in list.iter().enumerate() {
            let mark = if place > 0 { " " } else { "" };
            write!(out, "{mark}{instr:?}")?;
        }
    }
    Ok(out)
}

#[test]
fn lists_of_instructions(rt: HostRuntime) -> Result<(), Fail> {
    let alloc = rt.alloc();
    for line in CODES.lines() {
        let mut cells = Cells::new(line);
        let text = program_named(cells.text()).ok_or("no such program")?;
        let code = code_of(alloc, &split(alloc, text)?)?;
        assert_eq!(rt; lists_told(alloc, &code)?.as_str(), cells.text(), "{line}");
    }
    for name in EXAMPLES.split_whitespace() {
        let text = program_named(name).ok_or("no such program")?;
        let code = code_of(alloc, &split(alloc, text)?)?;
        assert_eq!(rt; code.blocks.len(), 4, "{name}");
    }
    Ok(())
}

#[test]
fn an_expression_of_the_greatest_depth(rt: HostRuntime) -> Result<(), Fail> {
    let alloc = rt.alloc();
    let opened = "min(1, ".repeat(alloc, 63)?;
    let closed = ")".repeat(alloc, 63)?;
    let nested = format!(in alloc; "{opened}0{closed}")?;
    let text = edited(alloc, FRAME, "EXPRESSION", &nested)?;
    let code = code_of(alloc, &split(alloc, &text)?)?;
    let list = code.blocks.last().ok_or("no list")?;
    assert_eq!(rt; list.len(), 128);
    assert_eq!(rt; list.get(62), Some(&Instr::Push(1)));
    assert_eq!(rt; list.get(63), Some(&Instr::Push(0)));
    assert_eq!(rt; list.get(64), Some(&Instr::Least));
    Ok(())
}
