//! Changed programs: one that is read is printed as its tokens, and read again so; one that is
//! refused is refused by a code that there is and at a place that it has.

use crate::kind::{Kind, Otherwise};
use crate::mutator::Mutator;
use crate::token_judge::{Tokens, judge_tokens};
use program_reader::{ProgramFault, Refusal, Stage, read_program};
use sample_programs::{EVERY_CLASS, program_named};
use std::alloc::{AllocError, Global};
use vert_base::{Span, Want};
use vert_tree::{Typed, print_program};

static NAMES: [&str; 6] = ["bfs", "k", "halve", "every-class", "two-sorts", "sample"];

/// Programs.
pub struct Programs;

impl Kind for Programs {
    fn changed(
        &self,
        alloc: Global,
        mutator: &mut Mutator,
        number: u32,
    ) -> Result<Vec<u8>, AllocError> {
        let name = NAMES[number as usize % 6];
        let good = program_named(name).unwrap_or("");
        mutator.changed(alloc, good.as_bytes(), EVERY_CLASS.as_bytes())
    }

    fn is_accepted(&self, alloc: Global, text: &[u8], _number: u32) -> Result<bool, Otherwise> {
        let tokens = judge_tokens(alloc, text)?;
        match printed(alloc, text)? {
            Ok(print) => is_printed(alloc, print.as_bytes(), &tokens),
            Err(refusal) => is_refused(text, &refusal, &tokens),
        }
    }
}

/// What is printed of the program that a text says, or its refusal.
pub fn printed(alloc: Global, text: &[u8]) -> Result<Result<String, Refusal>, Otherwise> {
    match read_program(alloc, text) {
        Ok(typed) => Ok(Ok(print_of(alloc, typed)?)),
        Err(ProgramFault::Refused(refusal)) => Ok(Err(refusal)),
        Err(ProgramFault::Want) => Err(Otherwise::Want),
    }
}

fn print_of(alloc: Global, typed: Typed) -> Result<String, Want> {
    print_program(alloc, &typed.program)
}

/// Whether what is printed of a program is its tokens, and is read again so.
fn is_printed(alloc: Global, print: &[u8], tokens: &Tokens) -> Result<bool, Otherwise> {
    match tokens {
        Tokens::Joined { text, begins: _ } if text.as_slice() == print => {}
        _ => return Err(Otherwise::Told("other tokens are printed")),
    }
    match printed(alloc, print)? {
        Ok(again) if again.as_bytes() == print => Ok(true),
        Ok(_) => Err(Otherwise::Told("what is printed is printed otherwise")),
        Err(_) => Err(Otherwise::Told("what is printed is refused")),
    }
}

/// No, where a refusal is one that there is.
fn is_refused(text: &[u8], refusal: &Refusal, tokens: &Tokens) -> Result<bool, Otherwise> {
    let at = refusal.span.at as usize;
    if refusal.span != span_at(text, at) {
        return Err(Otherwise::Told("a place that isn't there"));
    }
    let is_named = match (refusal.stage, tokens) {
        (Stage::Tokens, Tokens::Faulty(code, place)) => refusal.number == *code && at == *place,
        (Stage::Grammar, Tokens::Joined { text: _, begins }) => {
            (1..=3).contains(&refusal.number)
                && (begins.contains(&at) || refusal.number == 1 && at == text.len())
        }
        (Stage::Typing, Tokens::Joined { text: _, begins }) => {
            (1..=8).contains(&refusal.number) && begins.contains(&at)
        }
        _ => false,
    };
    if is_named {
        Ok(false)
    } else {
        Err(Otherwise::Told("another refusal"))
    }
}

/// The line and the column of a place, where the text has it.
fn span_at(text: &[u8], at: usize) -> Span {
    let (mut line, mut column) = (1u32, 1u32);
    for byte in text.get(..at).unwrap_or(&[]) {
        if *byte == b'\n' {
            line = line.saturating_add(1);
            column = 1;
        } else {
            column = column.saturating_add(1);
        }
    }
    Span {
        at: u32::try_from(at.min(text.len())).unwrap_or(u32::MAX),
        line,
        column,
    }
}
