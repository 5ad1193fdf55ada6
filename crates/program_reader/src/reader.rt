ghost use Rattle.std.specs.Prelude.{◌≡◌};
ghost use Rattle.program_reader.specs.Answers.{ReadsProgram};
ghost use Rattle.program_reader.specs.Faults.{lex_fault, parse_fault, type_fault};

use crate::refusal::{ProgramFault, Refusal, Stage};
use std::alloc::Global;
use vert_base::Span;
use vert_lex::{LexFault, end_of, lex};
use vert_parse::{ParseFault, parse};
use vert_tree::Typed;
use vert_types::{TypeFault, check};

/// The first place of a text.
const ORIGIN: Span = Span {
    at: 0,
    line: 1,
    column: 1,
};

fn refused(stage: Stage, number: u8, span: Span) -> ProgramFault
    ensures { result ≡ ProgramFault.Refused
        (record { stage = stage; number = number; span = span }) }
{
    ProgramFault::Refused(Refusal {
        stage,
        number,
        span,
    })
}

fn lex_fault(fault: LexFault) -> ProgramFault
    ensures { result ≡ lex_fault fault }
{
    match fault {
        LexFault::BadByte(span) => refused(Stage::Tokens, 1, span),
        LexFault::BadNumber(span) => refused(Stage::Tokens, 2, span),
        LexFault::TooLong => refused(Stage::Tokens, 3, ORIGIN),
        LexFault::Want => ProgramFault::Want,
    }
}

fn parse_fault(fault: ParseFault) -> ProgramFault
    ensures { result ≡ parse_fault fault }
{
    match fault {
        ParseFault::Unexpected(span) => refused(Stage::Grammar, 1, span),
        ParseFault::TooDeep(span) => refused(Stage::Grammar, 2, span),
        ParseFault::TooMany(span) => refused(Stage::Grammar, 3, span),
        ParseFault::Want => ProgramFault::Want,
    }
}

fn type_fault(fault: TypeFault) -> ProgramFault
    ensures { result ≡ type_fault fault }
{
    match fault {
        TypeFault::Fault { code, span } => refused(Stage::Typing, code, span),
        TypeFault::Want => ProgramFault::Want,
    }
}

/// Reads the text of a program. The text may have any bytes and any length.
pub fn read_program(alloc: Global, text: &[u8]) -> Result<Typed, ProgramFault>
    ensures { ReadsProgram text.now result }
{
    let tokens = match lex(alloc, text) {
        Ok(tokens) => tokens,
        Err(fault) => return Err(lex_fault(fault)),
    };
    let end = end_of(text);
    let program = match parse(alloc, &tokens, end) {
        Ok(program) => program,
        Err(fault) => return Err(parse_fault(fault)),
    };
    match check(alloc, program) {
        Ok(typed) => Ok(typed),
        Err(fault) => Err(type_fault(fault)),
    }
}
