ghost use Rattle.std.specs.Prelude.{◌≡◌, IfOk, IfErr};
ghost use Rattle.vert_grammar.specs.Faults.{spot};
ghost use Rattle.vert_grammar.specs.Reading.{reading};
ghost use Rattle.vert_lex.specs.View.{plain_tokens};
ghost use Rattle.vert_parse.specs.Parsing.{AreSmall, IsNamed, ParsesAs, fault_of};
ghost use Rattle.tree_reader.specs.Signs.{plain, plain_why};

use crate::fault::ParseFault;
use crate::naming::give_names;
use crate::numbering::number_names;
use std::alloc::Global;
use tree_reader::{Halt, Reader, Sign, Why};
use vert_base::Span;
use vert_lex::Token;
use vert_tree::Program;

/// The fault of stopping at the first of these tokens, or at the end.
fn refusal(reader: &Reader, why: Why, rest: &[Sign], end: Span) -> ParseFault
    ensures { result ≡ fault_of (plain_why why) (spot end (plain reader.now.names.items rest.now)) }
{
    let at = match rest {
        [] => end,
        [t, ..] => t.span,
    };
    match why {
        Why::Unexpected => ParseFault::Unexpected(at),
        Why::TooDeep => ParseFault::TooDeep(at),
        Why::TooMany => ParseFault::TooMany(at),
    }
}

/// The program that the tokens are, or the first fault. `end` is the place just after the text.
pub fn parse(alloc: Global, tokens: &[Token], end: Span) -> Result<Program, ParseFault>
    requires { AreSmall (plain_tokens tokens.now) }
    ensures gives { ParsesAs (reading (plain_tokens tokens.now)) end result }
    ensures names { IfOk result IsNamed }
{
    let numbered = match number_names(alloc, tokens) {
        Ok(numbered) => numbered,
        Err(fault) => return Err(fault),
    };
    let signs = numbered.signs;
    let reader = Reader {
        alloc,
        names: numbered.names,
    };
    match reader.all(&signs) {
        Ok(program) => {
            let mut program = program;
            match give_names(alloc, &mut program, &reader.names) {
                Ok(()) => Ok(program),
                Err(fault) => Err(fault),
            }
        }
        Err(Halt::Memory) => Err(ParseFault::Want),
        Err(Halt::Fault(why, rest)) => Err(refusal(&reader, why, rest, end)),
    }
}
