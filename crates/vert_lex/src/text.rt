ghost use Rattle.std.specs.Prelude.{◌≡◌, ◌≢◌, ◌≤◌, length, IfOk, IfErr};
ghost use Rattle.vert_lex.specs.Text.{origin, through, tokens_of};
ghost use Rattle.vert_lex.specs.View.{plain_tokens};

use crate::bytes::{front, skip};
use crate::kind::kind_of;
use crate::length::{gap_length, token_length};
use crate::place::through;
use crate::token::{LexFault, Token};
use std::alloc::Global;
use vert_base::Span;
use vert_base::limits::PROGRAM_BYTES;

/// The place of the first byte.
const ORIGIN: Span = Span {
    at: 0,
    line: 1,
    column: 1,
};

/// The place just after the last byte of a text.
pub fn end_of(text: &[u8]) -> Span
    requires { length text.now ≤ 65536 }
    ensures { result ≡ through origin text.now }
{
    through(ORIGIN, text)
}

/// The tokens of a text, in order, or its first fault.
pub fn lex(alloc: Global, text: &[u8]) -> Result<Vec<Token>, LexFault>
    ensures read { IfOk result (λ tokens. tokens_of text.now ≡ Ok (plain_tokens tokens.items)) }
    ensures refused { IfErr result (λ fault. fault ≢ LexFault.Want →
        tokens_of text.now ≡ Err fault) }
{
    if text.len() as u64 > PROGRAM_BYTES {
        return Err(LexFault::TooLong);
    }
    let mut tokens = Vec::new(alloc);
    let mut span = ORIGIN;
    let mut rest = text;
    'text: while !rest.is_empty() {
        let gap = gap_length(rest);
        if gap > 0 {
            span = through(span, front(rest, gap));
            rest = skip(rest, gap);
        } else {
            let length = token_length(rest);
            if length == 0 {
                return Err(LexFault::BadByte(span));
            }
            let token = front(rest, length);
            let kind = kind_of(alloc, span, token)?;
            tokens.push(Token { span, kind })?;
            span = through(span, token);
            rest = skip(rest, length);
        }
    }
    Ok(tokens)
}
