ghost use Rattle.std.specs.Prelude.{◌≡◌, ◌<◌, ◌≤◌, ◌+◌, ◌^◌, vec_len, IfOk, IfErr, OnOk};
ghost use Rattle.vert_lex.specs.View.{plain_kind as lexed_kind, plain_tokens};
ghost use Rattle.vert_parse.specs.Numbers.{IsSignOf};
ghost use Rattle.vert_parse.specs.Parsing.{AreSmall, IsSmallKind};
ghost use Rattle.tree_reader.specs.Signs.{plain};

use crate::fault::ParseFault;
use std::alloc::Global;
use tree_reader::{Sign, SignKind, Small};
use vert_lex::{Token, TokenKind};

/// Tokens with numbers in place of their names, and the texts of the names by number.
#[derive(Drop)]
pub(crate) struct Numbered {
    pub(crate) signs: Vec<Sign>,
    pub(crate) names: Vec<String>,
}

/// A token with a number of its own in place of its name.
fn sign(token: &Token, names: &mut Vec<String>) -> Result<Sign, ParseFault>
    requires small { IsSmallKind (lexed_kind token.now.kind) }
    requires few { vec_len names.old < 2 ^ 32 }
    ensures read { IfOk result (λ s. IsSignOf token.now names.old.items names.new.items s) }
    ensures want { IfErr result (λ fault. fault ≡ ParseFault.Want) }
{
    let span = token.span;
    match &token.kind {
        TokenKind::Reserved(word) => Ok(Sign {
            span,
            kind: SignKind::Reserved(*word),
        }),
        TokenKind::Mark(mark) => Ok(Sign {
            span,
            kind: SignKind::Mark(*mark),
        }),
        TokenKind::Number(value) => Ok(Sign {
            span,
            kind: SignKind::Number(Small { value: *value }),
        }),
        TokenKind::Name(text) => {
            let kind = SignKind::Name(names.len() as u32);
            names.push(text.clone()?)?;
            Ok(Sign { span, kind })
        }
    }
}

/// Gives each name a number of its own, in order.
pub(crate) fn number_names(alloc: Global, tokens: &[Token]) -> Result<Numbered, ParseFault>
    requires { AreSmall (plain_tokens tokens.now) }
    ensures read { IfOk result (λ n. plain n.names.items n.signs.items ≡ plain_tokens tokens.now) }
    ensures want { IfErr result (λ fault. fault ≡ ParseFault.Want) }
{
    if tokens.len() as u64 > u64::from(u32::MAX) {
        return Err(ParseFault::Want);
    }
    let mut signs = Vec::new(alloc);
    let mut names = Vec::new(alloc);
    'tokens: for token in tokens {
        let sign = sign(token, &mut names)?;
        signs.push(sign)?;
    }
    Ok(Numbered { signs, names })
}
