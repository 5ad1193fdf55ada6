ghost use Rattle.vert_lex.specs.declared.token.LexFault.TheVariants.{Want};

use std::alloc::{AllocError, AllocFailed};
use thiserror::Error;
use vert_base::Span;

/// What a token is: a reserved word by its place in the list of [`words`](crate::words), a mark by
/// its place in the list of [`marks`](crate::marks), a number, or any other word.
#[derive(Debug, Drop)]
pub enum TokenKind {
    Reserved(u8),
    Mark(u8),
    Number(u64),
    Name(String),
}

/// A token and the place of its first byte.
#[derive(Debug, Drop)]
pub struct Token {
    pub span: Span,
    pub kind: TokenKind,
}

/// Why a text has no list of tokens.
#[derive(Clone, Copy, Debug, PartialEq, Eq, Error)]
pub enum LexFault {
    /// A byte that begins no token, blank or comment.
    #[error("L1 at {}:{}", .0.line, .0.column)]
    BadByte(Span),
    /// A number above the greatest, at its first digit.
    #[error("L2 at {}:{}", .0.line, .0.column)]
    BadNumber(Span),
    /// The text has too many bytes.
    #[error("L3 at 1:1")]
    TooLong,
    #[error("out of memory")]
    Want,
}

impl<T: Drop> From<AllocFailed<T>> for LexFault {
    ghost use Rattle.std.specs.Prelude.{◌≡◌};

    ghost from_gives = { λ _ e. e ≡ Want };

    fn from(_failed: AllocFailed<T>) -> Self {
        LexFault::Want
    }
}

impl From<AllocError> for LexFault {
    ghost use Rattle.std.specs.Prelude.{◌≡◌};

    ghost from_gives = { λ _ e. e ≡ Want };

    fn from(_failed: AllocError) -> Self {
        LexFault::Want
    }
}
