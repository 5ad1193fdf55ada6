ghost use Rattle.std.specs.Prelude.{◌≡◌};
ghost use Rattle.vert_parse.specs.declared.fault.ParseFault.TheVariants.{Want};

use std::alloc::{AllocError, AllocFailed};
use thiserror::Error;
use vert_base::Span;

/// Why tokens are no program.
#[derive(Clone, Copy, Debug, PartialEq, Eq, Error)]
pub enum ParseFault {
    /// A token, or the end, that no program has there.
    #[error("P1 at {}:{}", .0.line, .0.column)]
    Unexpected(Span),
    /// A token that only a program has there which is nested too deep.
    #[error("P2 at {}:{}", .0.line, .0.column)]
    TooDeep(Span),
    /// The keyword of a declaration of which there are too many.
    #[error("P3 at {}:{}", .0.line, .0.column)]
    TooMany(Span),
    /// Memory ran out, or there are more names than an `Ident` has numbers for.
    #[error("out of memory")]
    Want,
}

impl From<AllocError> for ParseFault {
    ghost from_gives = { λ _ e. e ≡ Want };

    fn from(_failed: AllocError) -> Self {
        ParseFault::Want
    }
}

impl<T: Drop> From<AllocFailed<T>> for ParseFault {
    ghost from_gives = { λ _ e. e ≡ Want };

    fn from(_failed: AllocFailed<T>) -> Self {
        ParseFault::Want
    }
}
