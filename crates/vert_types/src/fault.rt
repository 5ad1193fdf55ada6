ghost use Rattle.std.specs.Prelude.{◌≡◌, Some};
ghost use Rattle.vert_types.specs.Findings.{first_from, sooner, unless};
ghost use Rattle.vert_types.specs.declared.fault.TypeFault.TheVariants.{Want};

use std::alloc::{AllocError, AllocFailed};
use thiserror::Error;
use vert_base::Span;

/// A fault of typing and its place. The code is 1 to 8.
#[derive(Clone, Copy, Debug, PartialEq, Eq)]
pub struct Finding {
    pub code: u8,
    pub span: Span,
}

/// Why a program isn't typed.
#[derive(Clone, Copy, Debug, PartialEq, Eq, Error)]
pub enum TypeFault {
    /// The fault at the least place, and at one place the one of the least code, from 1 to 8.
    #[error("Y{code} at {}:{}", .span.line, .span.column)]
    Fault { code: u8, span: Span },
    #[error("out of memory")]
    Want,
}

impl<T: Drop> From<AllocFailed<T>> for TypeFault {
    ghost use Rattle.std.specs.Prelude.{◌≡◌};

    ghost from_gives = { λ _ e. e ≡ Want };

    fn from(_failed: AllocFailed<T>) -> Self {
        TypeFault::Want
    }
}

impl From<AllocError> for TypeFault {
    ghost use Rattle.std.specs.Prelude.{◌≡◌};

    ghost from_gives = { λ _ e. e ≡ Want };

    fn from(_failed: AllocError) -> Self {
        TypeFault::Want
    }
}
