ghost use Rattle.std.specs.Prelude.{◌≡◌};
ghost use Rattle.tree_reader.specs.declared.fault.Halt.TheVariants.{Memory};

use crate::sign::Sign;
use std::alloc::{AllocError, AllocFailed};

/// Why reading stops.
#[derive(Clone, Copy)]
pub enum Why {
    /// At a token, or the end, that no program has there.
    Unexpected,
    /// At a token that only a program has there which is nested too deep.
    TooDeep,
    /// At the keyword of a declaration of which there are too many.
    TooMany,
}

/// Memory ran out, or reading stops at the first of these tokens.
#[derive(Clone, Copy)]
pub enum Halt<'a> {
    Memory,
    Fault(Why, &'a [Sign]),
}

impl From<AllocError> for Halt<'_> {
    ghost from_gives = { λ _ e. e ≡ Memory };

    fn from(_failed: AllocError) -> Self {
        Halt::Memory
    }
}

impl<T: Drop> From<AllocFailed<T>> for Halt<'_> {
    ghost from_gives = { λ _ e. e ≡ Memory };

    fn from(_failed: AllocFailed<T>) -> Self {
        Halt::Memory
    }
}
