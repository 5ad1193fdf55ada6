ghost use Rattle.std.specs.Prelude.{◌≡◌};

use std::alloc::AllocFailed;

/// Why a body is no spelling of ring states: it is too short or too long, a mark has both bits, a bit behind the last
/// mark is set, a Bool is neither 0 nor 1. `Want` is want of memory.
#[derive(Clone, Copy, Debug, PartialEq, Eq)]
pub enum DepFault {
    Length,
    Bits,
    Padding,
    NotBool,
    Want,
}

impl<T: Drop> From<AllocFailed<T>> for DepFault {
    ghost use Rattle.dep_layout.specs.declared.fault.DepFault.TheVariants.{Want};

    ghost from_gives = { λ _ fault. fault ≡ Want };

    fn from(_failed: AllocFailed<T>) -> DepFault {
        DepFault::Want
    }
}
