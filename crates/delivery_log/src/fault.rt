ghost use Rattle.std.specs.Prelude.{◌≡◌};
ghost use Rattle.delivery_log.specs.declared.fault.ScheduleFault.TheVariants.{Want};
ghost use Rattle.delivery_log.specs.declared.fault.RecordFault.TheVariants as record_fault;

use std::alloc::{AllocError, AllocFailed};

/// Why a text is no schedule: its first line, the first bad line behind it by its number from 1, or
/// its length.
#[derive(Clone, Copy, Debug, PartialEq, Eq)]
pub enum ScheduleFault {
    Header,
    Line(u32),
    TooLong,
    Want,
}

impl<T: Drop> From<AllocFailed<T>> for ScheduleFault {
    ghost from_gives = { λ _ fault. fault ≡ Want };

    fn from(_error: AllocFailed<T>) -> ScheduleFault {
        ScheduleFault::Want
    }
}

/// Why an event isn't recorded: the text would pass its limit, or memory is wanting.
#[derive(Clone, Copy, Debug, PartialEq, Eq)]
pub enum RecordFault {
    TooLong,
    Want,
}

impl From<AllocError> for RecordFault {
    ghost from_gives = { λ _ fault. fault ≡ record_fault.Want };

    fn from(_error: AllocError) -> RecordFault {
        RecordFault::Want
    }
}
