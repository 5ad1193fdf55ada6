ghost use Rattle.std.specs.Prelude.{◌≡◌};
ghost use Rattle.worker_stream.specs.declared.fault.PartFault.TheVariants.{Want};

use std::alloc::AllocError;
use vert_base::Name;

/// Why bytes are no part file: they don't begin as one, they aren't as long as their counts say, their
/// numbers are no part, their text is no program. `Want` is want of memory.
#[derive(Clone, Copy, Debug, PartialEq, Eq)]
pub enum PartFault {
    Magic,
    Length,
    Number,
    Text,
    Want,
}

impl From<AllocError> for PartFault {
    ghost from_gives = { λ _ fault. fault ≡ Want };

    fn from(_error: AllocError) -> PartFault {
        PartFault::Want
    }
}

/// Why a machine ended before it was over: at a message with the fault M1 to M5 of this code, whose first byte has
/// this place in the input; at the end of the input, by M6, with the name that it waits for; since a take or a put
/// failed. `Want` is want of memory.
#[derive(Clone, Copy, Debug, PartialEq, Eq)]
pub enum ServeFault {
    Message { code: u8, at: u64 },
    Ended(Name),
    Source,
    Sink,
    Want,
}
