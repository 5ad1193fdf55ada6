ghost use Rattle.std.specs.Prelude.{◌≡◌, ◌≢◌, false, true};
ghost use Rattle.link_core.specs.declared.fault.LinkFault.TheVariants as link_fault;
ghost use Rattle.link_core.specs.declared.fault.LinkRecordFault.TheVariants.{Want};
ghost use Rattle.link_core.specs.declared.fault.LinkTextFault.TheVariants as text_fault;

use cluster_run::EventFault;
use std::alloc::{AllocError, AllocFailed};

/// Why an event over links wasn't played.
#[derive(Clone, Copy, Debug, PartialEq, Eq)]
pub enum LinkFault {
    /// As for a cluster, but for want of memory.
    Plain(EventFault),
    NotAgain,
    NoAck,
    /// After it the links play no event.
    Want,
}

/// Whether memory was wanting.
pub(crate) fn is_want(fault: &LinkFault) -> bool
    ensures want { result ≡ true → fault.now ≡ link_fault.Want }
    ensures other { result ≡ false → fault.now ≢ link_fault.Want }
{
    matches!(fault, LinkFault::Want)
}

impl From<vert_base::Want> for LinkFault {
    ghost from_gives = { λ _ fault. fault ≡ link_fault.Want };

    fn from(_want: vert_base::Want) -> LinkFault {
        LinkFault::Want
    }
}

/// Why a text is none of form 3: its first line, the first bad line behind it by its number from 1, or its
/// length.
#[derive(Clone, Copy, Debug, PartialEq, Eq)]
pub enum LinkTextFault {
    Header,
    Line(u32),
    TooLong,
    Want,
}

impl<T: Drop> From<AllocFailed<T>> for LinkTextFault {
    ghost from_gives = { λ _ fault. fault ≡ text_fault.Want };

    fn from(_error: AllocFailed<T>) -> LinkTextFault {
        LinkTextFault::Want
    }
}

/// Why an event isn't recorded: the text would pass its limit, or memory is wanting.
#[derive(Clone, Copy, Debug, PartialEq, Eq)]
pub enum LinkRecordFault {
    TooLong,
    Want,
}

impl From<AllocError> for LinkRecordFault {
    ghost from_gives = { λ _ fault. fault ≡ Want };

    fn from(_error: AllocError) -> LinkRecordFault {
        LinkRecordFault::Want
    }
}
