ghost use Rattle.std.specs.Prelude.{◌≡◌};
ghost use Rattle.symple_words.specs.declared.fault.WordFault.TheVariants.{Want};

use std::alloc::AllocError;

/// Why words are refused.
#[derive(Clone, Copy, Debug, PartialEq, Eq)]
pub enum WordFault {
    /// There is no word, or the first names no command.
    Command,
    /// The words behind the command are not such as it takes.
    Words,
    /// There was no memory for the line.
    Want,
}

impl From<AllocError> for WordFault {
    ghost from_gives = { λ _ fault. fault ≡ Want };

    fn from(_error: AllocError) -> WordFault {
        WordFault::Want
    }
}
