//! Kinds of texts, and how the changed texts of one are tried.

use crate::mutator::Mutator;
use std::alloc::{AllocError, AllocFailed, Global};
use std::fmt;
use vert_base::Want;

/// From so many cases on, some must be accepted and some refused: a mutator that always breaks the
/// text, or never, would try one half of a reader alone.
const MANY: u32 = 400;

/// What was otherwise than stated.
#[derive(Drop)]
pub enum Otherwise {
    Want,
    Told(&'static str),
    /// At a case, by its number from 0, with the text in hexadecimal digits.
    Case {
        number: u32,
        what: &'static str,
        text: String,
    },
}

impl fmt::Display for Otherwise {
    fn fmt<W: fmt::Write>(&self, out: &mut fmt::Formatter<W>) -> fmt::Result {
        match self {
            Otherwise::Want => write!(out, "memory was wanted"),
            Otherwise::Told(what) => write!(out, "{what}"),
            Otherwise::Case { number, what, text } => write!(out, "case {number}: {what}: {text}"),
        }
    }
}

impl From<AllocError> for Otherwise {
    fn from(_: AllocError) -> Self {
        Otherwise::Want
    }
}

impl<T: Drop> From<AllocFailed<T>> for Otherwise {
    fn from(_: AllocFailed<T>) -> Self {
        Otherwise::Want
    }
}

impl From<Want> for Otherwise {
    fn from(_: Want) -> Self {
        Otherwise::Want
    }
}

/// A kind of text: how one is changed, and what the answer to it must be.
pub trait Kind {
    /// A good text, changed. By the number of the case the texts take turns.
    fn changed(
        &self,
        alloc: Global,
        mutator: &mut Mutator,
        number: u32,
    ) -> Result<Vec<u8>, AllocError>;

    /// Whether the text is accepted, where the answer is the stated one. By the number the options
    /// take turns.
    fn is_accepted(&self, alloc: Global, text: &[u8], number: u32) -> Result<bool, Otherwise>;
}

/// Tries so many texts of a kind.
pub fn play<K: Kind>(alloc: Global, kind: &K, cases: u32, seed: u32) -> Result<(), Otherwise> {
    let mut mutator = Mutator::new(u64::from(seed));
    let (mut accepted, mut refused) = (0u32, 0u32);
    for number in 0..cases {
        let text = kind.changed(alloc, &mut mutator, number)?;
        match tried(alloc, kind, &text, number) {
            Ok(true) => accepted = accepted.saturating_add(1),
            Ok(false) => refused = refused.saturating_add(1),
            Err(otherwise) => return Err(otherwise),
        }
    }
    if cases >= MANY && accepted == 0 {
        return Err(Otherwise::Told("none was accepted"));
    }
    if cases >= MANY && refused == 0 {
        return Err(Otherwise::Told("none was refused"));
    }
    Ok(())
}

/// Whether a text is accepted; what was otherwise stands with the text.
fn tried<K: Kind>(alloc: Global, kind: &K, text: &[u8], number: u32) -> Result<bool, Otherwise> {
    match kind.is_accepted(alloc, text, number) {
        Err(Otherwise::Told(what)) => Err(Otherwise::Case {
            number,
            what,
            text: hex::encode(alloc, text)?,
        }),
        answer => answer,
    }
}
