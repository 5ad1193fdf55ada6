//! The limits and the small types that every crate speaks of.
#![tactic(auto)]

mod graph;
mod laws;
pub mod limits;
mod message;
mod name_text;
mod place;
mod text;
mod value;

pub use graph::{Edge, Neighbour, VertexId};
pub use laws::same_letters;
pub use message::{Event, Message, Name, NameKind};
pub use name_text::number_in;
pub use place::Place;
use std::alloc::{AllocError, AllocFailed};
pub use text::Span;
pub use value::{Combine, Mode, Row, Ruling, ValueType};

/// Want of memory: a call could not get the memory that it needs.
#[derive(Clone, Copy, Debug, PartialEq, Eq)]
pub struct Want;

impl From<AllocError> for Want {
    ghost use Rattle.std.specs.Prelude.{◌≡◌};

    ghost from_gives = { λ _ want. want ≡ record {} };

    fn from(_error: AllocError) -> Want {
        Want
    }
}

impl<T: Drop> From<AllocFailed<T>> for Want {
    ghost use Rattle.std.specs.Prelude.{◌≡◌};

    ghost from_gives = { λ _ want. want ≡ record {} };

    fn from(_error: AllocFailed<T>) -> Want {
        Want
    }
}
