//! What is emitted to the slots of a vertex, combined in whatever order it comes.
#![tactic(auto)]

mod laws;
mod partial;

pub use laws::{filling, merging};
pub use partial::{Emits, Partial};
