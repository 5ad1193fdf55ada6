//! What the state of a machine is made of, for the laws of several crates: messages held and dropped, their names and
//! forms, rulings, and the words that a loop hands on, in `specs/` and `proofs/`; and that a part that is read can run.
#![tactic(auto)]

mod running;

pub use running::{degrees_are_counts, tells_can_run};
