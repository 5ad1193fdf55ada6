//! A machine's buffer: a place for each message that it can take in one round.
#![tactic(auto)]

mod laws;
mod names;
mod places;
mod slots;

pub use laws::by_name;
pub use slots::Slots;
