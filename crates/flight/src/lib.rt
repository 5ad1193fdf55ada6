//! The messages under way, found by their names.
#![tactic(auto)]

mod entries;
mod flight;
mod laws;
mod messages;

pub use flight::Flight;
pub use laws::by_name;
