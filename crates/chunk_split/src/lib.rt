//! The chunks of a graph's vertices, one for each machine.
#![tactic(auto)]

mod bounds;
mod cuts;

pub use bounds::cuts_of;
pub use cuts::Cuts;
