//! Many machines of one kind, and one event at a time.
#![tactic(auto)]

mod acts;
mod choosing;
mod cluster;
mod fault;
mod laws;
mod looks;
mod resume;
mod start;
mod views;

pub use cluster::Cluster;
pub use fault::{EventFault, Missing};
pub use laws::{choices_are_in_order, worlds_are_in_order};
