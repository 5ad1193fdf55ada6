//! A machine as a value: it is made of its part of the graph, acts, takes messages, and tells its
//! rows and what it read.
#![tactic(auto)]

mod beginning;
mod closing;
mod going;
mod knowing;
mod machine;
mod making;
mod opening;
mod restart;
mod scans;
mod site;
mod spots;
mod standing;
mod starting;
mod summing;
mod taking;

pub use machine::Core;
