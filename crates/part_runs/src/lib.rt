//! The parts of a graph as files, and one machine as a process: the commands `split` and `worker`.
#![tactic(auto)]

mod laws;
mod parting;
mod rows;
mod working;

pub use laws::core_runs_are_served;
pub use parting::split;
pub use working::work;
