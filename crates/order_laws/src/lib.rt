//! The laws of runs that don't depend on the order in which the neighbours of a vertex are read.
#![tactic(auto)]

mod laws;

pub use laws::{order_free_loops, order_free_runs};
