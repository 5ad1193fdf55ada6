//! The plain meaning of a program: one machine runs it over the whole graph by walking its trees.
#![tactic(auto)]

mod dense;
mod graph;
mod job;
mod laws;
mod round;
mod rounds;
mod run;
mod scene;
mod slots;
mod sparse;
mod standing;
mod start;
mod totals;

pub use laws::runs_by_table;
pub use rounds::{PlainRun, PlayedRound, run_plainly};
