//! The parts of a graph, one for each machine: the edges that it works on, the vertices that it shares
//! with each other machine, and the degrees that it knows.
#![tactic(auto)]

mod degrees;
mod edges;
mod laws;
mod lists;
mod machines;

pub use degrees::known;
pub use laws::{degrees_ascend, edges_once, shapes_agree};
pub use lists::{Mirrors, mirrors_of};
pub use machines::parts;
