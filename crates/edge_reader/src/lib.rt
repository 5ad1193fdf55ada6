//! Reads edge files: a graph's edges in file order, or the first fault and its place.
#![tactic(auto)]

mod edges;
mod entry;
mod fault;
mod gather;
mod line;
mod pairs;
mod text;
mod words;

pub use edges::Edges;
pub use fault::EdgeFault;
pub use pairs::read_pairs;
pub use text::read_text;
