//! The machine that runs stack code: one block, or a loop body over the neighbours that a feed gives.
#![tactic(auto)]

mod block;
mod machine;
mod operations;
mod segment;
mod stack;

pub use block::{step_block, step_block_over};
pub use segment::{step_segment, step_segment_over};
pub use stack::Stack;
