//! Stack code: the instructions of the loop body, the tail, the sparse body and the update block of
//! a program, and what they do.
#![tactic(auto)]

mod code;
mod expression;
mod instr;
mod list;
mod program;
mod statement;

pub use code::Code;
pub use instr::{Block, Instr};
pub use program::compile;
