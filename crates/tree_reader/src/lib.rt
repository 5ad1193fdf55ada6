//! Numbered tokens as a tree, or where and why reading stops.
#![tactic(auto)]

mod atom;
mod declaration;
mod expression;
mod fault;
mod nodes;
mod program;
mod reader;
mod rights;
mod sign;
mod statement;

pub use fault::{Halt, Why};
pub use reader::Reader;
pub use sign::{Sign, SignKind, Small};
