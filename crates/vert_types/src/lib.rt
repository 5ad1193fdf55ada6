//! The types of programs: each name with what it stands for, or the first fault.
#![tactic(auto)]

mod blocks;
mod declare;
mod expression;
mod fault;
mod fill;
mod find;
mod findings;
mod place;
mod program;
mod scope;
mod statement;

pub use fault::{Finding, TypeFault};
pub use program::check;
pub use scope::Meaning;
