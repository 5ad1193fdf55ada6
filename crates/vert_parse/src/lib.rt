//! Tokens as a program, or the first place where they are none.
#![tactic(auto)]

mod entering;
mod fault;
mod naming;
mod numbering;
mod parsing;
mod renaming;

pub use fault::ParseFault;
pub use parsing::parse;
