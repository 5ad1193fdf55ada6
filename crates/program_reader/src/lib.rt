//! Reads the text of a program: its tokens, its tree and its types, or the first refusal.
#![tactic(auto)]

mod laws;
mod reader;
mod refusal;

pub use laws::accepted_once;
pub use reader::read_program;
pub use refusal::{ProgramFault, Refusal, Stage};
