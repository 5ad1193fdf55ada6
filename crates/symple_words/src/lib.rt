//! Reads the words of a command line.
//!
//! How the words are spelt is checked first, by a form that each command has: the names of its
//! positionals, of its options with a value, and of its flags. The words that pass are read by a
//! simple `clap` command that is made from the same form.
#![tactic(auto)]

mod asked;
mod commands;
mod fault;
mod form;
mod line;
mod number;
mod parts;
mod reading;
mod spelling;
mod text;
mod verb;
mod words;

pub use fault::WordFault;
pub use line::{GraphForm, Job, Line, Lines};
pub use words::read_words;
