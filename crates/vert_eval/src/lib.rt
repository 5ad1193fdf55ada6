//! What a program means: the environment that its expressions read, the value of an expression, and
//! in `specs/` the meaning of blocks, rounds and whole runs.
#![tactic(auto)]

mod cells;
mod environment;
mod laws;
mod value;
mod words;

pub use cells::{put, word_in};
pub use environment::{Env, Flow};
pub use laws::split_loops;
pub use value::{builtin_word, eval, other_word};
pub use words::{apply, assign, negated, truth, word};
