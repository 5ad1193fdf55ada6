//! Words that fit their types: the definitions, and that the literals of a program and the weights of
//! edges do.
#![tactic(auto)]

mod literals;
mod weights;

pub use literals::literals_are_words;
pub use weights::{edges_have_weights, weight_of};
