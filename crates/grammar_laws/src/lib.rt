//! The laws that tie the reader of `vert_grammar` to the grammar: what it reads is of the grammar, what
//! is of the grammar it reads, and a fault that it meets is the first.
#![tactic(auto)]

mod theorems;

pub use theorems::expressions;
