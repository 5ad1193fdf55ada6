//! A machine that does all that another one does, but tells rows that aren't so.
#![tactic(auto)]

mod lying;

pub use lying::Lying;
