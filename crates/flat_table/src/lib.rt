//! Rows of equal width, one behind another in one vector.
#![tactic(auto)]

mod grid;

pub use grid::Grid;
