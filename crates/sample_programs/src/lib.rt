//! Texts that tests share: the example programs, other programs and the graphs of the examples; and how
//! the lines of their tables are read.
#![tactic(auto)]

mod cells;
mod graphs;
mod others;
mod programs;
mod text;

pub use cells::{Cells, plain};
pub use graphs::{
    DIAMOND, EMPTY, ONE_EDGE, PATH, THREE_INTO_ONE, TRIANGLE_WITH_TAIL, TWO_INTO_ONE,
    WEIGHTED_CYCLE, WEIGHTED_INTO_ONE,
};
pub use others::{EVERY_CLASS, SPARSE_ONLY, TWO_SORTS};
pub use programs::{BFS, DICE, FIRST, FIRST0, HALVE, HEAVY, K, SAMPLE, SUM, WRAP, ZERO};
pub use text::{edited, graph_named, program_named};
