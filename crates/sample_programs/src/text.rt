use crate::graphs::*;
use crate::others::*;
use crate::programs::*;
use std::alloc::{AllocError, Global};

/// The program under a name, which is that of its file, or none.
pub fn program_named(name: &str) -> Option<&'static str> {
    match name {
        "bfs" => Some(BFS),
        "dice" => Some(DICE),
        "first" => Some(FIRST),
        "first0" => Some(FIRST0),
        "halve" => Some(HALVE),
        "heavy" => Some(HEAVY),
        "k" => Some(K),
        "sample" => Some(SAMPLE),
        "sum" => Some(SUM),
        "wrap" => Some(WRAP),
        "zero" => Some(ZERO),
        "every-class" => Some(EVERY_CLASS),
        "sparse-only" => Some(SPARSE_ONLY),
        "two-sorts" => Some(TWO_SORTS),
        _ => None,
    }
}

/// The graph under a name, which is that of its file, or none.
pub fn graph_named(name: &str) -> Option<&'static str> {
    match name {
        "diamond" => Some(DIAMOND),
        "empty" => Some(EMPTY),
        "one-edge" => Some(ONE_EDGE),
        "path" => Some(PATH),
        "three-into-one" => Some(THREE_INTO_ONE),
        "triangle-with-tail" => Some(TRIANGLE_WITH_TAIL),
        "two-into-one" => Some(TWO_INTO_ONE),
        "weighted-cycle" => Some(WEIGHTED_CYCLE),
        "weighted-into-one" => Some(WEIGHTED_INTO_ONE),
        _ => None,
    }
}

/// The text with `new` in the place of the first `old` in it; the same text where it has none.
pub fn edited(alloc: Global, text: &str, old: &str, new: &str) -> Result<String, AllocError> {
    text.replacen(alloc, old, new, 1)
}
