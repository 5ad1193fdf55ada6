use vert_base::{Row, Ruling};

/// What a run begins with at a round, in the place of the first rows: the round and its ruling, the active
/// vertices and edges at its beginning, the row of each vertex, and the totals of these rows.
#[derive(Debug, Drop)]
pub struct Start {
    pub round: u32,
    pub ruling: Ruling,
    pub active: u64,
    pub edges: u64,
    pub rows: Vec<Row>,
    pub totals: Vec<i64>,
}
