/// The number of a vertex, counted from 0.
#[derive(Clone, Copy, Debug, PartialEq, Eq, PartialOrd, Ord)]
pub struct VertexId(pub u32);

/// A directed edge with its weight.
#[derive(Clone, Copy, Debug, PartialEq, Eq)]
pub struct Edge {
    pub from: VertexId,
    pub to: VertexId,
    pub weight: i32,
}

/// The source of an edge, as a neighbour loop sees it: its id and degrees, and the edge's weight.
#[derive(Clone, Copy, Debug, PartialEq, Eq)]
pub struct Neighbour {
    pub id: VertexId,
    pub weight: i64,
    pub indeg: u32,
    pub outdeg: u32,
}
