use vert_base::Ruling;

/// What machine 0 tells of a round: its ruling, its active vertices and edges, and its reads.
#[derive(Clone, Copy, Debug)]
pub struct Report {
    pub round: u32,
    pub ruling: Ruling,
    pub active: u64,
    pub edges: u64,
    pub reads: u64,
}
