use vert_base::VertexId;

/// A vertex with how many edges lead to it and how many leave it, in the whole graph.
#[derive(Clone, Copy, Debug, PartialEq, Eq)]
pub struct Degree {
    pub id: VertexId,
    pub ins: u32,
    pub outs: u32,
}
