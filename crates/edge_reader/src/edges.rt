ghost use Rattle.std.specs.Prelude.{◌≤◌, length};
ghost use Rattle.vert_base.specs.declared.limits.TheConstants.{EDGES, VERTICES};
ghost use Rattle.vert_base.specs.Neighbours.{AreBelow};

use vert_base::Edge;

/// The edges of a file by file place, and how many vertices there are.
#[derive(Drop)]
pub struct Edges {
    pub vertices: u32,
    pub list: Vec<Edge>,
    pub ghost few: { length list.items ≤ EDGES },
    pub ghost within: { vertices ≤ VERTICES },
    pub ghost below: { AreBelow vertices list.items },
}
