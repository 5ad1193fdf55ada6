// A machine's part of a graph.
ghost use Rattle.symple_face.specs.Parts.{IsPart, lists_of};

use crate::degree::Degree;
use chunk_split::Cuts;
use instrument::Split;
use std::rc::Rc;
use vert_base::limits::MACHINES;
use vert_base::{Edge, Place, VertexId};

/// A machine's part of a graph, with the program that runs on it. The lists of vertices have an entry
/// for each machine, and that of the machine itself is empty.
#[derive(Drop)]
pub struct Part {
    pub at: Place<MACHINES>,
    pub cuts: Cuts<MACHINES>,
    /// How many edges the whole graph has.
    pub edges: u32,
    /// The number from which all draws come.
    pub draws: u64,
    pub split: Rc<Split>,
    /// The edges from the own chunk, as dense rounds read them: by target, then source.
    pub scan: Vec<Edge>,
    /// The edges into the own chunk, as sparse rounds work them: by source, then target.
    pub push: Vec<Edge>,
    /// The degrees in the whole graph of the own vertices and of those in `refresh_of`.
    pub degrees: Vec<Degree>,
    /// The own vertices whose rows each machine is told in a dense round.
    pub refresh_to: Vec<Vec<VertexId>>,
    /// The vertices whose rows each machine tells.
    pub refresh_of: Vec<Vec<VertexId>>,
    /// The own vertices whose sends each machine is told in a sparse round.
    pub push_to: Vec<Vec<VertexId>>,
    /// The vertices whose sends each machine tells.
    pub push_of: Vec<Vec<VertexId>>,
    pub ghost whole: { IsPart (record {
      at = at;
      ends = cuts;
      edges = edges;
      draws = draws;
      scan = scan.items;
      push = push.items;
      degrees = degrees.items;
      refresh_to = lists_of refresh_to.items;
      refresh_of = lists_of refresh_of.items;
      push_to = lists_of push_to.items;
      push_of = lists_of push_of.items;
    }) },
}
