//! Changed graphs: their edges are those of a second reader, and so are their refusals.

use crate::bytes::spelled;
use crate::edge_judge::{Fault, Graph, judge_pairs, judge_text};
use crate::kind::{Kind, Otherwise};
use crate::mutator::Mutator;
use edge_reader::{EdgeFault, Edges, read_pairs, read_text};
use sample_programs::graph_named;
use std::alloc::{AllocError, Global};

static NAMES: [&str; 4] = [
    "diamond",
    "triangle-with-tail",
    "weighted-cycle",
    "weighted-into-one",
];

/// A file with all that a line may have beside numbers.
static LINES: &str =
    "# x\r\n0\t1\r\n\n0 2\n  1 3 -7\n\t \n 2 \t3 00012 \r\n  # 1\n4294967295 # 1\n3 2";

/// What the number of vertices is in turn.
static VERTICES: [Option<u32>; 5] = [None, Some(4), None, Some(2_097_152), Some(1)];

/// Graphs as text.
pub struct Texts;

impl Kind for Texts {
    fn changed(
        &self,
        alloc: Global,
        mutator: &mut Mutator,
        number: u32,
    ) -> Result<Vec<u8>, AllocError> {
        let name = NAMES.get(number as usize % 7).copied().unwrap_or("");
        let good = graph_named(name).unwrap_or(LINES);
        mutator.changed(alloc, good.as_bytes(), LINES.as_bytes())
    }

    fn is_accepted(&self, alloc: Global, text: &[u8], number: u32) -> Result<bool, Otherwise> {
        let vertices = VERTICES[number as usize % 5];
        let both = number % 3 == 0;
        let stated = judge_text(alloc, text, vertices, both)?;
        compared(read_text(alloc, text, vertices, both), stated, vertices)
    }
}

/// Graphs as units of numbers.
#[derive(Drop)]
pub struct Pairs {
    weighted: bool,
    good: Vec<u8>,
}

impl Pairs {
    /// Units with or without weights.
    pub fn new(alloc: Global, weighted: bool) -> Result<Pairs, AllocError> {
        let text = if weighted {
            "00000000 01000000 05000000 01000000 02000000 ffffffff 02000000 00000000 00000080"
        } else {
            "00000000 01000000 00000000 02000000 01000000 03000000 02000000 03000000"
        };
        Ok(Pairs {
            weighted,
            good: spelled(alloc, text)?,
        })
    }
}

impl Kind for Pairs {
    fn changed(
        &self,
        alloc: Global,
        mutator: &mut Mutator,
        _number: u32,
    ) -> Result<Vec<u8>, AllocError> {
        mutator.changed(alloc, &self.good, &self.good)
    }

    fn is_accepted(&self, alloc: Global, text: &[u8], number: u32) -> Result<bool, Otherwise> {
        let both = number % 2 == 0;
        let stated = judge_pairs(alloc, text, self.weighted, both)?;
        compared(read_pairs(alloc, text, self.weighted, both), stated, None)
    }
}

/// Whether a graph is read, where it or its refusal is the stated one.
fn compared(
    read: Result<Edges, EdgeFault>,
    stated: Result<Graph, Fault>,
    vertices: Option<u32>,
) -> Result<bool, Otherwise> {
    match (read, stated) {
        (Err(EdgeFault::Want), _) => Err(Otherwise::Want),
        (Ok(edges), Ok(graph)) => {
            if edges.vertices != vertices.unwrap_or(graph.bound) {
                return Err(Otherwise::Told("another number of vertices"));
            }
            if edges.list.as_slice() != graph.edges.as_slice() {
                return Err(Otherwise::Told("other edges"));
            }
            Ok(true)
        }
        (Err(EdgeFault::Line { code, line }), Err(Fault::Line(stated, place)))
            if code == stated && line == place => Ok(false),
        (Err(EdgeFault::Byte { code, at }), Err(Fault::Byte(stated, place)))
            if code == stated && at == place => Ok(false),
        _ => Err(Otherwise::Told("another answer to the graph")),
    }
}
