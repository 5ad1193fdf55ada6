ghost use Rattle.std.specs.Prelude.{◌≡◌, ◌≤◌};
ghost use Rattle.vert_base.specs.declared.limits.TheConstants.{ROUNDS};

use super::graph::Graph;
use arrayvec::ArrayVec;
use vert_base::{Row, Ruling};
use vert_tree::Typed;

/// What a run works on, and whether it keeps what each vertex read.
#[derive(Drop)]
pub(crate) struct Job<'a> {
    pub program: &'a Typed,
    pub graph: &'a Graph<'a>,
    pub draws: u64,
    pub kept: bool,
}

/// What stands before a round: the rows and their totals, whether and in which mode the round takes
/// place, and the two numbers that the ruling was made from.
#[derive(Drop)]
pub(crate) struct Standing {
    pub rows: Vec<Row>,
    pub totals: ArrayVec<i64, 4>,
    pub ruling: Ruling,
    pub active: u64,
    pub edges: u64,
}

/// The greatest number of a round.
pub(crate) fn limit_of(program: &Typed) -> u32
    ensures limit { result ≡ program.now.program.limit }
    ensures few { result ≤ ROUNDS }
{
    program.program.limit as u32
}
