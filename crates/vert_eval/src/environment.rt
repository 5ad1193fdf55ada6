use arrayvec::ArrayVec;
use vert_base::{Neighbour, Row, VertexId};

/// What the expressions of a program read at one vertex, and what its statements change there.
///
/// `other`, `other_row` and the weight in `other` are those of the neighbour that a loop body or a
/// sparse body is at. Bit i of `touched` tells that an `op=` ran on local i. `key` is the key under
/// which emissions are added to their slots.
#[derive(Drop)]
pub struct Env {
    pub id: VertexId,
    pub n: u32,
    pub round: u32,
    pub indeg: u32,
    pub outdeg: u32,
    pub draws: u64,
    pub row: Row,
    pub next_active: bool,
    pub locals: ArrayVec<i64, 8>,
    pub touched: u8,
    pub other: Neighbour,
    pub other_row: Row,
    pub sends: ArrayVec<i64, 8>,
    pub slots: ArrayVec<Option<i64>, 8>,
    pub totals: ArrayVec<i64, 4>,
    pub key: u32,
}

/// Whether a run of statements met a `break`.
#[derive(Clone, Copy, Debug, PartialEq, Eq)]
pub enum Flow {
    Going,
    Broke,
}
