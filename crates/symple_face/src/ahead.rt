use arrayvec::ArrayVec;
use vert_base::Ruling;

/// What machine 0 tells of the round that it begins: what a start of this round holds but for the rows.
#[derive(Debug, Drop)]
pub struct Ahead {
    pub round: u32,
    pub ruling: Ruling,
    pub active: u64,
    pub edges: u64,
    pub totals: ArrayVec<i64, 4>,
}
