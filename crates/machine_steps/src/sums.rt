use arrayvec::ArrayVec;
use body_shape::Counts;

/// What was counted of some vertices, with their totals.
#[derive(Drop)]
pub struct Sums {
    pub counts: Counts,
    pub totals: ArrayVec<i64, 4>,
}
