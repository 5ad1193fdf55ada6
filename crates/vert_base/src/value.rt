use arrayvec::ArrayVec;

/// The type of a field, a let, a send or an expression.
#[derive(Clone, Copy, Debug, PartialEq, Eq)]
pub enum ValueType {
    Int,
    Bool,
}

/// How the emissions to a slot, or the values of a total, become one.
#[derive(Clone, Copy, Debug, PartialEq, Eq)]
pub enum Combine {
    Min,
    Max,
    Sum,
    First,
}

/// How a program chooses the mode of a round.
#[derive(Clone, Copy, Debug, PartialEq, Eq)]
pub enum Mode {
    Auto,
    Dense,
    Sparse,
}

/// What happens next: no round, or a round in this mode.
#[derive(Clone, Copy, Debug, PartialEq, Eq)]
pub enum Ruling {
    Stop,
    Dense,
    Sparse,
}

/// The fields of a vertex, one word each, and whether it is active. A `Bool` is the word 0 or 1.
#[derive(Debug, Drop)]
pub struct Row {
    pub words: ArrayVec<i64, 16>,
    pub active: bool,
}
