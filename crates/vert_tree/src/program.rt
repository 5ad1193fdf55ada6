use super::{Expr, Ident, Stmt};
use vert_base::{Combine, Mode, Span, ValueType};

/// A field, a let or a send.
#[derive(Drop)]
pub struct Decl {
    pub name: Ident,
    pub kind: ValueType,
    pub value: Expr,
}

/// A slot, to which blocks emit.
#[derive(Drop)]
pub struct SlotDecl {
    pub name: Ident,
    pub op: Combine,
}

/// A total over all vertices.
#[derive(Drop)]
pub struct TotalDecl {
    pub name: Ident,
    pub op: Combine,
    pub value: Expr,
}

/// The dense block: the loop body runs on each neighbour up to a break, and then the tail runs.
#[derive(Drop)]
pub struct Dense {
    pub when_test: Expr,
    pub lets: Vec<Decl>,
    pub body: Vec<Stmt>,
    pub tail: Vec<Stmt>,
}

/// The sparse block: the sends are worked out at the sender, and the body runs at the receiver.
#[derive(Drop)]
pub struct Sparse {
    pub when_test: Expr,
    pub sends: Vec<Decl>,
    pub body: Vec<Stmt>,
}

/// A program of language version 1 or 2. `names` holds the text of each name once, in order of
/// first appearance.
#[derive(Drop)]
pub struct Program {
    pub version: u8,
    pub mode: Mode,
    pub mode_at: Span,
    pub limit: u64,
    pub limit_at: Span,
    pub names: Vec<String>,
    pub fields: Vec<Decl>,
    pub slots: Vec<SlotDecl>,
    pub totals: Vec<TotalDecl>,
    pub start: Expr,
    pub dense: Option<Dense>,
    pub sparse: Option<Sparse>,
    pub update: Vec<Stmt>,
    pub stop: Option<Expr>,
}
