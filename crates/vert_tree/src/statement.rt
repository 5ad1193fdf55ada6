use super::{Expr, Ident};
use vert_base::Span;

/// How an assignment changes its target.
#[derive(Clone, Copy, Debug, PartialEq, Eq)]
pub enum AssignOp {
    Set,
    Add,
    Least,
    Greatest,
}

/// A statement. Of an `If` the first list runs where the test is true, and else the second.
#[derive(Drop)]
pub enum Stmt {
    Assign(Ident, AssignOp, Expr),
    SetActive(Span, Expr),
    If(Span, Expr, Vec<Stmt>, Option<Vec<Stmt>>),
    Emit(Span, Ident, Expr),
    Break(Span),
}
