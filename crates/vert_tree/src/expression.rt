use super::Ident;
use vert_base::Span;

/// A word of the language that stands for a value at a vertex.
#[derive(Clone, Copy, Debug, PartialEq, Eq)]
pub enum Builtin {
    Id,
    Count,
    Round,
    InDeg,
    OutDeg,
    Active,
    Weight,
}

/// An operator with two operands.
#[derive(Clone, Copy, Debug, PartialEq, Eq)]
pub enum BinOp {
    Add,
    Sub,
    Mul,
    Div,
    Rem,
    Eq,
    Ne,
    Lt,
    Le,
    Gt,
    Ge,
    And,
    Or,
}

/// An expression and the place of its first token.
#[cycle(expr)]
#[derive(Drop)]
pub struct Expr {
    pub span: Span,
    pub node: Node,
}

/// What an expression is made of. `Group` is an expression in parentheses. A draw keeps the place of
/// its number, where a number that is too great is told.
#[cycle(expr)]
#[derive(Drop)]
pub enum Node {
    Int(i64),
    Bool(bool),
    Word(Builtin),
    Name(Ident),
    Got(Ident),
    Value(Ident),
    OtherField(Ident),
    OtherWord(Builtin),
    Draw(Span, u64),
    Neg(Box<Expr>),
    Not(Box<Expr>),
    Binary(BinOp, Box<Expr>, Box<Expr>),
    Cond(Box<Expr>, Box<Expr>, Box<Expr>),
    Least(Box<Expr>, Box<Expr>),
    Greatest(Box<Expr>, Box<Expr>),
    Group(Box<Expr>),
}
