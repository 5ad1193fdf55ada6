//! The trees of vertex programs, and what makes a tree a typed program.
#![tactic(auto)]

mod expression;
mod name;
mod print;
mod program;
mod statement;
mod typed;

pub use expression::{BinOp, Builtin, Expr, Node};
pub use name::{Ident, What};
pub use print::{print_block, print_declarations, print_program};
pub use program::{Decl, Dense, Program, SlotDecl, Sparse, TotalDecl};
pub use statement::{AssignOp, Stmt};
pub use typed::Typed;
