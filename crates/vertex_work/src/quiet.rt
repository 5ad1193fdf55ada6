//! Updates that change nothing where no slot has a value.

ghost use Rattle.std.specs.Prelude.{◌≡◌};
ghost use Rattle.value_laws.specs.Blind.{asks_a_slot, is_quiet, is_quiet_statement};

use vert_tree::{BinOp, Expr, Node, Stmt};

/// Whether each statement of an update is an `if` without `else` that asks whether a slot has a
/// value.
pub fn is_quiet(update: &[Stmt]) -> bool
    ensures { result ≡ is_quiet update.now }
{
    for stmt in update {
        if !is_quiet_statement(stmt) {
            return false;
        }
    }
    true
}

fn is_quiet_statement(stmt: &Stmt) -> bool
    ensures { result ≡ is_quiet_statement stmt.now }
{
    match stmt {
        Stmt::If(_, test, _, None) => asks_a_slot(test),
        _ => false,
    }
}

/// Whether a chain of `&&` asks whether a slot has a value.
fn asks_a_slot(test: &Expr) -> bool
    ensures { result ≡ asks_a_slot test.now.node }
{
    match &test.node {
        Node::Got(_) => true,
        Node::Binary(BinOp::And, left, right) => asks_a_slot(left) || asks_a_slot(right),
        Node::Group(inner) => asks_a_slot(inner),
        _ => false,
    }
}
