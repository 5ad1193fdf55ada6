//! What an expression of a loop body reads.
#![tactic(auto)]

ghost use Rattle.std.specs.Prelude.{◌≡◌};
ghost use Rattle.vert_tree.specs.Readable.{in_tests, node_read};
ghost use Rattle.order_free.specs.Fixed.{is_fixed, is_known, is_unassigned, reads_known};

use carry_analysis::Class;
use vert_tree::{Builtin, Expr, Node, What};

fn is_unassigned(classes: &[Class], place: u8) -> bool
    ensures { result ≡ is_unassigned classes.now place }
{
    match classes.get(usize::from(place)) {
        Some(Class::Constant) => true,
        _ => false,
    }
}

fn is_known(classes: &[Class], counter: Option<u8>, place: u8) -> bool
    ensures { result ≡ is_known classes.now counter place }
{
    match counter {
        Some(let_place) => place == let_place || is_unassigned(classes, place),
        None => is_unassigned(classes, place),
    }
}

/// Whether an expression reads no let that the loop body assigns, but for the counter.
pub(crate) fn reads_known(e: &Expr, classes: &[Class], counter: Option<u8>) -> bool
    ensures { result ≡ reads_known classes.now counter e.now.node }
{
    match &e.node {
        Node::Int(_) | Node::Bool(_) | Node::Word(_) | Node::OtherWord(_) | Node::Draw(_, _) =>
            true,
        Node::Got(_) | Node::Value(_) | Node::OtherField(_) => true,
        Node::Name(name) => match name.what {
            What::Local(place) => is_known(classes, counter, place),
            _ => true,
        },
        Node::Neg(a) | Node::Not(a) | Node::Group(a) => reads_known(a, classes, counter),
        Node::Binary(_, a, b) | Node::Least(a, b) | Node::Greatest(a, b) => {
            reads_known(a, classes, counter) && reads_known(b, classes, counter)
        }
        Node::Cond(test, a, b) => {
            reads_known(test, classes, counter)
                && reads_known(a, classes, counter)
                && reads_known(b, classes, counter)
        }
    }
}

/// Whether an expression reads neither the neighbour nor the weight of its edge.
fn reads_own(e: &Expr) -> bool
    ensures { result ≡ node_read in_tests e.now.node }
{
    match &e.node {
        Node::Int(_) | Node::Bool(_) | Node::Name(_) | Node::Draw(_, _) => true,
        Node::Word(Builtin::Weight) => false,
        Node::Word(_) => true,
        Node::Got(_) | Node::Value(_) | Node::OtherField(_) | Node::OtherWord(_) => false,
        Node::Neg(a) | Node::Not(a) | Node::Group(a) => reads_own(a),
        Node::Binary(_, a, b) | Node::Least(a, b) | Node::Greatest(a, b) => {
            reads_own(a) && reads_own(b)
        }
        Node::Cond(test, a, b) => reads_own(test) && reads_own(a) && reads_own(b),
    }
}

/// Whether an expression has one value at every neighbour and at every turn of the loop, but for what
/// the counter brings.
pub(crate) fn is_fixed(e: &Expr, classes: &[Class], counter: Option<u8>) -> bool
    ensures { result ≡ is_fixed classes.now counter e.now.node }
{
    reads_own(e) && reads_known(e, classes, counter)
}
