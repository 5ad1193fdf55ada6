//! The reads of lets in expressions.
#![tactic(auto, using(crate::proofs::Rules::walk_laws))]

ghost use Rattle.std.specs.Prelude.{◌≡◌};
ghost use Rattle.carry_analysis.specs.Classes.{expr_marks};
ghost use Rattle.carry_analysis.specs.Walks.{walk_after, walk_of};

use crate::seen::{Use, Walk};
use vert_tree::{Expr, Node};

pub(crate) fn walk_expr(e: &Expr, walk: &mut Walk)
    ensures { walk_of walk.new ≡ walk_after (walk_of walk.old) (expr_marks e.now) }
{
    match &e.node {
        Node::Int(_) | Node::Bool(_) | Node::Word(_) | Node::OtherWord(_) | Node::Draw(_, _) => {}
        Node::Got(_) | Node::Value(_) | Node::OtherField(_) => {}
        Node::Name(name) => walk.note(name.what, Use::Read),
        Node::Neg(a) => walk_expr(a, walk),
        Node::Not(a) => walk_expr(a, walk),
        Node::Group(a) => walk_expr(a, walk),
        Node::Binary(_, a, b) => {
            walk_expr(a, walk);
            walk_expr(b, walk);
        }
        Node::Cond(test, a, b) => {
            walk_expr(test, walk);
            walk_expr(a, walk);
            walk_expr(b, walk);
        }
        Node::Least(a, b) => {
            walk_expr(a, walk);
            walk_expr(b, walk);
        }
        Node::Greatest(a, b) => {
            walk_expr(a, walk);
            walk_expr(b, walk);
        }
    }
}
