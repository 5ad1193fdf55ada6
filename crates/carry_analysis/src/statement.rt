//! The uses of lets in the statements of a loop body, and its breaks.
#![tactic(auto, using(crate::proofs::Rules::walk_laws))]

ghost use Rattle.std.specs.Prelude.{◌≡◌};
ghost use Rattle.carry_analysis.specs.Classes.{body_marks, statement_marks};
ghost use Rattle.carry_analysis.specs.Walks.{walk_after, walk_of};

use crate::expression::walk_expr;
use crate::seen::{Use, Walk};
use vert_tree::Stmt;

#[cycle(statement)]
fn walk_stmt(stmt: &Stmt, walk: &mut Walk)
    ensures { walk_of walk.new ≡ walk_after (walk_of walk.old) (statement_marks stmt.now) }
{
    match stmt {
        Stmt::Assign(target, op, value) => {
            walk_expr(value, walk);
            walk.note(target.what, Use::Assigned(*op));
        }
        Stmt::SetActive(_, value) => walk_expr(value, walk),
        Stmt::If(_, test, held, otherwise) => {
            walk_expr(test, walk);
            walk_body(held, walk);
            if let Some(body) = otherwise {
                walk_body(body, walk);
            }
        }
        Stmt::Emit(_, _, value) => walk_expr(value, walk),
        Stmt::Break(_) => walk.breaks = true,
    }
}

/// The statements of a block.
#[cycle(statement)]
pub(crate) fn walk_body(body: &[Stmt], walk: &mut Walk)
    ensures { walk_of walk.new ≡ walk_after (walk_of walk.old) (body_marks body.now) }
{
    for stmt in body {
        walk_stmt(stmt, walk);
    }
}
