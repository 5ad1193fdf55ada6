//! The first fault of statements.
#![tactic(auto, using(crate::proofs::Rules::expression_laws))]

ghost use Rattle.std.specs.Prelude.{◌≡◌, IsTrue, length};
ghost use Rattle.vert_tree.specs.Views.{view, view_block, view_name, view_statement};
ghost use Rattle.vert_types.specs.Findings.{first_from};
ghost use Rattle.vert_types.specs.Parsed.{body_known, expr_known, name_known, stmt_known};
ghost use Rattle.vert_types.specs.Scopes.{IsScope, dictionary_in, names_in, view_place, view_rights};
ghost use Rattle.vert_types.specs.Typing.{block_faults, statement_faults, target_faults, value_faults};

use crate::expression::{check_as, check_expr, match_kind, match_kinds};
use crate::find::use_name;
use crate::findings::{Findings, MISUSED};
use crate::scope::{Place, Rights, Role, Scope};
use vert_base::{Span, ValueType};
use vert_tree::{AssignOp, Expr, Stmt};

/// The target of an assignment, by its type.
fn check_target(op: AssignOp, target: Option<ValueType>, span: Span, found: &mut Findings)
    ensures { found.new.first ≡ first_from found.old.first (target_faults op target span) }
{
    match op {
        AssignOp::Set => {}
        _ => match_kind(ValueType::Int, target, span, found),
    }
}

/// What is assigned to a target of this type.
fn check_value(
    op: AssignOp,
    target: Option<ValueType>,
    value: &Expr,
    scope: &Scope,
    place: &Place,
    found: &mut Findings,
)
    requires scope { IsScope scope.now }
    requires known { IsTrue (expr_known (length (names_in scope.now)) value.now) }
    ensures { found.new.first ≡ first_from found.old.first
        (value_faults (dictionary_in scope.now) (view_place place.now) op target
        (view (names_in scope.now) value.now)) }
{
    match op {
        AssignOp::Set => {
            let has = check_expr(value, scope, place, found);
            match_kinds(target, has, value.span, found);
        }
        _ => check_as(ValueType::Int, value, scope, place, found),
    }
}

#[cycle(statement)]
fn check_stmt(stmt: &Stmt, rights: &Rights, scope: &Scope, place: &Place, found: &mut Findings)
    requires scope { IsScope scope.now }
    requires known { IsTrue (stmt_known (length (names_in scope.now)) stmt.now) }
    ensures { found.new.first ≡ first_from found.old.first
        (statement_faults (dictionary_in scope.now) (view_rights rights.now) (view_place place.now)
        (view_statement (names_in scope.now) stmt.now)) }
{
    match stmt {
        Stmt::Assign(target, op, value) => {
            let kind = use_name(target, Role::Assigned(*rights), scope, place, found);
            check_target(*op, kind, target.span, found);
            check_value(*op, kind, value, scope, place, found);
        }
        Stmt::SetActive(span, value) => {
            found.unless(rights.active, MISUSED, *span);
            check_as(ValueType::Bool, value, scope, place, found);
        }
        Stmt::If(_, test, held, otherwise) => {
            check_as(ValueType::Bool, test, scope, place, found);
            check_body(held, rights, scope, place, found);
            if let Some(body) = otherwise {
                check_body(body, rights, scope, place, found);
            }
        }
        Stmt::Emit(span, slot, value) => {
            found.unless(rights.emits, MISUSED, *span);
            use_name(slot, Role::Emitted, scope, place, found);
            check_as(ValueType::Int, value, scope, place, found);
        }
        Stmt::Break(span) => found.unless(rights.breaks, MISUSED, *span),
    }
}

/// The statements of a block.
#[cycle(statement)]
pub(crate) fn check_body(
    body: &[Stmt],
    rights: &Rights,
    scope: &Scope,
    place: &Place,
    found: &mut Findings,
)
    requires scope { IsScope scope.now }
    requires known { IsTrue (body_known (length (names_in scope.now)) body.now) }
    ensures { found.new.first ≡ first_from found.old.first
        (block_faults (dictionary_in scope.now) (view_rights rights.now) (view_place place.now)
        (view_block (names_in scope.now) body.now)) }
{
    for stmt in body {
        check_stmt(stmt, rights, scope, place, found);
    }
}
