//! The types and the first fault of expressions.
#![tactic(auto, using(crate::proofs::Rules::expression_laws))]

ghost use Rattle.std.specs.Prelude.{◌≡◌, IsTrue, length};
ghost use Rattle.vert_tree.specs.Kinds.{operand_kind, outcome_kind, word_kind};
ghost use Rattle.vert_tree.specs.Views.{view};
ghost use Rattle.vert_types.specs.Findings.{first_from};
ghost use Rattle.vert_types.specs.Parsed.{expr_known};
ghost use Rattle.vert_types.specs.Scopes.{IsScope, dictionary_in, names_in, view_place};
ghost use Rattle.vert_types.specs.Typing.{clashes, faults_as, faults_of, kind_faults, kind_of, same_faults};

use crate::find::{is_other_word, use_name, word_read};
use crate::findings::{Findings, MISTYPED, MISUSED, OVERDRAWN};
use crate::scope::{Place, Role, Scope};
use vert_base::{Span, ValueType};
use vert_tree::{BinOp, Builtin, Expr, Node};

fn word_kind(word: Builtin) -> ValueType
    ensures { result ≡ word_kind word }
{
    match word {
        Builtin::Active => ValueType::Bool,
        _ => ValueType::Int,
    }
}

fn operand_kind(op: BinOp) -> ValueType
    ensures { result ≡ operand_kind op }
{
    match op {
        BinOp::And | BinOp::Or => ValueType::Bool,
        _ => ValueType::Int,
    }
}

fn outcome_kind(op: BinOp) -> ValueType
    ensures { result ≡ outcome_kind op }
{
    match op {
        BinOp::Add | BinOp::Sub | BinOp::Mul | BinOp::Div | BinOp::Rem => ValueType::Int,
        _ => ValueType::Bool,
    }
}

fn clashes(wanted: ValueType, has: Option<ValueType>) -> bool
    ensures { result ≡ clashes wanted has }
{
    match (wanted, has) {
        (ValueType::Int, Some(ValueType::Bool)) | (ValueType::Bool, Some(ValueType::Int)) => true,
        _ => false,
    }
}

/// Notes that an expression or a target has another type than it must have.
pub(crate) fn match_kind(
    wanted: ValueType,
    has: Option<ValueType>,
    span: Span,
    found: &mut Findings,
)
    ensures { found.new.first ≡ first_from found.old.first (kind_faults wanted has span) }
{
    if clashes(wanted, has) {
        found.note(MISTYPED, span);
    }
}

/// Notes that two expressions that must have one type have two.
pub(crate) fn match_kinds(
    wanted: Option<ValueType>,
    has: Option<ValueType>,
    span: Span,
    found: &mut Findings,
)
    ensures { found.new.first ≡ first_from found.old.first (same_faults wanted has span) }
{
    if let Some(kind) = wanted {
        match_kind(kind, has, span, found);
    }
}

/// An expression that must have this type.
#[cycle(expression)]
pub(crate) fn check_as(
    wanted: ValueType,
    e: &Expr,
    scope: &Scope,
    place: &Place,
    found: &mut Findings,
)
    requires scope { IsScope scope.now }
    requires known { IsTrue (expr_known (length (names_in scope.now)) e.now) }
    ensures { found.new.first ≡ first_from found.old.first
        (faults_as (dictionary_in scope.now) (view_place place.now) wanted
        (view (names_in scope.now) e.now)) }
{
    let has = check_expr(e, scope, place, found);
    match_kind(wanted, has, e.span, found);
}

/// The type of an expression, none where it has every type.
#[cycle(expression)]
pub(crate) fn check_expr(
    e: &Expr,
    scope: &Scope,
    place: &Place,
    found: &mut Findings,
) -> Option<ValueType>
    requires scope { IsScope scope.now }
    requires known { IsTrue (expr_known (length (names_in scope.now)) e.now) }
    ensures kind { result ≡ kind_of (dictionary_in scope.now) (view_place place.now)
        (view (names_in scope.now) e.now) }
    ensures faults { found.new.first
        ≡ first_from found.old.first
        (faults_of (dictionary_in scope.now) (view_place place.now)
        (view (names_in scope.now) e.now)) }
{
    match &e.node {
        Node::Int(_) => Some(ValueType::Int),
        Node::Bool(_) => Some(ValueType::Bool),
        Node::Word(word) => {
            found.unless(word_read(&place.words, *word), MISUSED, e.span);
            Some(word_kind(*word))
        }
        Node::Name(name) => use_name(name, Role::Read, scope, place, found),
        Node::Got(name) => {
            use_name(name, Role::ReadSlot, scope, place, found);
            Some(ValueType::Bool)
        }
        Node::Value(name) => {
            use_name(name, Role::ReadSlot, scope, place, found);
            Some(ValueType::Int)
        }
        Node::OtherField(name) => {
            found.unless(place.words.others, MISUSED, e.span);
            use_name(name, Role::Behind, scope, place, found)
        }
        Node::OtherWord(word) => {
            found.unless(place.words.others && is_other_word(*word), MISUSED, e.span);
            Some(word_kind(*word))
        }
        Node::Draw(at, number) => {
            found.unless(place.words.own, MISUSED, e.span);
            found.unless(*number < 256, OVERDRAWN, *at);
            Some(ValueType::Int)
        }
        Node::Neg(a) => {
            check_as(ValueType::Int, a, scope, place, found);
            Some(ValueType::Int)
        }
        Node::Not(a) => {
            check_as(ValueType::Bool, a, scope, place, found);
            Some(ValueType::Bool)
        }
        Node::Binary(op, a, b) => {
            check_as(operand_kind(*op), a, scope, place, found);
            check_as(operand_kind(*op), b, scope, place, found);
            Some(outcome_kind(*op))
        }
        Node::Cond(test, a, b) => {
            check_as(ValueType::Bool, test, scope, place, found);
            let kind = check_expr(a, scope, place, found);
            let other = check_expr(b, scope, place, found);
            match_kinds(kind, other, b.span, found);
            kind
        }
        Node::Least(a, b) | Node::Greatest(a, b) => {
            check_as(ValueType::Int, a, scope, place, found);
            check_as(ValueType::Int, b, scope, place, found);
            Some(ValueType::Int)
        }
        Node::Group(a) => check_expr(a, scope, place, found),
    }
}
