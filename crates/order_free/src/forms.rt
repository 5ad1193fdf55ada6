//! The two forms of loop body that end at a neighbour.
#![tactic(auto)]

ghost use Rattle.std.specs.Prelude.{◌≡◌};
ghost use Rattle.order_free.specs.Forms.{counter_of, counts_up, ends_loop, is_bound, is_found_one, is_last_step, is_let, is_reach_a_count, names_counter, stops_at_bound};
ghost use Rattle.vert_tree.specs.declared.statement.Stmt.TheViews.{out-Stmt};

use crate::reads::{is_fixed, reads_known};
use carry_analysis::Class;
use vert_tree::{AssignOp, BinOp, Expr, Node, Stmt, What};

fn names_counter(what: What, counter: Option<u8>) -> bool
    ensures { result ≡ names_counter counter what }
{
    match (what, counter) {
        (What::Local(place), Some(let_place)) => place == let_place,
        _ => false,
    }
}

// An emission of a fixed value, or a plain assignment of one to a let that isn't the counter.
fn is_last_step(stmt: &Stmt, classes: &[Class], counter: Option<u8>) -> bool
    ensures { result ≡ is_last_step classes.now counter (out-Stmt stmt.now) }
{
    match stmt {
        Stmt::Assign(target, AssignOp::Set, value) => {
            !names_counter(target.what, counter) && is_fixed(value, classes, counter)
        }
        Stmt::Emit(_, _, value) => is_fixed(value, classes, counter),
        _ => false,
    }
}

// Whether a block is any number of such statements, and then a break.
fn ends_loop(body: &[Stmt], classes: &[Class], counter: Option<u8>) -> bool
    ensures { result ≡ ends_loop classes.now counter body.now }
{
    match body {
        [Stmt::Break(_)] => true,
        [first, others @ ..] => is_last_step(first, classes, counter)
            && ends_loop(others, classes, counter),
        [] => false,
    }
}

/// Whether a loop body is `if E { X break; }`.
pub(crate) fn is_found_one(body: &[Stmt], classes: &[Class]) -> bool
    ensures { result ≡ is_found_one classes.now body.now }
{
    match body {
        [Stmt::If(_, test, held, None)] => {
            reads_known(test, classes, None) && ends_loop(held, classes, None)
        }
        _ => false,
    }
}

// Whether an expression is the let with this place.
fn is_let(e: &Expr, place: u8) -> bool
    ensures { result ≡ is_let place e.now.node }
{
    match &e.node {
        Node::Name(name) => names_counter(name.what, Some(place)),
        _ => false,
    }
}

// Whether an expression is `c >= B`.
fn is_bound(test: &Expr, classes: &[Class], counter: u8) -> bool
    ensures { result ≡ is_bound classes.now counter test.now.node }
{
    match &test.node {
        Node::Binary(BinOp::Ge, left, bound) => {
            is_let(left, counter) && is_fixed(bound, classes, None)
        }
        _ => false,
    }
}

// Whether a statement is `if c >= B { X break; }`.
fn stops_at_bound(stmt: &Stmt, classes: &[Class], counter: u8) -> bool
    ensures { result ≡ stops_at_bound classes.now counter (out-Stmt stmt.now) }
{
    match stmt {
        Stmt::If(_, test, held, None) => {
            is_bound(test, classes, counter) && ends_loop(held, classes, Some(counter))
        }
        _ => false,
    }
}

// The let that a statement `c += K;` counts in.
fn counter_of(stmt: &Stmt, classes: &[Class]) -> Option<u8>
    ensures { result ≡ counter_of classes.now (out-Stmt stmt.now) }
{
    match stmt {
        Stmt::Assign(target, AssignOp::Add, step) => match target.what {
            What::Local(place) => {
                if is_fixed(step, classes, None) {
                    Some(place)
                } else {
                    None
                }
            }
            _ => None,
        },
        _ => None,
    }
}

// Whether a block is `c += K; if c >= B { X break; }`.
fn counts_up(body: &[Stmt], classes: &[Class]) -> bool
    ensures { result ≡ counts_up classes.now body.now }
{
    match body {
        [first, second] => match counter_of(first, classes) {
            Some(counter) => stops_at_bound(second, classes, counter),
            None => false,
        },
        _ => false,
    }
}

/// Whether a loop body is `if E { c += K; if c >= B { X break; } }`.
pub(crate) fn is_reach_a_count(body: &[Stmt], classes: &[Class]) -> bool
    ensures { result ≡ is_reach_a_count classes.now body.now }
{
    match body {
        [Stmt::If(_, test, held, None)] => {
            reads_known(test, classes, None) && counts_up(held, classes)
        }
        _ => false,
    }
}
