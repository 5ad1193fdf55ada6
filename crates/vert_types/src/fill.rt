//! Says of each name what it stands for.
#![tactic(auto)]

ghost use Rattle.std.specs.Prelude.{◌≡◌, IsTrue, List, length, map, option_map};
ghost use Rattle.std.specs.List.{list_all};
ghost use Rattle.std.specs.declared.alloc.Global.{Global};
ghost use Rattle.std.specs.declared.string.String.{String};
ghost use Rattle.vert_tree.specs.Places.{option_all};
ghost use Rattle.vert_tree.specs.Views.{view, view_block, view_declaration, view_dense, view_name, view_program, view_slot, view_sparse, view_statement, view_total};
ghost use Rattle.vert_types.specs.Filled.{body_filled, decls_filled, dense_filled, expr_filled, name_filled, program_filled, sparse_filled, stmt_filled, totals_filled};
ghost use Rattle.vert_types.specs.Parsed.{body_known, decls_known, dense_known, expr_known, name_known, program_known, sparse_known, stmt_known, totals_known};
ghost use Rattle.vert_types.specs.Scopes.{what_at};

use crate::scope::Meaning;
use vert_tree::{Decl, Dense, Expr, Ident, Node, Program, SlotDecl, Sparse, Stmt, TotalDecl, What};

/// A name.
fn fill_name(name: &mut Ident, meanings: &[Option<Meaning>])
    requires { IsTrue (name_known (length meanings.now) name.old) }
    ensures same { (names : List (String Global)) →
        view_name names name.new ≡ view_name names name.old }
    ensures filled { IsTrue (name_filled (what_at meanings.now) name.new) }
{
    name.what = match meanings[name.name as usize] {
        Some(meaning) => meaning.what,
        None => What::Unread,
    };
}

/// An expression.
pub(crate) fn fill_expr(e: &mut Expr, meanings: &[Option<Meaning>])
    requires { IsTrue (expr_known (length meanings.now) e.old) }
    ensures same { (names : List (String Global)) → view names e.new ≡ view names e.old }
    ensures filled { IsTrue (expr_filled (what_at meanings.now) e.new) }
{
    match &mut e.node {
        Node::Int(_) | Node::Bool(_) | Node::Word(_) | Node::OtherWord(_) | Node::Draw(_, _) => {}
        Node::Name(name) => fill_name(name, meanings),
        Node::Got(name) => fill_name(name, meanings),
        Node::Value(name) => fill_name(name, meanings),
        Node::OtherField(name) => fill_name(name, meanings),
        Node::Neg(a) => fill_expr(a, meanings),
        Node::Not(a) => fill_expr(a, meanings),
        Node::Group(a) => fill_expr(a, meanings),
        Node::Binary(_, a, b) => {
            fill_expr(a, meanings);
            fill_expr(b, meanings);
        }
        Node::Cond(test, a, b) => {
            fill_expr(test, meanings);
            fill_expr(a, meanings);
            fill_expr(b, meanings);
        }
        Node::Least(a, b) => {
            fill_expr(a, meanings);
            fill_expr(b, meanings);
        }
        Node::Greatest(a, b) => {
            fill_expr(a, meanings);
            fill_expr(b, meanings);
        }
    }
}

#[cycle(fill)]
fn fill_stmt(stmt: &mut Stmt, meanings: &[Option<Meaning>])
    requires { IsTrue (stmt_known (length meanings.now) stmt.old) }
    ensures same { (names : List (String Global)) →
        view_statement names stmt.new ≡ view_statement names stmt.old }
    ensures filled { IsTrue (stmt_filled (what_at meanings.now) stmt.new) }
{
    match stmt {
        Stmt::Assign(target, _, value) => {
            fill_name(target, meanings);
            fill_expr(value, meanings);
        }
        Stmt::SetActive(_, value) => fill_expr(value, meanings),
        Stmt::If(_, test, held, otherwise) => {
            fill_expr(test, meanings);
            fill_body(held, meanings);
            if let Some(body) = otherwise {
                fill_body(body, meanings);
            }
        }
        Stmt::Emit(_, slot, value) => {
            fill_name(slot, meanings);
            fill_expr(value, meanings);
        }
        Stmt::Break(_) => {}
    }
}

/// The statements of a block.
#[cycle(fill)]
pub(crate) fn fill_body(body: &mut Vec<Stmt>, meanings: &[Option<Meaning>])
    requires { IsTrue (body_known (length meanings.now) body.old.items) }
    ensures same { (names : List (String Global)) →
        view_block names body.new.items ≡ view_block names body.old.items }
    ensures filled { IsTrue (body_filled (what_at meanings.now) body.new.items) }
{
    for i in 0..body.len() {
        fill_stmt(&mut body[i], meanings);
    }
}

fn fill_decls(decls: &mut Vec<Decl>, meanings: &[Option<Meaning>])
    requires { IsTrue (decls_known (length meanings.now) decls.old.items) }
    ensures same { (names : List (String Global)) → map (view_declaration names) decls.new.items
        ≡ map (view_declaration names) decls.old.items }
    ensures filled { IsTrue (decls_filled (what_at meanings.now) decls.new.items) }
{
    for i in 0..decls.len() {
        let decl = &mut decls[i];
        fill_name(&mut decl.name, meanings);
        fill_expr(&mut decl.value, meanings);
    }
}

fn fill_slots(slots: &mut Vec<SlotDecl>, meanings: &[Option<Meaning>])
    requires { IsTrue (list_all (λ s. name_known (length meanings.now) s.name) slots.old.items) }
    ensures same { (names : List (String Global)) → map (view_slot names) slots.new.items
        ≡ map (view_slot names) slots.old.items }
    ensures filled { IsTrue (list_all (λ s. name_filled (what_at meanings.now) s.name)
        slots.new.items) }
{
    for i in 0..slots.len() {
        let slot = &mut slots[i];
        fill_name(&mut slot.name, meanings);
    }
}

fn fill_totals(totals: &mut Vec<TotalDecl>, meanings: &[Option<Meaning>])
    requires { IsTrue (totals_known (length meanings.now) totals.old.items) }
    ensures same { (names : List (String Global)) → map (view_total names) totals.new.items
        ≡ map (view_total names) totals.old.items }
    ensures filled { IsTrue (totals_filled (what_at meanings.now) totals.new.items) }
{
    for i in 0..totals.len() {
        let total = &mut totals[i];
        fill_name(&mut total.name, meanings);
        fill_expr(&mut total.value, meanings);
    }
}

fn fill_dense(dense: &mut Dense, meanings: &[Option<Meaning>])
    requires { IsTrue (dense_known (length meanings.now) dense.old) }
    ensures same { (names : List (String Global)) →
        view_dense names dense.new ≡ view_dense names dense.old }
    ensures filled { IsTrue (dense_filled (what_at meanings.now) dense.new) }
{
    fill_expr(&mut dense.when_test, meanings);
    fill_decls(&mut dense.lets, meanings);
    fill_body(&mut dense.body, meanings);
    fill_body(&mut dense.tail, meanings);
}

fn fill_sparse(sparse: &mut Sparse, meanings: &[Option<Meaning>])
    requires { IsTrue (sparse_known (length meanings.now) sparse.old) }
    ensures same { (names : List (String Global)) →
        view_sparse names sparse.new ≡ view_sparse names sparse.old }
    ensures filled { IsTrue (sparse_filled (what_at meanings.now) sparse.new) }
{
    fill_expr(&mut sparse.when_test, meanings);
    fill_decls(&mut sparse.sends, meanings);
    fill_body(&mut sparse.body, meanings);
}

/// The dense block, if there is one.
fn fill_any_dense(dense: &mut Option<Dense>, meanings: &[Option<Meaning>])
    requires { IsTrue (option_all (dense_known (length meanings.now)) dense.old) }
    ensures same { (names : List (String Global)) → option_map (view_dense names) dense.new
        ≡ option_map (view_dense names) dense.old }
    ensures filled { IsTrue (option_all (dense_filled (what_at meanings.now)) dense.new) }
{
    match dense {
        Some(block) => fill_dense(block, meanings),
        None => {}
    }
}

/// The sparse block, if there is one.
fn fill_any_sparse(sparse: &mut Option<Sparse>, meanings: &[Option<Meaning>])
    requires { IsTrue (option_all (sparse_known (length meanings.now)) sparse.old) }
    ensures same { (names : List (String Global)) → option_map (view_sparse names) sparse.new
        ≡ option_map (view_sparse names) sparse.old }
    ensures filled { IsTrue (option_all (sparse_filled (what_at meanings.now)) sparse.new) }
{
    match sparse {
        Some(block) => fill_sparse(block, meanings),
        None => {}
    }
}

/// The stop test, if there is one.
fn fill_any_stop(stop: &mut Option<Expr>, meanings: &[Option<Meaning>])
    requires { IsTrue (option_all (expr_known (length meanings.now)) stop.old) }
    ensures same { (names : List (String Global)) →
        option_map (view names) stop.new ≡ option_map (view names) stop.old }
    ensures filled { IsTrue (option_all (expr_filled (what_at meanings.now)) stop.new) }
{
    match stop {
        Some(test) => fill_expr(test, meanings),
        None => {}
    }
}

/// All names of a program.
pub(crate) fn fill_program(program: &mut Program, meanings: &[Option<Meaning>])
    requires { IsTrue (program_known (length meanings.now) program.old) }
    ensures same { view_program program.new ≡ view_program program.old }
    ensures names { program.new.names ≡ program.old.names }
    ensures filled { IsTrue (program_filled (what_at meanings.now) program.new) }
{
    fill_decls(&mut program.fields, meanings);
    fill_slots(&mut program.slots, meanings);
    fill_totals(&mut program.totals, meanings);
    fill_expr(&mut program.start, meanings);
    fill_any_dense(&mut program.dense, meanings);
    fill_any_sparse(&mut program.sparse, meanings);
    fill_body(&mut program.update, meanings);
    fill_any_stop(&mut program.stop, meanings);
}
