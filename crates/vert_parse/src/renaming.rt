//! Names get new numbers, by their texts.
#![tactic(auto)]

ghost use Rattle.std.specs.Prelude.{◌≡◌, ◌≤◌, ◌^◌, length, map, option_map, IsTrue};
ghost use Rattle.std.specs.List.{list_all};
ghost use Rattle.vert_parse.specs.Entered.{has_place};
ghost use Rattle.vert_parse.specs.Idents.{body_all, decl_all, dense_all, expr_all, program_all, slot_all, sparse_all, stmt_all, total_all};
ghost use Rattle.vert_parse.specs.Parsing.{is_fresh};
ghost use Rattle.tree_reader.specs.Programs.{view_named};
ghost use Rattle.vert_tree.specs.Places.{option_all};
ghost use Rattle.vert_tree.specs.Views.{view, view_block, view_declaration, view_dense, view_name, view_slot, view_sparse, view_statement, view_total};

use crate::entering::text_of;
use indexmap::IndexSet;
use vert_tree::{Decl, Dense, Expr, Ident, Node, Program, SlotDecl, Sparse, Stmt, TotalDecl, What};

/// A name, whose text is one of those used.
fn rename(name: &mut Ident, names: &[String], used: &IndexSet<String>)
    requires place { IsTrue (has_place names.now used.now.keys name.old) }
    requires few { length used.now.keys ≤ 2 ^ 32 }
    ensures same { view_name used.now.keys name.new ≡ view_name names.now name.old }
    ensures fresh { IsTrue (is_fresh (length used.now.keys) name.new) }
{
    let text = text_of(names, name.name);
    if let Some(place) = used.get_index_of(text) {
        name.name = place as u32;
        name.what = What::Unread;
    }
}

fn rename_expr(expr: &mut Expr, names: &[String], used: &IndexSet<String>)
    requires places { IsTrue (expr_all (has_place names.now used.now.keys) expr.old) }
    requires few { length used.now.keys ≤ 2 ^ 32 }
    ensures same { view used.now.keys expr.new ≡ view names.now expr.old }
    ensures fresh { IsTrue (expr_all (is_fresh (length used.now.keys)) expr.new) }
{
    match &mut expr.node {
        Node::Int(_) | Node::Bool(_) | Node::Word(_) | Node::OtherWord(_) | Node::Draw(_, _) => {}
        Node::Name(name) => rename(name, names, used),
        Node::Got(name) => rename(name, names, used),
        Node::Value(name) => rename(name, names, used),
        Node::OtherField(name) => rename(name, names, used),
        Node::Neg(inner) => rename_expr(inner, names, used),
        Node::Not(inner) => rename_expr(inner, names, used),
        Node::Group(inner) => rename_expr(inner, names, used),
        Node::Binary(_, left, right) => {
            rename_expr(left, names, used);
            rename_expr(right, names, used);
        }
        Node::Cond(test, held, otherwise) => {
            rename_expr(test, names, used);
            rename_expr(held, names, used);
            rename_expr(otherwise, names, used);
        }
        Node::Least(left, right) => {
            rename_expr(left, names, used);
            rename_expr(right, names, used);
        }
        Node::Greatest(left, right) => {
            rename_expr(left, names, used);
            rename_expr(right, names, used);
        }
    }
}

#[cycle(renaming)]
fn rename_stmt(stmt: &mut Stmt, names: &[String], used: &IndexSet<String>)
    requires places { IsTrue (stmt_all (has_place names.now used.now.keys) stmt.old) }
    requires few { length used.now.keys ≤ 2 ^ 32 }
    ensures same { view_statement used.now.keys stmt.new ≡ view_statement names.now stmt.old }
    ensures fresh { IsTrue (stmt_all (is_fresh (length used.now.keys)) stmt.new) }
{
    match stmt {
        Stmt::Assign(target, _, value) => {
            rename(target, names, used);
            rename_expr(value, names, used);
        }
        Stmt::SetActive(_, value) => rename_expr(value, names, used),
        Stmt::If(_, test, held, otherwise) => {
            rename_expr(test, names, used);
            rename_body(held, names, used);
            if let Some(body) = otherwise {
                rename_body(body, names, used);
            }
        }
        Stmt::Emit(_, slot, value) => {
            rename(slot, names, used);
            rename_expr(value, names, used);
        }
        Stmt::Break(_) => {}
    }
}

#[cycle(renaming)]
pub(crate) fn rename_body(body: &mut Vec<Stmt>, names: &[String], used: &IndexSet<String>)
    requires places { IsTrue (body_all (has_place names.now used.now.keys) body.old.items) }
    requires few { length used.now.keys ≤ 2 ^ 32 }
    ensures same { view_block used.now.keys body.new.items ≡ view_block names.now body.old.items }
    ensures fresh { IsTrue (body_all (is_fresh (length used.now.keys)) body.new.items) }
{
    for i in 0..body.len() {
        rename_stmt(&mut body[i], names, used);
    }
}

fn rename_decl(decl: &mut Decl, names: &[String], used: &IndexSet<String>)
    requires places { IsTrue (decl_all (has_place names.now used.now.keys) decl.old) }
    requires few { length used.now.keys ≤ 2 ^ 32 }
    ensures same { view_declaration used.now.keys decl.new ≡ view_declaration names.now decl.old }
    ensures fresh { IsTrue (decl_all (is_fresh (length used.now.keys)) decl.new) }
{
    rename(&mut decl.name, names, used);
    rename_expr(&mut decl.value, names, used);
}

fn rename_decls(decls: &mut Vec<Decl>, names: &[String], used: &IndexSet<String>)
    requires places { IsTrue (list_all (decl_all (has_place names.now used.now.keys))
        decls.old.items) }
    requires few { length used.now.keys ≤ 2 ^ 32 }
    ensures same { map (view_declaration used.now.keys) decls.new.items
        ≡ map (view_declaration names.now) decls.old.items }
    ensures fresh { IsTrue (list_all (decl_all (is_fresh (length used.now.keys))) decls.new.items) }
{
    for i in 0..decls.len() {
        rename_decl(&mut decls[i], names, used);
    }
}

fn rename_slot(slot: &mut SlotDecl, names: &[String], used: &IndexSet<String>)
    requires places { IsTrue (slot_all (has_place names.now used.now.keys) slot.old) }
    requires few { length used.now.keys ≤ 2 ^ 32 }
    ensures same { view_slot used.now.keys slot.new ≡ view_slot names.now slot.old }
    ensures fresh { IsTrue (slot_all (is_fresh (length used.now.keys)) slot.new) }
{
    rename(&mut slot.name, names, used);
}

fn rename_slots(slots: &mut Vec<SlotDecl>, names: &[String], used: &IndexSet<String>)
    requires places { IsTrue (list_all (slot_all (has_place names.now used.now.keys))
        slots.old.items) }
    requires few { length used.now.keys ≤ 2 ^ 32 }
    ensures same { map (view_slot used.now.keys) slots.new.items
        ≡ map (view_slot names.now) slots.old.items }
    ensures fresh { IsTrue (list_all (slot_all (is_fresh (length used.now.keys))) slots.new.items) }
{
    for i in 0..slots.len() {
        rename_slot(&mut slots[i], names, used);
    }
}

fn rename_total(total: &mut TotalDecl, names: &[String], used: &IndexSet<String>)
    requires places { IsTrue (total_all (has_place names.now used.now.keys) total.old) }
    requires few { length used.now.keys ≤ 2 ^ 32 }
    ensures same { view_total used.now.keys total.new ≡ view_total names.now total.old }
    ensures fresh { IsTrue (total_all (is_fresh (length used.now.keys)) total.new) }
{
    rename(&mut total.name, names, used);
    rename_expr(&mut total.value, names, used);
}

fn rename_totals(totals: &mut Vec<TotalDecl>, names: &[String], used: &IndexSet<String>)
    requires places { IsTrue (list_all (total_all (has_place names.now used.now.keys))
        totals.old.items) }
    requires few { length used.now.keys ≤ 2 ^ 32 }
    ensures same { map (view_total used.now.keys) totals.new.items
        ≡ map (view_total names.now) totals.old.items }
    ensures fresh { IsTrue (list_all (total_all (is_fresh (length used.now.keys)))
        totals.new.items) }
{
    for i in 0..totals.len() {
        rename_total(&mut totals[i], names, used);
    }
}

fn rename_dense(dense: &mut Dense, names: &[String], used: &IndexSet<String>)
    requires places { IsTrue (dense_all (has_place names.now used.now.keys) dense.old) }
    requires few { length used.now.keys ≤ 2 ^ 32 }
    ensures same { view_dense used.now.keys dense.new ≡ view_dense names.now dense.old }
    ensures fresh { IsTrue (dense_all (is_fresh (length used.now.keys)) dense.new) }
{
    rename_expr(&mut dense.when_test, names, used);
    rename_decls(&mut dense.lets, names, used);
    rename_body(&mut dense.body, names, used);
    rename_body(&mut dense.tail, names, used);
}

fn rename_sparse(sparse: &mut Sparse, names: &[String], used: &IndexSet<String>)
    requires places { IsTrue (sparse_all (has_place names.now used.now.keys) sparse.old) }
    requires few { length used.now.keys ≤ 2 ^ 32 }
    ensures same { view_sparse used.now.keys sparse.new ≡ view_sparse names.now sparse.old }
    ensures fresh { IsTrue (sparse_all (is_fresh (length used.now.keys)) sparse.new) }
{
    rename_expr(&mut sparse.when_test, names, used);
    rename_decls(&mut sparse.sends, names, used);
    rename_body(&mut sparse.body, names, used);
}

fn rename_maybe_dense(dense: &mut Option<Dense>, names: &[String], used: &IndexSet<String>)
    requires places { IsTrue (option_all (dense_all (has_place names.now used.now.keys))
        dense.old) }
    requires few { length used.now.keys ≤ 2 ^ 32 }
    ensures same { option_map (view_dense used.now.keys) dense.new
        ≡ option_map (view_dense names.now) dense.old }
    ensures fresh { IsTrue (option_all (dense_all (is_fresh (length used.now.keys))) dense.new) }
{
    match dense {
        Some(dense) => rename_dense(dense, names, used),
        None => {}
    }
}

fn rename_maybe_sparse(sparse: &mut Option<Sparse>, names: &[String], used: &IndexSet<String>)
    requires places { IsTrue (option_all (sparse_all (has_place names.now used.now.keys))
        sparse.old) }
    requires few { length used.now.keys ≤ 2 ^ 32 }
    ensures same { option_map (view_sparse used.now.keys) sparse.new
        ≡ option_map (view_sparse names.now) sparse.old }
    ensures fresh { IsTrue (option_all (sparse_all (is_fresh (length used.now.keys))) sparse.new) }
{
    match sparse {
        Some(sparse) => rename_sparse(sparse, names, used),
        None => {}
    }
}

fn rename_maybe_stop(stop: &mut Option<Expr>, names: &[String], used: &IndexSet<String>)
    requires places { IsTrue (option_all (expr_all (has_place names.now used.now.keys)) stop.old) }
    requires few { length used.now.keys ≤ 2 ^ 32 }
    ensures same { option_map (view used.now.keys) stop.new ≡ option_map (view names.now) stop.old }
    ensures fresh { IsTrue (option_all (expr_all (is_fresh (length used.now.keys))) stop.new) }
{
    match stop {
        Some(test) => rename_expr(test, names, used),
        None => {}
    }
}

/// Gives all names of a program their numbers among the texts used.
pub(crate) fn rename_program(program: &mut Program, names: &[String], used: &IndexSet<String>)
    requires places { IsTrue (program_all (has_place names.now used.now.keys) program.old) }
    requires few { length used.now.keys ≤ 2 ^ 32 }
    ensures same { view_named used.now.keys program.new ≡ view_named names.now program.old }
    ensures fresh { IsTrue (program_all (is_fresh (length used.now.keys)) program.new) }
{
    rename_decls(&mut program.fields, names, used);
    rename_slots(&mut program.slots, names, used);
    rename_totals(&mut program.totals, names, used);
    rename_expr(&mut program.start, names, used);
    rename_maybe_dense(&mut program.dense, names, used);
    rename_maybe_sparse(&mut program.sparse, names, used);
    rename_body(&mut program.update, names, used);
    rename_maybe_stop(&mut program.stop, names, used);
}
