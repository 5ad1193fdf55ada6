//! The names of a program, in the order in which they stand.
#![tactic(auto, using(crate::proofs::Adding::entering))]

ghost use Rattle.std.specs.Prelude.{◌≡◌, flat_map, map, option_map, OnOk, IfErr};
ghost use Rattle.vert_parse.specs.Entered.{enter, enter_all, texts_in};
ghost use Rattle.vert_parse.specs.Names.{block_names, declaration_names, dense_names, given_names, program_names, slot_names, sparse_names, statement_names, total_names, tree_names};
ghost use Rattle.tree_reader.specs.Programs.{view_named};
ghost use Rattle.vert_tree.specs.Views.{text_of, view, view_block, view_declaration, view_dense, view_slot, view_sparse, view_statement, view_total};

use crate::fault::ParseFault;
use indexmap::IndexSet;
use std::alloc::Global;
use vert_tree::{Decl, Dense, Expr, Ident, Node, Program, SlotDecl, Sparse, Stmt, TotalDecl};

/// The text of a name by its number.
pub(crate) fn text_of<'a>(names: &'a [String], number: u32) -> &'a str
    ensures { result.now ≡ text_of names.now number }
{
    match names.get(number as usize) {
        Some(text) => text.as_str(),
        None => "",
    }
}

/// Enters the text of a name, unless it is there.
fn enter(
    alloc: Global,
    name: &Ident,
    names: &[String],
    used: &mut IndexSet<String>,
) -> Result<(), ParseFault>
    ensures entered { OnOk result (texts_in used.new.keys
        ≡ enter (texts_in used.old.keys) (text_of names.now name.now.name)) }
    ensures want { IfErr result (λ fault. fault ≡ ParseFault.Want) }
{
    let text = text_of(names, name.name);
    if used.contains(text) {
        return Ok(());
    }
    let copy = String::from_str(alloc, text)?;
    used.insert(copy)?;
    Ok(())
}

fn enter_expr(
    alloc: Global,
    expr: &Expr,
    names: &[String],
    used: &mut IndexSet<String>,
) -> Result<(), ParseFault>
    ensures entered { OnOk result (texts_in used.new.keys
        ≡ enter_all (texts_in used.old.keys) (tree_names (view names.now expr.now))) }
    ensures want { IfErr result (λ fault. fault ≡ ParseFault.Want) }
{
    match &expr.node {
        Node::Int(_) | Node::Bool(_) | Node::Word(_) | Node::OtherWord(_) | Node::Draw(_, _) => {
            Ok(())
        }
        Node::Name(name) => enter(alloc, name, names, used),
        Node::Got(name) => enter(alloc, name, names, used),
        Node::Value(name) => enter(alloc, name, names, used),
        Node::OtherField(name) => enter(alloc, name, names, used),
        Node::Neg(inner) => enter_expr(alloc, inner, names, used),
        Node::Not(inner) => enter_expr(alloc, inner, names, used),
        Node::Group(inner) => enter_expr(alloc, inner, names, used),
        Node::Binary(_, left, right) => {
            enter_expr(alloc, left, names, used)?;
            enter_expr(alloc, right, names, used)
        }
        Node::Cond(test, held, otherwise) => {
            enter_expr(alloc, test, names, used)?;
            enter_expr(alloc, held, names, used)?;
            enter_expr(alloc, otherwise, names, used)
        }
        Node::Least(left, right) => {
            enter_expr(alloc, left, names, used)?;
            enter_expr(alloc, right, names, used)
        }
        Node::Greatest(left, right) => {
            enter_expr(alloc, left, names, used)?;
            enter_expr(alloc, right, names, used)
        }
    }
}

#[cycle(entering)]
fn enter_stmt(
    alloc: Global,
    stmt: &Stmt,
    names: &[String],
    used: &mut IndexSet<String>,
) -> Result<(), ParseFault>
    ensures entered { OnOk result (texts_in used.new.keys
        ≡ enter_all (texts_in used.old.keys)
        (statement_names (view_statement names.now stmt.now))) }
    ensures want { IfErr result (λ fault. fault ≡ ParseFault.Want) }
{
    match stmt {
        Stmt::Assign(target, _, value) => {
            enter(alloc, target, names, used)?;
            enter_expr(alloc, value, names, used)
        }
        Stmt::SetActive(_, value) => enter_expr(alloc, value, names, used),
        Stmt::If(_, test, held, otherwise) => {
            enter_expr(alloc, test, names, used)?;
            enter_body(alloc, held, names, used)?;
            match otherwise {
                Some(body) => {
                    enter_body(alloc, body, names, used)?;
                    Ok(())
                }
                None => Ok(()),
            }
        }
        Stmt::Emit(_, slot, value) => {
            enter(alloc, slot, names, used)?;
            enter_expr(alloc, value, names, used)
        }
        Stmt::Break(_) => Ok(()),
    }
}

#[cycle(entering)]
fn enter_body(
    alloc: Global,
    body: &[Stmt],
    names: &[String],
    used: &mut IndexSet<String>,
) -> Result<(), ParseFault>
    ensures entered { OnOk result (texts_in used.new.keys
        ≡ enter_all (texts_in used.old.keys) (block_names (view_block names.now body.now))) }
    ensures want { IfErr result (λ fault. fault ≡ ParseFault.Want) }
{
    'body: for stmt in body {
        enter_stmt(alloc, stmt, names, used)?;
    }
    Ok(())
}

fn enter_decls(
    alloc: Global,
    decls: &[Decl],
    names: &[String],
    used: &mut IndexSet<String>,
) -> Result<(), ParseFault>
    ensures entered { OnOk result (texts_in used.new.keys
        ≡ enter_all (texts_in used.old.keys)
        (flat_map declaration_names (map (view_declaration names.now) decls.now))) }
    ensures want { IfErr result (λ fault. fault ≡ ParseFault.Want) }
{
    'decls: for decl in decls {
        enter(alloc, &decl.name, names, used)?;
        enter_expr(alloc, &decl.value, names, used)?;
    }
    Ok(())
}

#[tactic(auto, using(crate::proofs::Turns::only_name))]
fn enter_slot(
    alloc: Global,
    slot: &SlotDecl,
    names: &[String],
    used: &mut IndexSet<String>,
) -> Result<(), ParseFault>
    ensures entered { OnOk result (texts_in used.new.keys
        ≡ enter_all (texts_in used.old.keys) (slot_names (view_slot names.now slot.now))) }
    ensures want { IfErr result (λ fault. fault ≡ ParseFault.Want) }
{
    enter(alloc, &slot.name, names, used)?;
    Ok(())
}

fn enter_slots(
    alloc: Global,
    slots: &[SlotDecl],
    names: &[String],
    used: &mut IndexSet<String>,
) -> Result<(), ParseFault>
    ensures entered { OnOk result (texts_in used.new.keys
        ≡ enter_all (texts_in used.old.keys)
        (flat_map slot_names (map (view_slot names.now) slots.now))) }
    ensures want { IfErr result (λ fault. fault ≡ ParseFault.Want) }
{
    'slots: for slot in slots {
        enter_slot(alloc, slot, names, used)?;
    }
    Ok(())
}

fn enter_totals(
    alloc: Global,
    totals: &[TotalDecl],
    names: &[String],
    used: &mut IndexSet<String>,
) -> Result<(), ParseFault>
    ensures entered { OnOk result (texts_in used.new.keys
        ≡ enter_all (texts_in used.old.keys)
        (flat_map total_names (map (view_total names.now) totals.now))) }
    ensures want { IfErr result (λ fault. fault ≡ ParseFault.Want) }
{
    'totals: for total in totals {
        enter(alloc, &total.name, names, used)?;
        enter_expr(alloc, &total.value, names, used)?;
    }
    Ok(())
}

fn enter_dense(
    alloc: Global,
    dense: &Dense,
    names: &[String],
    used: &mut IndexSet<String>,
) -> Result<(), ParseFault>
    ensures entered { OnOk result (texts_in used.new.keys
        ≡ enter_all (texts_in used.old.keys) (dense_names (view_dense names.now dense.now))) }
    ensures want { IfErr result (λ fault. fault ≡ ParseFault.Want) }
{
    enter_expr(alloc, &dense.when_test, names, used)?;
    enter_decls(alloc, &dense.lets, names, used)?;
    enter_body(alloc, &dense.body, names, used)?;
    enter_body(alloc, &dense.tail, names, used)?;
    Ok(())
}

fn enter_sparse(
    alloc: Global,
    sparse: &Sparse,
    names: &[String],
    used: &mut IndexSet<String>,
) -> Result<(), ParseFault>
    ensures entered { OnOk result (texts_in used.new.keys
        ≡ enter_all (texts_in used.old.keys) (sparse_names (view_sparse names.now sparse.now))) }
    ensures want { IfErr result (λ fault. fault ≡ ParseFault.Want) }
{
    enter_expr(alloc, &sparse.when_test, names, used)?;
    enter_decls(alloc, &sparse.sends, names, used)?;
    enter_body(alloc, &sparse.body, names, used)?;
    Ok(())
}

fn enter_maybe_dense(
    alloc: Global,
    dense: &Option<Dense>,
    names: &[String],
    used: &mut IndexSet<String>,
) -> Result<(), ParseFault>
    ensures entered { OnOk result (texts_in used.new.keys
        ≡ enter_all (texts_in used.old.keys)
        (given_names dense_names (option_map (view_dense names.now) dense.now))) }
    ensures want { IfErr result (λ fault. fault ≡ ParseFault.Want) }
{
    match dense {
        Some(dense) => enter_dense(alloc, dense, names, used),
        None => Ok(()),
    }
}

fn enter_maybe_sparse(
    alloc: Global,
    sparse: &Option<Sparse>,
    names: &[String],
    used: &mut IndexSet<String>,
) -> Result<(), ParseFault>
    ensures entered { OnOk result (texts_in used.new.keys
        ≡ enter_all (texts_in used.old.keys)
        (given_names sparse_names (option_map (view_sparse names.now) sparse.now))) }
    ensures want { IfErr result (λ fault. fault ≡ ParseFault.Want) }
{
    match sparse {
        Some(sparse) => enter_sparse(alloc, sparse, names, used),
        None => Ok(()),
    }
}

fn enter_maybe_stop(
    alloc: Global,
    stop: &Option<Expr>,
    names: &[String],
    used: &mut IndexSet<String>,
) -> Result<(), ParseFault>
    ensures entered { OnOk result (texts_in used.new.keys
        ≡ enter_all (texts_in used.old.keys)
        (given_names tree_names (option_map (view names.now) stop.now))) }
    ensures want { IfErr result (λ fault. fault ≡ ParseFault.Want) }
{
    match stop {
        Some(test) => enter_expr(alloc, test, names, used),
        None => Ok(()),
    }
}

/// Enters the texts of all names of a program.
pub(crate) fn enter_program(
    alloc: Global,
    program: &Program,
    names: &[String],
    used: &mut IndexSet<String>,
) -> Result<(), ParseFault>
    ensures entered { OnOk result (texts_in used.new.keys
        ≡ enter_all (texts_in used.old.keys) (program_names (view_named names.now program.now))) }
    ensures want { IfErr result (λ fault. fault ≡ ParseFault.Want) }
{
    enter_decls(alloc, &program.fields, names, used)?;
    enter_slots(alloc, &program.slots, names, used)?;
    enter_totals(alloc, &program.totals, names, used)?;
    enter_expr(alloc, &program.start, names, used)?;
    enter_maybe_dense(alloc, &program.dense, names, used)?;
    enter_maybe_sparse(alloc, &program.sparse, names, used)?;
    enter_body(alloc, &program.update, names, used)?;
    enter_maybe_stop(alloc, &program.stop, names, used)?;
    Ok(())
}
