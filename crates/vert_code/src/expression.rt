//! The code of expressions.

ghost use Rattle.std.specs.Prelude.{◌≡◌, ◌++◌, OnOk, length};
ghost use Rattle.vert_code.specs.Listing.{expr_code, load, load_got, load_other, load_value};

use crate::instr::Instr;
use crate::list::{end_of, put, write};
use vert_base::Want;
use vert_eval::word;
use vert_tree::{Expr, Node, What};

/// Appends the code of an expression, which leaves its value on the stack.
pub(crate) fn write_expr(list: &mut Vec<Instr>, e: &Expr) -> Result<(), Want>
    ensures { OnOk result (list.new.items ≡ list.old.items
        ++ expr_code e.now (length list.old.items)) }
{
    match &e.node {
        Node::Int(x) => put(list, Instr::Push(*x)),
        Node::Bool(b) => put(list, Instr::Push(word(*b))),
        Node::Word(builtin) => put(list, Instr::Word(*builtin)),
        Node::Name(name) => put(list, load(name.what)),
        Node::Got(name) => put(list, load_got(name.what)),
        Node::Value(name) => put(list, load_value(name.what)),
        Node::OtherField(name) => put(list, load_other(name.what)),
        Node::OtherWord(builtin) => put(list, Instr::OtherWord(*builtin)),
        Node::Draw(_, number) => put(list, Instr::Draw((*number % 256) as u8)),
        Node::Neg(a) => {
            write_expr(list, a)?;
            put(list, Instr::Neg)
        }
        Node::Not(a) => {
            write_expr(list, a)?;
            put(list, Instr::Not)
        }
        Node::Binary(op, a, b) => {
            write_expr(list, a)?;
            write_expr(list, b)?;
            put(list, Instr::Op(*op))
        }
        Node::Cond(test, a, b) => {
            write_expr(list, test)?;
            let fork = list.len();
            put(list, Instr::JumpUnless(0))?;
            write_expr(list, a)?;
            let leap = list.len();
            put(list, Instr::Jump(0))?;
            write(list, fork, Instr::JumpUnless(end_of(list)?));
            write_expr(list, b)?;
            write(list, leap, Instr::Jump(end_of(list)?));
            Ok(())
        }
        Node::Least(a, b) => {
            write_expr(list, a)?;
            write_expr(list, b)?;
            put(list, Instr::Least)
        }
        Node::Greatest(a, b) => {
            write_expr(list, a)?;
            write_expr(list, b)?;
            put(list, Instr::Greatest)
        }
        Node::Group(a) => write_expr(list, a),
    }
}

fn load(name: What) -> Instr
    ensures { result ≡ load name }
{
    match name {
        What::Field(i) => Instr::Field(i),
        What::Local(i) => Instr::Local(i),
        What::Send(i) => Instr::Sent(i),
        What::Total(i) => Instr::Total(i),
        What::Unread | What::Slot(_) => Instr::Push(0),
    }
}

fn load_got(name: What) -> Instr
    ensures { result ≡ load_got name }
{
    match name {
        What::Slot(i) => Instr::Got(i),
        _ => Instr::Push(0),
    }
}

fn load_value(name: What) -> Instr
    ensures { result ≡ load_value name }
{
    match name {
        What::Slot(i) => Instr::Value(i),
        _ => Instr::Push(0),
    }
}

fn load_other(name: What) -> Instr
    ensures { result ≡ load_other name }
{
    match name {
        What::Field(i) => Instr::OtherField(i),
        _ => Instr::Push(0),
    }
}
