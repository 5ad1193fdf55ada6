ghost use Rattle.std.specs.Prelude.{◌≡◌, ◌++◌, OnOk, codes};
ghost use Rattle.std.specs.String.{string_bytes};
ghost use Rattle.vert_tree.specs.Printed.{printed_line, printed_opening, printed_tree};
ghost use Rattle.vert_tree.specs.Views.{text_of, view};

use super::words::{builtin_word, operator_mark, truth_word};
use crate::{Expr, Ident, Node};
use std::alloc::AllocError;

// The tokens of an expression, each with a space behind it.
#[cycle(expressions)]
fn print_expression(out: &mut String, names: &[String], expression: &Expr) -> Result<(), AllocError>
    ensures { OnOk result (string_bytes out.new ≡ string_bytes out.old
        ++ printed_tree (view names.now expression.now)) }
{
    match &expression.node {
        Node::Int(value) => write!(out, "{value} "),
        Node::Bool(value) => out.push_str(truth_word(*value)),
        Node::Word(word) => out.push_str(builtin_word(*word)),
        Node::Name(name) => print_name(out, names, "", name, " "),
        Node::Got(name) => print_name(out, names, "", name, " . got "),
        Node::Value(name) => print_name(out, names, "", name, " . value "),
        Node::OtherField(name) => print_name(out, names, "u . ", name, " "),
        Node::OtherWord(word) => write!(out, "u . {}", builtin_word(*word)),
        Node::Draw(_, number) => write!(out, "draw ( {number} ) "),
        Node::Neg(inner) => print_behind(out, names, "- ", inner),
        Node::Not(inner) => print_behind(out, names, "! ", inner),
        Node::Binary(op, left, right) => {
            print_expression(out, names, left)?;
            print_behind(out, names, operator_mark(*op), right)
        }
        Node::Cond(test, held, otherwise) => {
            print_expression(out, names, test)?;
            print_behind(out, names, "? ", held)?;
            print_behind(out, names, ": ", otherwise)
        }
        Node::Least(left, right) => {
            print_behind(out, names, "min ( ", left)?;
            print_closed(out, names, ", ", right)
        }
        Node::Greatest(left, right) => {
            print_behind(out, names, "max ( ", left)?;
            print_closed(out, names, ", ", right)
        }
        Node::Group(inner) => print_closed(out, names, "( ", inner),
    }
}

// An expression behind a word or a mark.
#[cycle(expressions)]
fn print_behind(
    out: &mut String,
    names: &[String],
    front: &str,
    expression: &Expr,
) -> Result<(), AllocError>
    ensures { OnOk result (string_bytes out.new ≡ string_bytes out.old
        ++ (front.now ++ printed_tree (view names.now expression.now))) }
{
    out.push_str(front)?;
    print_expression(out, names, expression)
}

/// Appends a test behind its keyword, and the brace that opens a block.
pub(crate) fn print_opening(
    out: &mut String,
    names: &[String],
    front: &str,
    test: &Expr,
) -> Result<(), AllocError>
    ensures { OnOk result (string_bytes out.new ≡ string_bytes out.old
        ++ printed_opening front.now (view names.now test.now)) }
{
    print_behind(out, names, front, test)?;
    out.push_str("{\n")
}

/// Appends an expression behind a word or a mark, up to the line's end.
pub(crate) fn print_line(
    out: &mut String,
    names: &[String],
    front: &str,
    expression: &Expr,
) -> Result<(), AllocError>
    ensures { OnOk result (string_bytes out.new ≡ string_bytes out.old
        ++ printed_line front.now (view names.now expression.now)) }
{
    print_behind(out, names, front, expression)?;
    out.push_str(";\n")
}

// An expression behind a mark and before a closing parenthesis.
#[cycle(expressions)]
fn print_closed(
    out: &mut String,
    names: &[String],
    front: &str,
    expression: &Expr,
) -> Result<(), AllocError>
    ensures { OnOk result (string_bytes out.new ≡ string_bytes out.old
        ++ (front.now ++ (printed_tree (view names.now expression.now) ++ codes ") "))) }
{
    out.push_str(front)?;
    print_expression(out, names, expression)?;
    out.push_str(") ")
}

/// Appends the text of a name between two texts.
pub(crate) fn print_name(
    out: &mut String,
    names: &[String],
    front: &str,
    name: &Ident,
    behind: &str,
) -> Result<(), AllocError>
    ensures { OnOk result (string_bytes out.new ≡ string_bytes out.old
        ++ (front.now ++ (text_of names.now name.now.name ++ behind.now))) }
{
    out.push_str(front)?;
    out.push_str(name_text(names, name))?;
    out.push_str(behind)
}

fn name_text<'a>(names: &'a [String], name: &Ident) -> &'a str
    ensures { result.now ≡ text_of names.now name.now.name }
{
    match names.get(name.name as usize) {
        Some(text) => text.as_str(),
        None => "",
    }
}
