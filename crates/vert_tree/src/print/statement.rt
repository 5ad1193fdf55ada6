ghost use Rattle.std.specs.Prelude.{◌≡◌, ◌++◌, OnOk};
ghost use Rattle.std.specs.String.{string_bytes};
ghost use Rattle.vert_tree.specs.Printed.{printed_block, printed_statement};
ghost use Rattle.vert_tree.specs.Views.{view_block, view_statement};

use super::expression::{print_line, print_name, print_opening};
use super::words::assign_mark;
use crate::Stmt;
use std::alloc::AllocError;

/// Appends the lines of some statements.
#[cycle(statements)]
pub(crate) fn print_block(
    out: &mut String,
    names: &[String],
    statements: &[Stmt],
) -> Result<(), AllocError>
    ensures { OnOk result (string_bytes out.new ≡ string_bytes out.old
        ++ printed_block (view_block names.now statements.now)) }
{
    'lines: for statement in statements {
        print_statement(out, names, statement)?;
    }
    Ok(())
}

#[cycle(statements)]
fn print_statement(out: &mut String, names: &[String], statement: &Stmt) -> Result<(), AllocError>
    ensures { OnOk result (string_bytes out.new ≡ string_bytes out.old
        ++ printed_statement (view_statement names.now statement.now)) }
{
    match statement {
        Stmt::Assign(target, op, value) => {
            print_name(out, names, "", target, " ")?;
            print_line(out, names, assign_mark(*op), value)
        }
        Stmt::SetActive(_, value) => print_line(out, names, "active = ", value),
        Stmt::If(_, test, held, otherwise) => {
            print_opening(out, names, "if ", test)?;
            print_block(out, names, held)?;
            match otherwise {
                None => out.push_str("}\n"),
                Some(others) => {
                    out.push_str("}\nelse {\n")?;
                    print_block(out, names, others)?;
                    out.push_str("}\n")
                }
            }
        }
        Stmt::Emit(_, slot, value) => {
            print_name(out, names, "emit ", slot, "")?;
            print_line(out, names, " ", value)
        }
        Stmt::Break(_) => out.push_str("break ;\n"),
    }
}
