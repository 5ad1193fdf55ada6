//! The code of statements.

ghost use Rattle.std.specs.Prelude.{◌≡◌, ◌++◌, OnOk, length};
ghost use Rattle.vert_code.specs.Listing.{body_code, emit, expr_code, stmt_code, store};

use crate::expression::write_expr;
use crate::instr::Instr;
use crate::list::{end_of, put, write};
use vert_base::Want;
use vert_tree::{AssignOp, Expr, Stmt, What};

#[cycle(statement)]
fn write_stmt(list: &mut Vec<Instr>, stmt: &Stmt) -> Result<(), Want>
    ensures { OnOk result (list.new.items ≡ list.old.items
        ++ stmt_code stmt.now (length list.old.items)) }
{
    match stmt {
        Stmt::Assign(target, op, value) => write_assignment(list, target.what, *op, value),
        Stmt::SetActive(_, value) => {
            write_expr(list, value)?;
            put(list, Instr::ToActive)
        }
        Stmt::If(_, test, held, otherwise) => {
            write_expr(list, test)?;
            let fork = list.len();
            put(list, Instr::JumpUnless(0))?;
            write_body(list, held)?;
            if let Some(body) = otherwise {
                let leap = list.len();
                put(list, Instr::Jump(0))?;
                write(list, fork, Instr::JumpUnless(end_of(list)?));
                write_body(list, body)?;
                write(list, leap, Instr::Jump(end_of(list)?));
            } else {
                write(list, fork, Instr::JumpUnless(end_of(list)?));
            }
            Ok(())
        }
        Stmt::Emit(_, slot, value) => write_emission(list, slot.what, value),
        Stmt::Break(_) => put(list, Instr::Break),
    }
}

/// Appends the code of the statements of a block.
#[cycle(statement)]
pub(crate) fn write_body(list: &mut Vec<Instr>, body: &[Stmt]) -> Result<(), Want>
    ensures { OnOk result (list.new.items ≡ list.old.items
        ++ body_code body.now (length list.old.items)) }
{
    for stmt in body {
        write_stmt(list, stmt)?;
    }
    Ok(())
}

fn write_assignment(
    list: &mut Vec<Instr>,
    target: What,
    op: AssignOp,
    value: &Expr,
) -> Result<(), Want>
    ensures { OnOk result (list.new.items ≡ list.old.items
        ++ store target op (expr_code value.now) (length list.old.items)) }
{
    match target {
        What::Local(i) => {
            write_expr(list, value)?;
            put(list, Instr::ToLocal(op, i))
        }
        What::Field(i) => {
            write_expr(list, value)?;
            put(list, Instr::ToField(op, i))
        }
        _ => Ok(()),
    }
}

fn write_emission(list: &mut Vec<Instr>, slot: What, value: &Expr) -> Result<(), Want>
    ensures { OnOk result (list.new.items ≡ list.old.items
        ++ emit slot (expr_code value.now) (length list.old.items)) }
{
    match slot {
        What::Slot(i) => {
            write_expr(list, value)?;
            put(list, Instr::Emit(i))
        }
        _ => Ok(()),
    }
}
