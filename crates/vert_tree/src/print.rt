//! The text of a program, from its tree.

mod block;
mod declaration;
mod expression;
mod statement;
mod words;

ghost use Rattle.std.specs.Prelude.{◌≡◌, ◌++◌, IfOk, OnErr, OnOk, flat_map, map, option_map};
ghost use Rattle.std.specs.String.{string_bytes};
ghost use Rattle.vert_tree.specs.Printed.{printed, printed_block, printed_blocks, printed_declaration, printed_dense, printed_header, printed_maybe, printed_sparse};
ghost use Rattle.vert_tree.specs.Views.{view_block, view_declaration, view_dense, view_program, view_sparse};

use super::{Decl, Program, Stmt};
use block::{print_dense, print_sparse, print_update};
use declaration::{print_slots, print_totals};
use expression::print_line;
use std::alloc::{AllocError, Global};
use vert_base::Want;
use words::mode_word;

/// The text of a program: its tokens joined by spaces, with a line end behind each `;`, `{` and `}`.
pub fn print_program(alloc: Global, program: &Program) -> Result<String, Want>
    ensures { IfOk result (λ text. string_bytes text ≡ printed (view_program program.now)) }
{
    let mut out = String::new(alloc);
    print_parts(&mut out, program)?;
    Ok(out)
}

/// Appends the lines of fields, lets or sends, all or none. `keyword` has the space behind it.
pub fn print_declarations(
    out: &mut String,
    names: &[String],
    keyword: &str,
    declarations: &[Decl],
) -> Result<(), Want>
    ensures printed { OnOk result (string_bytes out.new ≡ string_bytes out.old
        ++ flat_map (printed_declaration keyword.now)
        (map (view_declaration names.now) declarations.now)) }
    ensures kept { OnErr result (string_bytes out.new ≡ string_bytes out.old) }
{
    let mut text = String::new(*out.allocator());
    declaration::print_declarations(&mut text, names, keyword, declarations)?;
    out.push_str(&text)?;
    Ok(())
}

/// Appends the lines of some statements, all or none.
pub fn print_block(out: &mut String, names: &[String], statements: &[Stmt]) -> Result<(), Want>
    ensures printed { OnOk result (string_bytes out.new ≡ string_bytes out.old
        ++ printed_block (view_block names.now statements.now)) }
    ensures kept { OnErr result (string_bytes out.new ≡ string_bytes out.old) }
{
    let mut text = String::new(*out.allocator());
    statement::print_block(&mut text, names, statements)?;
    out.push_str(&text)?;
    Ok(())
}

fn print_parts(out: &mut String, program: &Program) -> Result<(), AllocError>
    ensures { OnOk result (string_bytes out.new ≡ string_bytes out.old
        ++ printed (view_program program.now)) }
{
    let names = program.names.as_slice();
    print_header(out, program)?;
    declaration::print_declarations(out, names, "field ", &program.fields)?;
    print_slots(out, names, &program.slots)?;
    print_totals(out, names, &program.totals)?;
    print_line(out, names, "start ", &program.start)?;
    print_blocks(out, program)
}

fn print_header(out: &mut String, program: &Program) -> Result<(), AllocError>
    ensures { OnOk result (string_bytes out.new ≡ string_bytes out.old
        ++ printed_header program.now.version program.now.mode program.now.limit) }
{
    let mode = mode_word(program.mode);
    write!(
        out,
        "vertex {} ;\nmode {mode};\nlimit {} ;\n",
        program.version, program.limit
    )
}

// All that stands behind `start`.
fn print_blocks(out: &mut String, program: &Program) -> Result<(), AllocError>
    ensures { OnOk result (string_bytes out.new ≡ string_bytes out.old
        ++ printed_blocks (view_program program.now)) }
{
    let names = program.names.as_slice();
    print_dense_if(out, names, program)?;
    print_sparse_if(out, names, program)?;
    print_update(out, names, &program.update)?;
    match &program.stop {
        Some(test) => print_line(out, names, "stop ", test),
        None => Ok(()),
    }
}

fn print_dense_if(out: &mut String, names: &[String], program: &Program) -> Result<(), AllocError>
    ensures { OnOk result (string_bytes out.new ≡ string_bytes out.old
        ++ printed_maybe printed_dense (option_map (view_dense names.now) program.now.dense)) }
{
    match &program.dense {
        Some(dense) => print_dense(out, names, dense),
        None => Ok(()),
    }
}

fn print_sparse_if(out: &mut String, names: &[String], program: &Program) -> Result<(), AllocError>
    ensures { OnOk result (string_bytes out.new ≡ string_bytes out.old
        ++ printed_maybe printed_sparse (option_map (view_sparse names.now) program.now.sparse)) }
{
    match &program.sparse {
        Some(sparse) => print_sparse(out, names, sparse),
        None => Ok(()),
    }
}
