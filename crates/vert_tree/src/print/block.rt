ghost use Rattle.std.specs.Prelude.{◌≡◌, ◌++◌, OnOk};
ghost use Rattle.std.specs.String.{string_bytes};
ghost use Rattle.vert_tree.specs.Printed.{printed_dense, printed_loop, printed_sparse, printed_update};
ghost use Rattle.vert_tree.specs.Views.{view_block, view_dense, view_sparse};

use super::declaration::print_declarations;
use super::expression::print_opening;
use super::statement::print_block;
use crate::{Dense, Sparse, Stmt};
use std::alloc::AllocError;

/// Appends the lines of a dense block.
pub(crate) fn print_dense(
    out: &mut String,
    names: &[String],
    dense: &Dense,
) -> Result<(), AllocError>
    ensures { OnOk result (string_bytes out.new ≡ string_bytes out.old
        ++ printed_dense (view_dense names.now dense.now)) }
{
    print_opening(out, names, "dense when ", &dense.when_test)?;
    print_declarations(out, names, "let ", &dense.lets)?;
    print_loop(out, names, &dense.body)?;
    print_block(out, names, &dense.tail)?;
    out.push_str("}\n")
}

fn print_loop(out: &mut String, names: &[String], body: &[Stmt]) -> Result<(), AllocError>
    ensures { OnOk result (string_bytes out.new ≡ string_bytes out.old
        ++ printed_loop (view_block names.now body.now)) }
{
    out.push_str("for u {\n")?;
    print_block(out, names, body)?;
    out.push_str("}\n")
}

/// Appends the lines of a sparse block.
pub(crate) fn print_sparse(
    out: &mut String,
    names: &[String],
    sparse: &Sparse,
) -> Result<(), AllocError>
    ensures { OnOk result (string_bytes out.new ≡ string_bytes out.old
        ++ printed_sparse (view_sparse names.now sparse.now)) }
{
    print_opening(out, names, "sparse when ", &sparse.when_test)?;
    print_declarations(out, names, "send ", &sparse.sends)?;
    print_block(out, names, &sparse.body)?;
    out.push_str("}\n")
}

/// Appends the lines of an update block.
pub(crate) fn print_update(
    out: &mut String,
    names: &[String],
    update: &[Stmt],
) -> Result<(), AllocError>
    ensures { OnOk result (string_bytes out.new ≡ string_bytes out.old
        ++ printed_update (view_block names.now update.now)) }
{
    out.push_str("update {\n")?;
    print_block(out, names, update)?;
    out.push_str("}\n")
}
