ghost use Rattle.std.specs.Prelude.{◌≡◌, IfOk, IfErr, OnOk};
ghost use Rattle.vert_parse.specs.Parsing.{IsNamed};
ghost use Rattle.tree_reader.specs.Programs.{view_named};
ghost use Rattle.vert_tree.specs.Views.{view_program};

use crate::entering::enter_program;
use crate::fault::ParseFault;
use crate::renaming::rename_program;
use indexmap::IndexSet;
use std::alloc::{AllocError, Global};
use vert_tree::Program;

/// The texts of a set, in order.
fn texts(alloc: Global, used: IndexSet<String>) -> Result<Vec<String>, AllocError>
    ensures { IfOk result (λ texts. texts.items ≡ used.keys) }
{
    used.into_iter().collect(alloc)
}

/// Gives a program, whose names had these texts, its own names, each once and in order.
pub(crate) fn give_names(
    alloc: Global,
    program: &mut Program,
    names: &[String],
) -> Result<(), ParseFault>
    ensures same { OnOk result (view_program program.new ≡ view_named names.now program.old) }
    ensures named { OnOk result (IsNamed program.new) }
    ensures want { IfErr result (λ fault. fault ≡ ParseFault.Want) }
{
    let mut used = IndexSet::new(alloc);
    match enter_program(alloc, program, names, &mut used) {
        Ok(()) => {}
        Err(fault) => return Err(fault),
    }
    if used.len() as u64 > u64::from(u32::MAX) {
        return Err(ParseFault::Want);
    }
    rename_program(program, names, &used);
    program.names = texts(alloc, used)?;
    Ok(())
}
