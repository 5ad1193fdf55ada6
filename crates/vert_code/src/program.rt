ghost use Rattle.std.specs.Prelude.{◌≡◌, IfOk, map};
ghost use Rattle.vert_code.specs.Blocks.{Names, RunsAs, code_of, lists_of};
ghost use Rattle.vert_code.specs.Listing.{block_code};
ghost use Rattle.vert_code.specs.declared.instr.Block.{Block};

use crate::code::Code;
use crate::instr::Instr;
use crate::list::add;
use crate::statement::write_body;
use instrument::Split;
use std::alloc::Global;
use vert_base::Want;
use vert_tree::{Program, Stmt};

/// The code of a program.
pub fn compile(alloc: Global, split: &Split) -> Result<Code, Want>
    ensures lists { IfOk result (λ code. lists_of code ≡ code_of split.now.program.program) }
    ensures names { IfOk result (λ code. (block : Block) →
        Names split.now.program.program code block) }
    ensures runs { IfOk result (λ code. (block : Block) →
        RunsAs split.now.program.program code block) }
{
    let blocks = lists_for(alloc, &split.program.program)?;
    Ok(Code { blocks })
}

fn lists_for(alloc: Global, program: &Program) -> Result<Vec<Vec<Instr>>, Want>
    ensures { IfOk result (λ lists. map (λ list. list.items) lists.items ≡ code_of program.now) }
{
    let mut lists = Vec::new(alloc);
    match &program.dense {
        Some(dense) => {
            add(&mut lists, list_of(alloc, &dense.body)?)?;
            add(&mut lists, list_of(alloc, &dense.tail)?)?;
        }
        None => {
            add(&mut lists, Vec::new(alloc))?;
            add(&mut lists, Vec::new(alloc))?;
        }
    }
    match &program.sparse {
        Some(sparse) => add(&mut lists, list_of(alloc, &sparse.body)?)?,
        None => add(&mut lists, Vec::new(alloc))?,
    }
    add(&mut lists, list_of(alloc, &program.update)?)?;
    Ok(lists)
}

/// The list of a block.
pub(crate) fn list_of(alloc: Global, body: &[Stmt]) -> Result<Vec<Instr>, Want>
    ensures { IfOk result (λ list. list.items ≡ block_code body.now) }
{
    let mut list = Vec::new(alloc);
    write_body(&mut list, body)?;
    Ok(list)
}
