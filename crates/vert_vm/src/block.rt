ghost use Rattle.std.specs.Prelude.{◌≡◌, true, length};
ghost use Rattle.slot_merge.specs.Partials.{with_emissions};
ghost use Rattle.vert_eval.specs.Frames.{SameFrame};
ghost use Rattle.vert_eval.specs.Values.{CanDraw, counts_of};
ghost use Rattle.vert_code.specs.Blocks.{list_of};
ghost use Rattle.vert_code.specs.Machine.{run_code};
ghost use Rattle.vert_code.specs.Valid.{list_names};

use crate::machine::run_list;
use crate::stack::Stack;
use slot_merge::Emits;
use vert_code::{Block, Code, Instr};
use vert_eval::Env;

/// Runs one block once. Emissions are added under the key of the environment.
pub fn step_block(code: &Code, block: Block, env: &mut Env, emits: &mut Emits)
    requires names { list_names (counts_of env.old) (list_of code.now block) ≡ true }
    requires draws { CanDraw env.old }
    requires partials { length emits.old.slots.items ≡ length env.old.slots.items }
    ensures env { env.new ≡ (run_code (list_of code.now block) env.old).env }
    ensures emits { emits.new.slots.items
        ≡ with_emissions env.old.key emits.old.slots.items
        (run_code (list_of code.now block) env.old).emitted }
    ensures kept { SameFrame env.old env.new }
    ensures partials { length emits.new.slots.items ≡ length emits.old.slots.items }
{
    let mut stack = Stack::new();
    step_block_over(code, block, env, emits, &mut stack);
}

/// Does what `step_block` does on a stack that is there already, so that none is filled with zeros
/// for each run. What is on it before is gone.
pub fn step_block_over(
    code: &Code,
    block: Block,
    env: &mut Env,
    emits: &mut Emits,
    stack: &mut Stack,
)
    requires names { list_names (counts_of env.old) (list_of code.now block) ≡ true }
    requires draws { CanDraw env.old }
    requires partials { length emits.old.slots.items ≡ length env.old.slots.items }
    ensures env { env.new ≡ (run_code (list_of code.now block) env.old).env }
    ensures emits { emits.new.slots.items
        ≡ with_emissions env.old.key emits.old.slots.items
        (run_code (list_of code.now block) env.old).emitted }
    ensures kept { SameFrame env.old env.new }
    ensures partials { length emits.new.slots.items ≡ length emits.old.slots.items }
{
    stack.clear();
    run_list(list_at(code, block), stack, env, emits);
}

/// The list of a block.
#[inline]
pub(crate) fn list_at(code: &Code, block: Block) -> &[Instr]
    ensures { result.now ≡ list_of code.now block }
{
    match block {
        Block::Loop => &code.blocks[0],
        Block::Tail => &code.blocks[1],
        Block::SparseBody => &code.blocks[2],
        Block::UpdateBody => &code.blocks[3],
    }
}
