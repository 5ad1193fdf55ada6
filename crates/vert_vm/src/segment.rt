ghost use Rattle.std.specs.Prelude.{◌≡◌, true, [], length, All};
ghost use Rattle.slot_merge.specs.Partials.{with_emissions};
ghost use Rattle.vert_eval.specs.declared.environment.Flow.TheVariants.{Going};
ghost use Rattle.vert_eval.specs.Frames.{SameFrame, beside};
ghost use Rattle.vert_eval.specs.Values.{CanDraw, counts_of};
ghost use Rattle.vert_code.specs.Blocks.{list_of};
ghost use Rattle.vert_code.specs.Machine.{run_code};
ghost use Rattle.vert_code.specs.Valid.{list_names};
ghost use Rattle.vert_vm.specs.Segments.{Fed, IsWide, counts_at, loop_code};
ghost use Rattle.vert_vm.specs.Steps.{IsEntered};

use crate::block::list_at;
use crate::machine::run_list;
use crate::stack::Stack;
use slot_merge::Emits;
use symple_face::Feed;
use vert_base::Neighbour;
use vert_code::{Block, Code, Instr};
use vert_eval::{Env, Flow};

/// Runs the loop body on the neighbours that a feed gives, up to the first break. Emissions are
/// added under the key of the environment.
pub fn step_segment<F: Feed>(code: &Code, env: &mut Env, emits: &mut Emits, feed: &mut F) -> Flow
    requires names { list_names (counts_at env.old) (list_of code.now Block.Loop) ≡ true }
    requires rows { All (IsWide env.old) (F.left feed.old) }
    requires draws { CanDraw env.old }
    requires partials { length emits.old.slots.items ≡ length env.old.slots.items }
    ensures env { env.new
        ≡ (loop_code (list_of code.now Block.Loop) (F.left feed.old) env.old).env }
    ensures flow { result ≡ (loop_code (list_of code.now Block.Loop) (F.left feed.old)
        env.old).flow }
    ensures emits { emits.new.slots.items
        ≡ with_emissions env.old.key emits.old.slots.items
        (loop_code (list_of code.now Block.Loop) (F.left feed.old) env.old).emitted }
    ensures fed { Fed (F.given feed.old) (F.left feed.old) (F.given feed.new) (F.left feed.new)
        (loop_code (list_of code.now Block.Loop) (F.left feed.old) env.old).reads }
    ensures kept { SameFrame (beside env.old env.new) env.new }
    ensures partials { length emits.new.slots.items ≡ length emits.old.slots.items }
{
    let mut stack = Stack::new();
    step_segment_over(code, env, emits, &mut stack, feed)
}

/// Does what `step_segment` does on a stack that is there already, so that none is filled with zeros
/// for each vertex. What is on it before is gone.
pub fn step_segment_over<F: Feed>(
    code: &Code,
    env: &mut Env,
    emits: &mut Emits,
    stack: &mut Stack,
    feed: &mut F,
) -> Flow
    requires names { list_names (counts_at env.old) (list_of code.now Block.Loop) ≡ true }
    requires rows { All (IsWide env.old) (F.left feed.old) }
    requires draws { CanDraw env.old }
    requires partials { length emits.old.slots.items ≡ length env.old.slots.items }
    ensures env { env.new ≡ (loop_code (list_of code.now Block.Loop) (F.left feed.old) env.old).env }
    ensures flow { result ≡ (loop_code (list_of code.now Block.Loop) (F.left feed.old)
        env.old).flow }
    ensures emits { emits.new.slots.items
        ≡ with_emissions env.old.key emits.old.slots.items
        (loop_code (list_of code.now Block.Loop) (F.left feed.old) env.old).emitted }
    ensures fed { Fed (F.given feed.old) (F.left feed.old) (F.given feed.new) (F.left feed.new)
        (loop_code (list_of code.now Block.Loop) (F.left feed.old) env.old).reads }
    ensures kept { SameFrame (beside env.old env.new) env.new }
    ensures partials { length emits.new.slots.items ≡ length emits.old.slots.items }
{
    let list = list_at(code, Block::Loop);
    stack.clear();
    while let Some(neighbour) = feed.next(&mut env.other_row) {
        match visit(list, neighbour, stack, env, emits) {
            Flow::Broke => return Flow::Broke,
            Flow::Going => {}
        }
    }
    Flow::Going
}

/// Runs the loop body on a neighbour, whose row is there.
#[inline]
fn visit(
    list: &[Instr],
    neighbour: Neighbour,
    stack: &mut Stack,
    env: &mut Env,
    emits: &mut Emits,
) -> Flow
    requires level { IsEntered 0 0 list.now }
    requires names { list_names (counts_of env.old) list.now ≡ true }
    requires stack { stack.old ≡ [] }
    requires draws { CanDraw env.old }
    requires partials { length emits.old.slots.items ≡ length env.old.slots.items }
    ensures env { env.new ≡ (run_code list.now (record env.old { other = neighbour })).env }
    ensures flow { result ≡ (run_code list.now (record env.old { other = neighbour })).flow }
    ensures emits { emits.new.slots.items
        ≡ with_emissions env.old.key emits.old.slots.items
        (run_code list.now (record env.old { other = neighbour })).emitted }
    ensures stack { result ≡ Going → stack.new ≡ [] }
    ensures kept { SameFrame (record env.old { other = neighbour }) env.new }
    ensures partials { length emits.new.slots.items ≡ length emits.old.slots.items }
{
    env.other = neighbour;
    run_list(list, stack, env, emits)
}
