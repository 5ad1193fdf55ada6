ghost use Rattle.std.specs.Prelude.{◌≡◌};
ghost use Rattle.order_free.specs.Free.{form_of, freedom_of};

use crate::emits::first_slot;
use crate::forms::{is_found_one, is_reach_a_count};
use crate::freedom::Freedom;
use carry_analysis::{Classes, carry_of};
use instrument::Split;
use vert_tree::Stmt;

/// The form of a loop body whose lets have these classes.
pub(crate) fn form_of(body: &[Stmt], classes: &Classes) -> Freedom
    ensures { result ≡ form_of classes.now.breaks classes.now.locals.items body.now }
{
    if carry_of(classes).is_none() {
        Freedom::Reductions
    } else if is_found_one(body, classes.locals.as_slice()) {
        Freedom::FoundOne
    } else if is_reach_a_count(body, classes.locals.as_slice()) {
        Freedom::ReachACount
    } else {
        Freedom::OtherLoop
    }
}

/// Whether the rows of a program depend on the order in which neighbours are read.
///
/// A slot of kind `first` to which a neighbour may emit is told before the form of the loop, and of
/// several the least.
pub fn free(split: &Split) -> Freedom
    ensures { result ≡ freedom_of split.now.program.program }
{
    let program = &split.program.program;
    if let Some(slot) = first_slot(program) {
        return Freedom::FirstSlot(slot);
    }
    match (&program.dense, &split.dense) {
        (Some(dense), Some(parts)) => form_of(&dense.body, &parts.classes),
        _ => Freedom::NoLoop,
    }
}
