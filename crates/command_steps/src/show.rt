ghost use Rattle.std.specs.Prelude.{◌≤◌};
ghost use Rattle.instrument.specs.Shown.{shown};
ghost use Rattle.command_steps.specs.Commands.{show_order};
ghost use Rattle.command_steps.specs.States.{sink_state};
ghost use Rattle.command_steps.specs.Orders.{NoTask};
ghost use Rattle.command_steps.specs.Walks.{HandsOn, Performs, Plays};

use crate::failure::Failure;
use crate::output::flush;
use crate::read::load_program;
use array_text::put_all;
use instrument::{Split, print_split, split_of};
use outside::{Shelf, Sink, SinkFault};
use std::alloc::Global;

/// Puts the program of that name and how its loop is split.
pub fn show_program<H: Shelf, O: Sink>(
    alloc: Global,
    name: &str,
    shelf: &mut H,
    out: &mut O,
) -> Result<(), Failure>
    ensures order { Performs H.files H.loads H.stores O.held O.faults O.spare NoTask
        (show_order name.now) shelf.old shelf.new out.old out.new result }
    ensures later { H.loads shelf.old ≤ H.loads shelf.new }
{
    let typed = load_program(alloc, shelf, name)?;
    put_shown(alloc, &split_of(typed), out)
}

fn put_shown<O: Sink>(alloc: Global, split: &Split, out: &mut O) -> Result<(), Failure>
    ensures { Plays (shown split.now.program.program) (sink_state O.held O.faults O.spare out.old)
        (sink_state O.held O.faults O.spare out.new) result }
{
    let text = print_split(alloc, split)?;
    put_text(text.as_bytes(), out)?;
    Ok(())
}

/// Puts a text and has it handed on.
fn put_text<O: Sink>(text: &[u8], out: &mut O) -> Result<(), SinkFault>
    ensures { HandsOn text.now (sink_state O.held O.faults O.spare out.old)
        (sink_state O.held O.faults O.spare out.new) result }
{
    put_all(out, text)?;
    flush(out)
}
