ghost use Rattle.std.specs.Prelude.{◌≡◌, ◌≤◌, slice_get};
ghost use Rattle.array_text.specs.Tables.{bytes_of};
ghost use Rattle.array_text.specs.Writes.{Writes};
ghost use Rattle.order_free.specs.declared.freedom.Freedom.TheVariants.{FirstSlot};
ghost use Rattle.command_steps.specs.Commands.{free_order};
ghost use Rattle.command_steps.specs.Outputs.{free_text, freedom_text, slot_name};
ghost use Rattle.command_steps.specs.States.{sink_state};
ghost use Rattle.command_steps.specs.Orders.{NoTask};
ghost use Rattle.command_steps.specs.Walks.{HandsOn, Performs, Plays};

use crate::failure::Failure;
use crate::output::flush;
use crate::read::load_program;
use array_text::{put_all, put_pieces};
use instrument::{Split, split_of};
use order_free::{Freedom, free};
use outside::{Shelf, Sink, SinkFault};
use std::alloc::Global;
use vert_tree::Program;

/// Puts whether the rows of the program of that name depend on the order of neighbours.
pub fn tell_freedom<H: Shelf, O: Sink>(
    alloc: Global,
    name: &str,
    shelf: &mut H,
    out: &mut O,
) -> Result<(), Failure>
    ensures order { Performs H.files H.loads H.stores O.held O.faults O.spare NoTask
        (free_order name.now) shelf.old shelf.new out.old out.new result }
    ensures later { H.loads shelf.old ≤ H.loads shelf.new }
{
    let typed = load_program(alloc, shelf, name)?;
    tell(&split_of(typed), out)
}

fn tell<O: Sink>(split: &Split, out: &mut O) -> Result<(), Failure>
    ensures { Plays (free_text split.now.program.program)
        (sink_state O.held O.faults O.spare out.old)
        (sink_state O.held O.faults O.spare out.new) result }
{
    put_freedom(split, out)?;
    Ok(())
}

/// Puts the line and has it handed on.
fn put_freedom<O: Sink>(split: &Split, out: &mut O) -> Result<(), SinkFault>
    ensures { HandsOn (free_text split.now.program.program)
        (sink_state O.held O.faults O.spare out.old)
        (sink_state O.held O.faults O.spare out.new) result }
{
    write_freedom(&split.program.program, free(split), out)?;
    flush(out)
}

fn write_freedom<O: Sink>(program: &Program, freedom: Freedom, out: &mut O) -> Result<(), SinkFault>
    ensures { Writes O.held O.faults O.spare out.old out.new
        (freedom_text program.now freedom) result }
{
    match freedom {
        Freedom::NoLoop => put_all(out, b"free no-loop\n"),
        Freedom::Reductions => put_all(out, b"free reductions\n"),
        Freedom::FoundOne => put_all(out, b"free found-one\n"),
        Freedom::ReachACount => put_all(out, b"free reach-a-count\n"),
        Freedom::FirstSlot(slot) => write_first_slot(program, slot, out),
        Freedom::OtherLoop => put_all(out, b"not free: loop\n"),
    }
}

fn write_first_slot<O: Sink>(program: &Program, slot: u8, out: &mut O) -> Result<(), SinkFault>
    ensures { Writes O.held O.faults O.spare out.old out.new
        (freedom_text program.now (FirstSlot slot)) result }
{
    let pieces = [b"not free: first slot ", name_of_slot(program, slot), b"\n"];
    put_pieces(out, &pieces)
}

fn name_of_slot(program: &Program, slot: u8) -> &[u8]
    ensures { result.now ≡ slot_name program.now (slice_get program.now.slots.items slot) }
{
    match program.slots.get(usize::from(slot)) {
        Some(slot) => text_of(program, slot.name.name),
        None => b"",
    }
}

fn text_of(program: &Program, name: u32) -> &[u8]
    ensures { result.now ≡ bytes_of (slice_get program.now.names.items name) }
{
    match program.names.get(name as usize) {
        Some(text) => text.as_bytes(),
        None => b"",
    }
}
