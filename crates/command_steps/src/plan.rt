ghost use Rattle.std.specs.Prelude.{◌≡◌, ◌≤◌, ◌<◌, IfOk, length, slice_index};
ghost use Rattle.array_text.specs.Writes.{Writes};
ghost use Rattle.chunk_split.specs.Bounds.{ends_of};
ghost use Rattle.command_steps.specs.Commands.{plan_order};
ghost use Rattle.command_steps.specs.Orders.{NoTask};
ghost use Rattle.command_steps.specs.Outputs.{chunk_text, chunks_text, machines_text, plan_lines, plan_text, step_text, steps_text};
ghost use Rattle.command_steps.specs.States.{sink_state};
ghost use Rattle.command_steps.specs.Walks.{HandsOn, Performs, Plays};
ghost use Rattle.edge_reader.specs.Gives.{graph_of_edges};
ghost use Rattle.symple_words.specs.Ranges.{AreMachines, IsGraphForm};

use crate::failure::Failure;
use crate::output::flush;
use crate::read::load_graph;
use array_text::put_pieces;
use chunk_split::{Cuts, cuts_of};
use edge_reader::Edges;
use graph_table::Table;
use itoa::Buffer;
use outside::{Shelf, Sink, SinkFault};
use std::alloc::Global;
use symple_words::GraphForm;
use vert_base::Want;
use vert_base::limits::MACHINES;

/// Puts how the graph is cut and who works on which chunk in each step.
pub fn show_plan<H: Shelf, O: Sink>(
    alloc: Global,
    name: &str,
    form: &GraphForm,
    machines: u8,
    shelf: &mut H,
    out: &mut O,
) -> Result<(), Failure>
    requires form { IsGraphForm form.now }
    requires few { AreMachines machines }
    ensures order { Performs H.files H.loads H.stores O.held O.faults O.spare
        NoTask (plan_order name.now form.now machines) shelf.old shelf.new out.old out.new result }
    ensures later { H.loads shelf.old ≤ H.loads shelf.new }
{
    let edges = load_graph(alloc, shelf, form, name)?;
    lay_out(alloc, machines, edges, out)
}

/// Puts the plan of a graph.
fn lay_out<O: Sink>(alloc: Global, machines: u8, edges: Edges, out: &mut O) -> Result<(), Failure>
    requires { AreMachines machines }
    ensures { Plays (plan_text machines (graph_of_edges edges))
        (sink_state O.held O.faults O.spare out.old)
        (sink_state O.held O.faults O.spare out.new) result }
{
    let cuts = chunks(alloc, edges, machines)?;
    put_plan(&cuts, out)?;
    Ok(())
}

/// The chunks of a graph for so many machines.
fn chunks(alloc: Global, edges: Edges, machines: u8) -> Result<Cuts<MACHINES>, Want>
    requires { AreMachines machines }
    ensures { IfOk result (λ cuts. cuts ≡ ends_of machines edges.vertices edges.list.items) }
{
    let table = Table::from_edges(alloc, edges)?;
    Ok(cuts_of(&table, machines))
}

/// Puts the plan of these chunks and has it handed on.
fn put_plan<O: Sink>(cuts: &Cuts<MACHINES>, out: &mut O) -> Result<(), SinkFault>
    ensures { HandsOn (plan_lines cuts.now) (sink_state O.held O.faults O.spare out.old)
        (sink_state O.held O.faults O.spare out.new) result }
{
    write_plan(cuts, out)?;
    flush(out)
}

/// Puts the plan of these chunks: where each begins and ends, then who works on which in each step.
fn write_plan<O: Sink>(cuts: &Cuts<MACHINES>, out: &mut O) -> Result<(), SinkFault>
    ensures { Writes O.held O.faults O.spare out.old out.new (plan_lines cuts.now) result }
{
    write_chunks(cuts, out)?;
    write_steps(cuts.count(), out)
}

fn write_chunks<O: Sink>(cuts: &Cuts<MACHINES>, out: &mut O) -> Result<(), SinkFault>
    ensures { Writes O.held O.faults O.spare out.old out.new (chunks_text cuts.now) result }
{
    'chunks: for chunk in 0..cuts.count() {
        write_chunk(chunk, cuts.start(chunk), cuts.end(chunk), out)?;
    }
    Ok(())
}

fn write_chunk<O: Sink>(chunk: u8, start: u32, end: u32, out: &mut O) -> Result<(), SinkFault>
    ensures { Writes O.held O.faults O.spare out.old out.new (chunk_text chunk start end) result }
{
    let mut number = Buffer::new();
    let mut first = Buffer::new();
    let mut last = Buffer::new();
    let pieces = [
        b"chunk ",
        number.format(chunk).as_bytes(),
        b" ",
        first.format(start).as_bytes(),
        b" ",
        last.format(end).as_bytes(),
        b"\n",
    ];
    put_pieces(out, &pieces)
}

fn write_steps<O: Sink>(machines: u8, out: &mut O) -> Result<(), SinkFault>
    requires { machines ≤ 64 }
    ensures { Writes O.held O.faults O.spare out.old out.new (steps_text machines) result }
{
    'steps: for step in 0..machines {
        write_machines(machines, step, out)?;
    }
    Ok(())
}

fn write_machines<O: Sink>(machines: u8, step: u8, out: &mut O) -> Result<(), SinkFault>
    requires few { machines ≤ 64 }
    requires step { step < machines }
    ensures { Writes O.held O.faults O.spare out.old out.new (machines_text machines step) result }
{
    'machines: for machine in 0..machines {
        write_step(machines, step, machine, out)?;
    }
    Ok(())
}

fn write_step<O: Sink>(machines: u8, step: u8, machine: u8, out: &mut O) -> Result<(), SinkFault>
    requires few { machines ≤ 64 }
    requires step { step < machines }
    requires machine { machine < machines }
    ensures { Writes O.held O.faults O.spare out.old out.new
        (step_text machines step machine) result }
{
    let chunk = (machine + machines - 1 - step) % machines;
    let mut number = Buffer::new();
    let mut worker = Buffer::new();
    let mut place = Buffer::new();
    let pieces = [
        b"step ",
        number.format(step).as_bytes(),
        b" machine ",
        worker.format(machine).as_bytes(),
        b" chunk ",
        place.format(chunk).as_bytes(),
        b"\n",
    ];
    put_pieces(out, &pieces)
}
