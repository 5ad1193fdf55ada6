// The lines of a machine's own vertices.
ghost use Rattle.std.specs.Prelude.{◌≡◌, ◌++◌, true};
ghost use Rattle.array_text.specs.Tables.{header_text};
ghost use Rattle.array_text.specs.Writes.{Writes};
ghost use Rattle.circulant_plan.specs.Ring.{lies_in};
ghost use Rattle.command_steps.specs.FileWalks.{StoresFile};
ghost use Rattle.command_steps.specs.States.{shelf_state};
ghost use Rattle.part_runs.specs.Serving.{own_line, own_lines, rows_file};
ghost use Rattle.symple_face.specs.State.{machine};

use array_text::{write_header, write_row};
use arrayvec::ArrayVec;
use command_steps::{Failure, store_file};
use demo_parts::TextSink;
use outside::{Shelf, Sink, SinkFault};
use std::alloc::Global;
use symple_face::Site;
use vert_base::{Row, VertexId};

/// Stores the lines of a machine's vertices, of machine 0 behind the header line.
pub(crate) fn store_rows<S: Site, H: Shelf>(
    alloc: Global,
    site: &S,
    name: &str,
    shelf: &mut H,
) -> Result<(), Failure>
    ensures stored { StoresFile name.now (rows_file S.work (S.state site.now))
        (shelf_state H.files H.loads H.stores shelf.old)
        (shelf_state H.files H.loads H.stores shelf.new) result }
    ensures loads { H.loads shelf.new ≡ H.loads shelf.old }
{
    let mut text = TextSink::new(alloc);
    match write_rows(site, &mut text) {
        Ok(()) => store_file(shelf, name, text.bytes()),
        // A text in memory fails for want of memory alone.
        Err(_) => Err(Failure::Memory),
    }
}

/// Puts the lines of a machine's vertices, of machine 0 behind the header line.
fn write_rows<S: Site, O: Sink>(site: &S, out: &mut O) -> Result<(), SinkFault>
    ensures { Writes O.held O.faults O.spare out.old out.new
        (rows_file S.work (S.state site.now)) result }
{
    if site.part().at.number() == 0 {
        return write_table(site, out);
    }
    write_lines(site, out)
}

/// Puts the header line, and then those of a machine's vertices.
fn write_table<S: Site, O: Sink>(site: &S, out: &mut O) -> Result<(), SinkFault>
    ensures { Writes O.held O.faults O.spare out.old out.new
        (header_text (S.state site.now).split.program.program
        ++ own_lines S.work (S.state site.now)) result }
{
    write_header(&site.part().split, out)?;
    write_lines(site, out)
}

/// Puts the line of each vertex of a machine's chunk.
fn write_lines<S: Site, O: Sink>(site: &S, out: &mut O) -> Result<(), SinkFault>
    ensures { Writes O.held O.faults O.spare out.old out.new
        (own_lines S.work (S.state site.now)) result }
{
    let part = site.part();
    let machine = part.at.number();
    let mut row = Row {
        words: ArrayVec::new(),
        active: false,
    };
    'vertices: for v in part.cuts.start(machine)..part.cuts.end(machine) {
        write_line(site, VertexId(v), &mut row, out)?;
    }
    Ok(())
}

/// Puts the line of a vertex of a machine's chunk.
fn write_line<S: Site, O: Sink>(
    site: &S,
    v: VertexId,
    row: &mut Row,
    out: &mut O,
) -> Result<(), SinkFault>
    requires { lies_in (S.state site.now).part.ends (machine (S.state site.now)) v.0 ≡ true }
    ensures { Writes O.held O.faults O.spare out.old out.new
        (own_line S.work (S.state site.now) v.0) result }
{
    site.row(v, row);
    write_row(&site.part().split, v, row, out)
}
