ghost use Rattle.std.specs.Prelude.{◌≡◌, slice_get};
ghost use Rattle.array_text.specs.Tables.{bytes_of, header_text};
ghost use Rattle.array_text.specs.Writes.{Writes};

use crate::put::{put_all, put_pieces};
use instrument::Split;
use symple_face::{Sink, SinkFault};
use vert_tree::{Decl, Program};

/// Puts the first line of the table.
pub fn write_header<O: Sink>(split: &Split, out: &mut O) -> Result<(), SinkFault>
    ensures { Writes O.held O.faults O.spare out.old out.new
        (header_text split.now.program.program) result }
{
    put_all(out, b"vertex")?;
    for field in &split.program.program.fields {
        put_pieces(out, &[b" ", name_of(&split.program.program, field)])?;
    }
    put_all(out, b"\n")
}

fn name_of<'a>(program: &'a Program, field: &Decl) -> &'a [u8]
    ensures { result.now ≡ bytes_of (slice_get program.now.names.items field.now.name.name) }
{
    match program.names.get(field.name.name as usize) {
        Some(name) => name.as_bytes(),
        None => b"",
    }
}
