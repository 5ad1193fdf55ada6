ghost use Rattle.std.specs.Prelude.{map};
ghost use Rattle.array_text.specs.Reads.{read_head_text, source_text, sources_text};
ghost use Rattle.array_text.specs.Writes.{Writes};

use crate::put::put_pieces;
use itoa::Buffer;
use symple_face::{Sink, SinkFault};
use vert_base::VertexId;

/// Puts the front of a read line: the round and the vertex, without a line end.
pub fn write_read_head<O: Sink>(round: u32, v: VertexId, out: &mut O) -> Result<(), SinkFault>
    ensures { Writes O.held O.faults O.spare out.old out.new (read_head_text round v.0) result }
{
    let mut number = Buffer::new();
    let mut id = Buffer::new();
    let pieces = [
        b"read ",
        number.format(round).as_bytes(),
        b" ",
        id.format(v.0).as_bytes(),
    ];
    put_pieces(out, &pieces)
}

/// Puts the ids of sources, each after a space. The line goes on where more sources come, and is ended
/// by the caller.
pub fn write_reads<O: Sink>(sources: &[VertexId], out: &mut O) -> Result<(), SinkFault>
    ensures { Writes O.held O.faults O.spare out.old out.new
        (sources_text (map (λ u. u.0) sources.now)) result }
{
    for source in sources {
        write_source(*source, out)?;
    }
    Ok(())
}

fn write_source<O: Sink>(source: VertexId, out: &mut O) -> Result<(), SinkFault>
    ensures { Writes O.held O.faults O.spare out.old out.new (source_text source.0) result }
{
    let mut id = Buffer::new();
    put_pieces(out, &[b" ", id.format(source.0).as_bytes()])
}
