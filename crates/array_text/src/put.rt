ghost use Rattle.std.specs.Prelude.{flat_map};
ghost use Rattle.array_text.specs.Writes.{Writes};

use symple_face::{Sink, SinkFault};

/// Puts all of the bytes, in as many pieces as the sink takes them.
pub fn put_all<O: Sink>(out: &mut O, bytes: &[u8]) -> Result<(), SinkFault>
    ensures { Writes O.held O.faults O.spare out.old out.new bytes.now result }
{
    let mut done = 0;
    while done < bytes.len() {
        done += out.put(&bytes[done..])?;
    }
    Ok(())
}

/// Puts the pieces one after another.
pub fn put_pieces<O: Sink>(out: &mut O, pieces: &[&[u8]]) -> Result<(), SinkFault>
    ensures { Writes O.held O.faults O.spare out.old out.new
        (flat_map (λ piece. piece.now) pieces.now) result }
{
    for piece in pieces {
        put_all(out, piece)?;
    }
    Ok(())
}
