ghost use Rattle.std.specs.Prelude.{◌≤◌, length};
ghost use Rattle.hex.specs.Hex.{encode_lower};
ghost use Rattle.array_text.specs.Writes.{Writes};

use crate::put::put_all;
use symple_face::{Sink, SinkFault};

// So many bytes are spelled at a time.
const PIECE: usize = 256;

/// Puts bytes in lower-case hexadecimal.
pub(crate) fn put_hex<O: Sink>(bytes: &[u8], out: &mut O) -> Result<(), SinkFault>
    ensures { Writes O.held O.faults O.spare out.old out.new (encode_lower bytes.now) result }
{
    let mut rest = bytes;
    while rest.len() > PIECE {
        let (piece, behind) = rest.split_at(PIECE);
        put_piece(piece, out)?;
        rest = behind;
    }
    put_piece(rest, out)
}

fn put_piece<O: Sink>(piece: &[u8], out: &mut O) -> Result<(), SinkFault>
    requires { length piece.now ≤ PIECE }
    ensures { Writes O.held O.faults O.spare out.old out.new (encode_lower piece.now) result }
{
    let mut buffer = [0u8; 512];
    let digits = &mut buffer[..2 * piece.len()];
    let _spelled = hex::encode_to_slice(piece, digits);
    put_all(out, digits)
}
