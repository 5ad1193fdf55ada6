ghost use Rattle.std.specs.Prelude.{◌≡◌, ◌<◌, ◌≤◌, length, IfSome};

use std::io::{ErrorKind, Read, Write};

/// Reads some bytes to the front of the piece, 0 only at the end. `None` where the reader failed.
pub(crate) fn read_some<R: Read>(reader: &mut R, piece: &mut [u8]) -> Option<usize>
    ensures { IfSome result (λ size. size ≤ length piece.old) }
{
    for _ in 0..u64::MAX {
        match reader.read(piece) {
            Ok(size) => return Some(size),
            Err(error) if error.kind() == ErrorKind::Interrupted => {}
            Err(_) => return None,
        }
    }
    None
}

/// Writes some bytes from the front of the piece. `None` where the writer failed or took none.
pub(crate) fn write_some<W: Write>(writer: &mut W, piece: &[u8]) -> Option<usize>
    ensures { IfSome result (λ size. (0 < size) × (size ≤ length piece.now)) }
{
    for _ in 0..u64::MAX {
        match writer.write(piece) {
            Ok(0) => return None,
            Ok(size) => return Some(size),
            Err(error) if error.kind() == ErrorKind::Interrupted => {}
            Err(_) => return None,
        }
    }
    None
}

/// Has the writer hand on all that it holds back, and answers 0. `None` where it failed.
pub(crate) fn hand_on<W: Write>(writer: &mut W) -> Option<usize>
    ensures { IfSome result (λ size. size ≡ 0) }
{
    for _ in 0..u64::MAX {
        match writer.flush() {
            Ok(()) => return Some(0),
            Err(error) if error.kind() == ErrorKind::Interrupted => {}
            Err(_) => return None,
        }
    }
    None
}

/// Writes all of the bytes, and tells whether it could.
pub(crate) fn write_whole<W: Write>(writer: &mut W, bytes: &[u8]) -> bool {
    let mut done = 0;
    while done < bytes.len() {
        match write_some(writer, &bytes[done..]) {
            Some(size) => done += size,
            None => return false,
        }
    }
    true
}
