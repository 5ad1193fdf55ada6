ghost use Rattle.std.specs.Prelude.{◌≡◌, None};

use crate::counts::one_more;
use crate::pieces::{hand_on, read_some, write_some};
use outside::{Sink, SinkFault, Source, SourceFault};
use std::io::{Read, Write};

/// The most bytes that one read asks for.
const PIECE: usize = 8_192;

/// A stream of the system to read from. It counts its failures and tells nothing of contents.
#[derive(Drop)]
pub struct InSource<R: Read + Drop> {
    reader: R,
    faults: u64,
}

impl<R: Read + Drop> InSource<R> {
    /// The stream behind this reader.
    pub fn new(reader: R) -> Self
        ensures { result.faults ≡ 0 }
    {
        InSource { reader, faults: 0 }
    }
}

impl<R: Read + Drop> Source for InSource<R> {
    ghost left = { λ _. None };

    ghost faults = { λ source. source.faults };

    fn take(&mut self, into: &mut [u8]) -> Result<usize, SourceFault> {
        let mut piece = [0u8; PIECE];
        let most = into.len().min(PIECE);
        match read_some(&mut self.reader, &mut piece[..most]) {
            Some(size) => {
                into[..size].copy_from_slice(&piece[..size]);
                Ok(size)
            }
            None => {
                self.faults = one_more(self.faults);
                Err(SourceFault)
            }
        }
    }
}

/// A stream of the system to write to. It counts its failures and tells nothing of contents. At an empty
/// piece the stream hands on what it holds back.
#[derive(Drop)]
pub struct OutSink<W: Write + Drop> {
    writer: W,
    faults: u64,
}

impl<W: Write + Drop> OutSink<W> {
    /// The stream behind this writer.
    pub fn new(writer: W) -> Self
        ensures { result.faults ≡ 0 }
    {
        OutSink { writer, faults: 0 }
    }
}

impl<W: Write + Drop> Sink for OutSink<W> {
    ghost held = { λ _. None };

    ghost faults = { λ sink. sink.faults };

    fn put(&mut self, bytes: &[u8]) -> Result<usize, SinkFault> {
        let taken = if bytes.is_empty() {
            hand_on(&mut self.writer)
        } else {
            write_some(&mut self.writer, bytes)
        };
        match taken {
            Some(size) => Ok(size),
            None => {
                self.faults = one_more(self.faults);
                Err(SinkFault)
            }
        }
    }
}
