//! Changed streams of messages: a machine ends at each as a second judge says, whole or byte by
//! byte.

use crate::bytes::spelled;
use crate::kind::{Kind, Otherwise};
use crate::mutator::Mutator;
use crate::parts::part_file;
use crate::stream_judge::{End, judge_stream, names_in};
use machine_core::Core;
use std::alloc::{AllocError, Global};
use symple_face::{MemSink, MemSource, Source};
use vert_base::{Name, NameKind};
use worker_stream::{ServeFault, read_part, serve};

/// Good streams of machine 1 of 2: a stop; a sparse round and a stop; a dense round, a sparse one
/// and a stop.
static STREAMS: [&str; 3] = [
    "0601000000 00000001 01000000 00",
    "0601000000 00000001 01000000 02
    0401000000 00000001 01000000 00
    0602000000 00000001 01000000 00",
    "0601000000 00000001 01000000 01
    0101000000 00000001 00000000
    0201000000 00000001 01000000 00
    0201000000 00010001 01000000 01
    0301000000 00000001 0a000000 0100 0000000000000000
    0301000000 00010001 02000000 0000
    0602000000 00000001 01000000 02
    0402000000 00000001 09000000 02 0100000000000000
    0603000000 00000001 01000000 00",
];

/// The most bytes that the machine writes.
const ROOM: usize = 4_000;

/// Streams of messages, and the part file of the machine that they go to.
#[derive(Drop)]
pub struct Messages {
    part: Vec<u8>,
    streams: Vec<Vec<u8>>,
}

impl Messages {
    /// The streams of machine 1 of 2.
    pub fn new(alloc: Global) -> Result<Messages, AllocError> {
        let mut streams = Vec::new(alloc);
        for stream in &STREAMS {
            streams.push(spelled(alloc, stream)?)?;
        }
        Ok(Messages {
            part: part_file(alloc, 0)?,
            streams,
        })
    }

    fn stream(&self, number: u32) -> &[u8] {
        match self.streams.get(number as usize % 3) {
            Some(stream) => stream.as_slice(),
            None => &[],
        }
    }
}

impl Kind for Messages {
    fn changed(
        &self,
        alloc: Global,
        mutator: &mut Mutator,
        number: u32,
    ) -> Result<Vec<u8>, AllocError> {
        let other = self.stream(number.wrapping_add(1));
        mutator.changed(alloc, self.stream(number), other)
    }

    fn is_accepted(&self, alloc: Global, text: &[u8], _number: u32) -> Result<bool, Otherwise> {
        let whole = served(alloc, &self.part, one_piece(alloc, text)?, text.len())?;
        let drops = served(alloc, &self.part, drops(alloc, text)?, text.len())?;
        if drops.end != whole.end || drops.out.bytes() != whole.out.bytes() {
            return Err(Otherwise::Told("another answer byte by byte"));
        }
        is_stated(alloc, text, &whole)
    }
}

/// How the machine ended, and what it wrote.
#[derive(Drop)]
struct Answer {
    end: End,
    out: MemSink,
}

/// Whether the machine ended itself, where its end and what it wrote are as stated.
fn is_stated(alloc: Global, text: &[u8], answer: &Answer) -> Result<bool, Otherwise> {
    let (end, names) = judge_stream(alloc, text)?;
    if answer.end != end {
        return Err(Otherwise::Told("another end"));
    }
    match names_in(alloc, answer.out.bytes())? {
        Some(written) if written.as_slice() == names.as_slice() => Ok(matches!(end, End::Over(_))),
        Some(_) => Err(Otherwise::Told("it wrote other messages")),
        None => Err(Otherwise::Told("it wrote no messages of its own")),
    }
}

fn one_piece(alloc: Global, bytes: &[u8]) -> Result<Vec<Vec<u8>>, AllocError> {
    let mut pieces = Vec::new(alloc);
    pieces.push(Vec::from_slice(alloc, bytes)?)?;
    Ok(pieces)
}

/// A piece for each byte.
fn drops(alloc: Global, bytes: &[u8]) -> Result<Vec<Vec<u8>>, AllocError> {
    let mut drops = Vec::new(alloc);
    for byte in bytes {
        drops.push(Vec::from_slice(alloc, &[*byte])?)?;
    }
    Ok(drops)
}

/// Lets the machine of a part file serve pieces of so many bytes in all.
fn served(
    alloc: Global,
    file: &[u8],
    pieces: Vec<Vec<u8>>,
    len: usize,
) -> Result<Answer, Otherwise> {
    let mut input = MemSource::new(pieces, Vec::new(alloc));
    let mut out = MemSink::new(alloc, ROOM, Vec::new(alloc))?;
    let end = match ended(alloc, file, &mut input, &mut out)? {
        None => End::Over(len.saturating_sub(count_left(&mut input, len)) as u64),
        Some(fault) => end_of(fault)?,
    };
    Ok(Answer { end, out })
}

/// Why the machine of a part file ends before it is over, if it does.
fn ended(
    alloc: Global,
    file: &[u8],
    input: &mut MemSource,
    out: &mut MemSink,
) -> Result<Option<ServeFault>, Otherwise> {
    let Ok(part) = read_part(alloc, file) else {
        return Err(Otherwise::Told("no part"));
    };
    match serve::<Core, MemSource, MemSink>(alloc, part, input, out) {
        Ok(_) => Ok(None),
        Err(fault) => Ok(Some(fault)),
    }
}

/// How many bytes a source has left, which are at most so many.
fn count_left(input: &mut MemSource, most: usize) -> usize {
    let mut count = 0usize;
    let mut into = [0u8; 64];
    for _ in 0..=most {
        match input.take(&mut into) {
            Ok(0) | Err(_) => return count,
            Ok(more) => count = count.saturating_add(more),
        }
    }
    count
}

fn end_of(fault: ServeFault) -> Result<End, Otherwise> {
    match fault {
        ServeFault::Message { code, at } => Ok(End::Message(code, at)),
        ServeFault::Ended(name) => waits(&name),
        ServeFault::Source | ServeFault::Sink => Err(Otherwise::Told("a stream failed")),
        ServeFault::Want => Err(Otherwise::Want),
    }
}

/// The end at which the machine waits for a message from the other machine.
fn waits(name: &Name) -> Result<End, Otherwise> {
    if name.step != 0 || name.from != 0 || name.to != 1 {
        return Err(Otherwise::Told("it waits for no such message"));
    }
    let kind = match name.kind {
        NameKind::Refresh => 1,
        NameKind::Dep => 2,
        NameKind::Update => 3,
        NameKind::Push => 4,
        NameKind::Tally => 5,
        NameKind::Verdict => 6,
    };
    Ok(End::Waits([kind, name.round, u32::from(name.half)]))
}
