//! A second judge of what machine 1 of 2 does with a stream of messages, written from the rules of
//! messages and of rounds alone. The machine runs `bfs` on the diamond: it owns the vertices 2 and
//! 3, to which an edge leads from each of the vertices 0 and 1, and from which none leads to those.

use crate::bytes::{eight_at, four_at};
use std::alloc::{AllocError, Global};

/// The greatest round of the program.
const LIMIT: u32 = 100;

/// The most that a tally counts.
const MOST: u64 = 4_294_967_296;

/// The header of a message.
#[derive(Clone, Copy)]
pub struct Header {
    pub kind: u8,
    pub round: u32,
    pub step: u8,
    pub half: u8,
    pub from: u8,
    pub to: u8,
    pub len: u32,
}

/// How many bytes a header has.
pub const HEADER: usize = 13;

fn header_in(bytes: &[u8]) -> Option<Header> {
    let [kind, _, _, _, _, step, half, from, to, ..] = bytes else {
        return None;
    };
    Some(Header {
        kind: *kind,
        round: four_at(bytes, 1)?,
        step: *step,
        half: *half,
        from: *from,
        to: *to,
        len: four_at(bytes, 9)?,
    })
}

/// The message at the front of bytes, as its header and body, or the code that refuses it whatever
/// was taken before.
pub fn front_of(bytes: &[u8]) -> Result<(Header, &[u8]), u8> {
    if bytes.is_empty() {
        return Err(6);
    }
    let Some(header) = header_in(bytes) else {
        return Err(1);
    };
    if header.kind < 1 || header.kind > 6 {
        return Err(2);
    }
    if !is_planned(&header) {
        return Err(3);
    }
    if header.len > longest(&header) {
        return Err(4);
    }
    let behind = bytes.get(HEADER..).unwrap_or(&[]);
    let Some(body) = behind.get(..header.len as usize) else {
        return Err(1);
    };
    if fits(&header, body) {
        Ok((header, body))
    } else {
        Err(4)
    }
}

/// Whether one of the two machines sends such a message to the other in some run.
fn is_planned(header: &Header) -> bool {
    let round = header.round;
    let halved = header.kind == 2 || header.kind == 3;
    let rounds = match header.kind {
        5 => 0..=LIMIT,
        6 => 1..=101,
        _ => 1..=LIMIT,
    };
    let ends = match header.kind {
        5 => header.from == 1 && header.to == 0,
        6 => header.from == 0 && header.to == 1,
        _ => header.from <= 1 && header.to <= 1 && header.from != header.to,
    };
    ends && rounds.contains(&round)
        && header.step == 0
        && (header.half == 0 || halved && header.half == 1)
}

/// How long a body of that name is at most. Only machine 0 tells of vertices by updates and pushes,
/// and only machine 1 tells rows.
fn longest(header: &Header) -> u32 {
    match (header.kind, header.from) {
        (1, 1) => 48,
        (2, _) | (6, _) => 1,
        (3, 0) => 10,
        (4, 0) => 17,
        (5, _) => 24,
        _ => 0,
    }
}

/// Whether a body has its form.
fn fits(header: &Header, body: &[u8]) -> bool {
    match (header.kind, header.from) {
        (1, 1) => body.len() == 48 && word_within(body, 16, 1) && word_within(body, 40, 1),
        (2, _) => matches!(body, [0..=2]),
        (3, 0) => matches!(body, [0, 0]) || body.len() == 10 && body.starts_with(&[1, 0]),
        (4, 0) => is_push(body),
        (5, _) => body.len() == 24
            && [0, 8, 16]
                .iter()
                .all(|place| word_within(body, *place, MOST)),
        (6, _) => matches!(body, [0]) || header.round <= LIMIT && matches!(body, [1 | 2]),
        _ => body.is_empty(),
    }
}

fn word_within(body: &[u8], place: usize, most: u64) -> bool {
    match eight_at(body, place) {
        Some(word) => word <= most,
        None => false,
    }
}

/// Two bits, and a word for each 1.
fn is_push(body: &[u8]) -> bool {
    match body {
        [0] => true,
        [1 | 2, words @ ..] => words.len() == 8,
        [3, words @ ..] => words.len() == 16,
        _ => false,
    }
}

/// How the machine ends: over behind so many bytes; by a message of that place with a code; or at
/// the end of the bytes, where it waits for a message of that kind, round and half.
#[derive(Clone, Copy, PartialEq, Eq)]
pub enum End {
    Over(u64),
    Message(u8, u64),
    Waits([u32; 3]),
}

/// What a machine does next: it needs a message to have been taken, or sends one, of that kind and
/// half.
#[derive(Clone, Copy)]
enum Act {
    Needs(u8, u8),
    Sends(u8, u8),
}

/// A dense round: the rows go out; then each half of the other chunk is worked on, each half of the
/// own one, and all ends with a tally.
static DENSE: [Act; 12] = [
    Act::Needs(6, 0),
    Act::Sends(1, 0),
    Act::Needs(1, 0),
    Act::Sends(3, 0),
    Act::Sends(2, 0),
    Act::Sends(3, 1),
    Act::Sends(2, 1),
    Act::Needs(2, 0),
    Act::Needs(2, 1),
    Act::Needs(3, 0),
    Act::Needs(3, 1),
    Act::Sends(5, 0),
];

static SPARSE: [Act; 4] = [
    Act::Needs(6, 0),
    Act::Sends(4, 0),
    Act::Needs(4, 0),
    Act::Sends(5, 0),
];

/// Where the machine stands in a round.
#[derive(Drop)]
struct Standing {
    round: u32,
    is_dense: bool,
    // How much of the round's list is done.
    done: usize,
    // The messages taken in the round, each as its kind and half.
    taken: Vec<(u8, u8)>,
    // The kind, the round and the half of each message that the machine sent.
    sent: Vec<[u32; 3]>,
}

impl Standing {
    /// The machine before round 1, which sent the tally of the first rows.
    fn new(alloc: Global) -> Result<Standing, AllocError> {
        let mut sent = Vec::new(alloc);
        sent.push([5, 0, 0])?;
        Ok(Standing {
            round: 1,
            is_dense: false,
            done: 0,
            taken: Vec::new(alloc),
            sent,
        })
    }

    fn acts(&self) -> &'static [Act] {
        let acts = if self.is_dense {
            DENSE.as_slice()
        } else {
            SPARSE.as_slice()
        };
        acts.get(self.done..).unwrap_or(&[])
    }

    /// The kind, round and half of the message that the machine waits for.
    fn need(&self) -> [u32; 3] {
        match self.acts() {
            [Act::Needs(kind, half), ..] => [u32::from(*kind), self.round, u32::from(*half)],
            _ => [0, 0, 0],
        }
    }

    /// Whether a message is addressed here, of the round, and not taken.
    fn is_due(&self, header: &Header) -> bool {
        header.to == 1
            && header.round == self.round
            && !self.taken.contains(&(header.kind, header.half))
    }

    /// Takes a message, and does what can be done then. It answers whether the machine is over.
    fn take(&mut self, header: &Header, body: &[u8]) -> Result<bool, AllocError> {
        self.taken.push((header.kind, header.half))?;
        if header.kind == 6 {
            self.is_dense = body == [1].as_slice();
            if body == [0].as_slice() {
                return Ok(true);
            }
        }
        self.act()?;
        Ok(false)
    }

    fn act(&mut self) -> Result<(), AllocError> {
        for act in self.acts() {
            match act {
                Act::Needs(kind, half) => {
                    if !self.taken.contains(&(*kind, *half)) {
                        return Ok(());
                    }
                }
                Act::Sends(kind, half) => {
                    self.sent
                        .push([u32::from(*kind), self.round, u32::from(*half)])?;
                }
            }
            self.done = self.done.saturating_add(1);
        }
        self.round = self.round.saturating_add(1);
        self.done = 0;
        self.taken.clear();
        Ok(())
    }
}

/// Judges a stream: how the machine ends, and the kind, round and half of each message that it
/// sends.
pub fn judge_stream(alloc: Global, bytes: &[u8]) -> Result<(End, Vec<[u32; 3]>), AllocError> {
    let mut machine = Standing::new(alloc)?;
    let mut place = 0usize;
    // Each message has a byte or more.
    for _ in 0..=bytes.len() {
        match front_of(bytes.get(place..).unwrap_or(&[])) {
            Err(6) => break,
            Err(code) => return Ok((End::Message(code, place as u64), machine.sent)),
            Ok((header, body)) => {
                if !machine.is_due(&header) {
                    return Ok((End::Message(5, place as u64), machine.sent));
                }
                place = place.saturating_add(HEADER).saturating_add(body.len());
                if machine.take(&header, body)? {
                    return Ok((End::Over(place as u64), machine.sent));
                }
            }
        }
    }
    Ok((End::Waits(machine.need()), machine.sent))
}

/// The kind, round and half of each message in what the machine wrote, or none where that isn't
/// messages of its own.
pub fn names_in(alloc: Global, bytes: &[u8]) -> Result<Option<Vec<[u32; 3]>>, AllocError> {
    let mut names = Vec::new(alloc);
    let mut place = 0usize;
    for _ in 0..=bytes.len() {
        match front_of(bytes.get(place..).unwrap_or(&[])) {
            Err(6) => return Ok(Some(names)),
            Ok((header, body)) if header.from == 1 => {
                names.push([u32::from(header.kind), header.round, u32::from(header.half)])?;
                place = place.saturating_add(HEADER).saturating_add(body.len());
            }
            _ => return Ok(None),
        }
    }
    Ok(None)
}
