//! A text with pieces changed at random.

use rand_core::utils::NextWord;
use rand_pcg::Lcg64Xsh32;
use std::alloc::{AllocError, Global};

/// What is put in the place of a number or a word.
static BORDERS: &str = "\
0
1
16
17
64
65
255
256
10000
10001
2097151
2097152
8388608
2147483648
4294967295
4294967296
9223372036854775807
9223372036854775808
18446744073709551615
18446744073709551616
99999999999999999999999999999999999999
-1
-2147483648
-2147483649
go 0
take tally 1 0
round 2
lose tally 0 1 0
{ } ; :
total t: sum = 1;
@";

/// How many lines `BORDERS` has.
const BORDER_COUNT: usize = 31;

static BITS: [u8; 8] = [1, 2, 4, 8, 16, 32, 64, 128];

/// Changes texts, each change by the next words of a generator.
#[derive(Drop)]
pub struct Mutator {
    generator: Lcg64Xsh32,
}

impl Mutator {
    /// The mutator of a seed.
    pub fn new(seed: u64) -> Mutator {
        Mutator {
            generator: Lcg64Xsh32::new(seed, 28),
        }
    }

    /// A number below the bound, or 0 where that is 0.
    pub fn below(&mut self, bound: usize) -> usize {
        let word = self.generator.next_word() as usize;
        word.checked_rem(bound).unwrap_or(0)
    }

    /// Two places of a text with so many bytes, in order and mostly near each other.
    fn places(&mut self, len: usize) -> (usize, usize) {
        let begun = self.below(len.saturating_add(1));
        let most = if self.below(4) == 0 { len } else { 12 };
        let ended = begun.saturating_add(self.below(most));
        (begun, ended.min(len))
    }

    /// A byte with one bit.
    fn bit(&mut self) -> u8 {
        let place = self.below(8);
        BITS.get(place).copied().unwrap_or(1)
    }

    /// A number of four bytes at the border of what is read, or any.
    fn number(&mut self) -> [u8; 4] {
        let number = match self.below(8) {
            0 => 0,
            1 => 1,
            2 => 2,
            3 => 2_097_152,
            4 => 8_388_609,
            5 => u32::MAX,
            6 => 2_147_483_648,
            _ => self.generator.next_word(),
        };
        number.to_le_bytes()
    }

    /// A number or a word at the border of what is read.
    fn border(&mut self) -> &'static [u8] {
        let line = self.below(BORDER_COUNT);
        BORDERS.lines().nth(line).unwrap_or("").as_bytes()
    }

    /// A piece of a text.
    fn piece<'a>(&mut self, text: &'a [u8]) -> &'a [u8] {
        let (begun, ended) = self.places(text.len());
        text.get(begun..ended).unwrap_or(&[])
    }

    /// The text with one piece changed: the piece or the end is cut off, the piece is repeated, one
    /// of the other text is put in, a number or a word stands in its place, or a bit is another
    /// one.
    fn change(&mut self, alloc: Global, text: &[u8], other: &[u8]) -> Result<Vec<u8>, AllocError> {
        let (begun, ended) = self.places(text.len());
        match self.below(8) {
            0 => joined(alloc, text, begun, &[], ended),
            1 => joined(alloc, text, begun, &[], begun.saturating_add(1)),
            2 => joined(alloc, text, begun, &[], usize::MAX),
            3 => joined(alloc, text, ended, text.get(begun..).unwrap_or(&[]), ended),
            4 => joined(alloc, text, begun, self.piece(other), begun),
            5 => joined(alloc, text, begun, &self.number(), begun.saturating_add(4)),
            6 => joined(
                alloc,
                text,
                begun,
                self.border(),
                behind_digits(text, begun),
            ),
            _ => {
                let byte = text.get(begun).copied().unwrap_or(0) ^ self.bit();
                joined(alloc, text, begun, &[byte], begun.saturating_add(1))
            }
        }
    }

    /// The text changed one to three times, in part by pieces of the other one.
    pub fn changed(
        &mut self,
        alloc: Global,
        text: &[u8],
        other: &[u8],
    ) -> Result<Vec<u8>, AllocError> {
        let mut changed = self.change(alloc, text, other)?;
        for _ in 0..self.below(3) {
            changed = self.change(alloc, changed.as_slice(), other)?;
        }
        Ok(changed)
    }
}

/// The text with a piece in the place of what stands between two of its places.
fn joined(
    alloc: Global,
    text: &[u8],
    begun: usize,
    piece: &[u8],
    ended: usize,
) -> Result<Vec<u8>, AllocError> {
    let front = text.get(..begun).unwrap_or(&[]);
    let behind = text.get(ended..).unwrap_or(&[]);
    let mut bytes = Vec::with_capacity(alloc, text.len().saturating_add(piece.len()))?;
    bytes.extend_from_slice(front)?;
    bytes.extend_from_slice(piece)?;
    bytes.extend_from_slice(behind)?;
    Ok(bytes)
}

/// The place behind the digits that stand at a place.
fn behind_digits(text: &[u8], begun: usize) -> usize {
    let digits = text
        .get(begun..)
        .unwrap_or(&[])
        .iter()
        .take_while(|byte| byte.is_ascii_digit())
        .count();
    begun.saturating_add(digits)
}
