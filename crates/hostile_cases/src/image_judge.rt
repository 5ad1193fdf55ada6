//! A second judge of images, written from their rules alone.

use crate::bytes::{eight_at, four_at};
use sha2::{Digest, Sha256};

/// How many vertices each image has.
pub const VERTICES: u32 = 4;

/// The most that an image counts of active vertices, and of edges.
const MOST: u64 = 4_294_967_296;

/// What is asked of an image's program: how many fields it has and whether these are Bools, how
/// many totals, its limit, and whether it has a sparse block. Each has a dense one.
#[derive(Clone, Copy)]
pub struct Rules {
    pub fields: usize,
    pub bools: bool,
    pub totals: usize,
    pub limit: u64,
    pub sparse: bool,
}

/// What an image is: none at all, by I1, one of another run, by I2, or one of this run.
#[derive(Clone, Copy, PartialEq, Eq)]
pub enum Judged {
    Torn,
    Other,
    Own,
}

/// Judges bytes.
pub fn judge_image(bytes: &[u8], key: &[u8; 32], rules: &Rules) -> Judged {
    let width = rules.fields.saturating_add(1);
    let row_words = width.saturating_mul(VERTICES as usize);
    let words = row_words.saturating_add(rules.totals);
    let front = words.saturating_mul(8).saturating_add(61);
    let Some((told, digest)) = bytes.split_at_checked(front) else {
        return Judged::Torn;
    };
    if !told.starts_with(b"SGI1") || Sha256::digest(told).as_slice() != digest {
        return Judged::Torn;
    }
    let rows = told.get(61..).unwrap_or(&[]);
    if told.get(4..36) == Some(key.as_slice())
        && has_counts(told, rules)
        && has_bools(rows, row_words, width, rules)
    {
        Judged::Own
    } else {
        Judged::Other
    }
}

/// Whether a run of the program can go on with the numbers in front.
fn has_counts(told: &[u8], rules: &Rules) -> bool {
    let round = u64::from(four_at(told, 36).unwrap_or(0));
    let active = eight_at(told, 41).unwrap_or(0);
    let edges = eight_at(told, 49).unwrap_or(u64::MAX);
    is_ruling(told.get(40).copied(), rules)
        && (1..rules.limit).contains(&round)
        && (1..=MOST).contains(&active)
        && edges <= MOST
        && four_at(told, 57) == Some(VERTICES)
}

fn is_ruling(byte: Option<u8>, rules: &Rules) -> bool {
    match byte {
        Some(1) => true,
        Some(2) => rules.sparse,
        _ => false,
    }
}

/// Whether in rows of so many words the last one, which is the flag, and each other that is a Bool
/// are 0 or 1.
fn has_bools(rows: &[u8], row_words: usize, width: usize, rules: &Rules) -> bool {
    for (place, word) in rows.chunks_exact(8).take(row_words).enumerate() {
        let is_flag = place.checked_rem(width) == Some(rules.fields);
        if (is_flag || rules.bools) && eight_at(word, 0).unwrap_or(2) > 1 {
            return false;
        }
    }
    true
}
