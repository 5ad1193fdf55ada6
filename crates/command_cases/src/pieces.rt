//! Bytes in pieces of sizes that a generator draws.

use std::alloc::{AllocError, Global};

/// How an input is cut.
#[derive(Clone, Copy)]
pub enum Cut {
    /// In one piece.
    Whole,
    /// In pieces of one byte.
    Bytes,
    /// In pieces of 1 to 40 bytes, which are drawn from this number on.
    Drawn(u64),
}

impl Cut {
    /// The size of the next piece.
    fn size(&mut self) -> usize {
        match self {
            Cut::Whole => usize::MAX,
            Cut::Bytes => 1,
            Cut::Drawn(state) => {
                let next = state
                    .wrapping_mul(6_364_136_223_846_793_005)
                    .wrapping_add(1_442_695_040_888_963_407);
                *state = next;
                (next >> 33) as usize % 40 + 1
            }
        }
    }
}

/// Bytes in pieces.
pub fn in_pieces(alloc: Global, bytes: &[u8], cut: Cut) -> Result<Vec<Vec<u8>>, AllocError> {
    let mut cut = cut;
    let mut pieces = Vec::new(alloc);
    let mut rest = bytes;
    for _ in 0..bytes.len() {
        if rest.is_empty() {
            break;
        }
        let (piece, others) = rest.split_at(cut.size().min(rest.len()));
        pieces.push(Vec::from_slice(alloc, piece)?)?;
        rest = others;
    }
    Ok(pieces)
}
