//! Changed images: one that is read is written to the same bytes, and one that is refused is
//! refused as a second judge says, also where its digest is made anew.

use crate::image_judge::{Judged, Rules, VERTICES, judge_image};
use crate::kind::{Kind, Otherwise};
use crate::mutator::Mutator;
use check_point::{ImageFault, read_image, write_image};
use instrument::{Split, split_of};
use program_reader::read_program;
use sample_programs::program_named;
use sha2::{Digest, Sha256};
use std::alloc::{AllocError, Global};
use symple_face::Start;
use vert_base::Ruling;

static KEY: [u8; 32] = [28; 32];

/// A good image of a run, and what is asked of others of its program.
#[derive(Drop)]
struct Good {
    split: Split,
    rules: Rules,
    bytes: Vec<u8>,
}

/// Images. Where they are sealed, their digests are made anew behind the change.
#[derive(Drop)]
pub struct Images {
    sealed: bool,
    bfs: Good,
    k: Good,
    halve: Good,
}

impl Images {
    /// Images of three programs.
    pub fn new(alloc: Global, sealed: bool) -> Result<Images, Otherwise> {
        Ok(Images {
            sealed,
            bfs: bfs_image(alloc)?,
            k: k_image(alloc)?,
            halve: halve_image(alloc)?,
        })
    }

    fn good(&self, number: u32) -> &Good {
        match number % 3 {
            0 => &self.bfs,
            1 => &self.k,
            _ => &self.halve,
        }
    }
}

fn bfs_image(alloc: Global) -> Result<Good, Otherwise> {
    let rules = Rules {
        fields: 2,
        bools: false,
        totals: 0,
        limit: 100,
        sparse: true,
    };
    let words = [0, -1, 0, 1, 0, 1, 1, 0, 1, -1, -1, 0];
    good_of(alloc, "bfs", rules, &words)
}

fn k_image(alloc: Global) -> Result<Good, Otherwise> {
    let rules = Rules {
        fields: 1,
        bools: true,
        totals: 0,
        limit: 100,
        sparse: false,
    };
    good_of(alloc, "k", rules, &[0, 1, 1, 0, 1, 1, 0, 0])
}

fn halve_image(alloc: Global) -> Result<Good, Otherwise> {
    let rules = Rules {
        fields: 1,
        bools: false,
        totals: 1,
        limit: 10,
        sparse: false,
    };
    good_of(alloc, "halve", rules, &[0, 1, 1, 0, 1, 0, 2, 1, 4])
}

/// The image of a program after round 1, before a dense round with two active vertices and two
/// active edges: these are the words of its rows and totals.
fn good_of(alloc: Global, name: &str, rules: Rules, words: &[i64]) -> Result<Good, Otherwise> {
    let text = program_named(name).unwrap_or("");
    let Ok(typed) = read_program(alloc, text.as_bytes()) else {
        return Err(Otherwise::Told("no program"));
    };
    let mut bytes = Vec::new(alloc);
    bytes.extend_from_slice(b"SGI1")?;
    bytes.extend_from_slice(&KEY)?;
    bytes.extend_from_slice(&[1, 0, 0, 0, 1])?;
    bytes.extend_from_slice(&2u64.to_le_bytes())?;
    bytes.extend_from_slice(&2u64.to_le_bytes())?;
    bytes.extend_from_slice(&VERTICES.to_le_bytes())?;
    for word in words {
        bytes.extend_from_slice(&word.to_le_bytes())?;
    }
    Ok(Good {
        split: split_of(typed),
        rules,
        bytes: with_digest(alloc, &bytes)?,
    })
}

/// The bytes with their digest behind them.
fn with_digest(alloc: Global, front: &[u8]) -> Result<Vec<u8>, AllocError> {
    let mut sealed = Vec::with_capacity(alloc, front.len().saturating_add(32))?;
    sealed.extend_from_slice(front)?;
    sealed.extend_from_slice(&Sha256::digest(front))?;
    Ok(sealed)
}

impl Kind for Images {
    fn changed(
        &self,
        alloc: Global,
        mutator: &mut Mutator,
        number: u32,
    ) -> Result<Vec<u8>, AllocError> {
        let good = self.good(number);
        let other = self.good(number.wrapping_add(1));
        let changed = mutator.changed(alloc, &good.bytes, &other.bytes)?;
        if !self.sealed {
            return Ok(changed);
        }
        let front = changed.len().saturating_sub(32);
        with_digest(alloc, changed.get(..front).unwrap_or(&[]))
    }

    fn is_accepted(&self, alloc: Global, text: &[u8], number: u32) -> Result<bool, Otherwise> {
        let good = self.good(number);
        let stated = judge_image(text, &KEY, &good.rules);
        match read_image(alloc, text, &KEY, &good.split, VERTICES) {
            Err(ImageFault::Want) => Err(Otherwise::Want),
            Err(ImageFault::Torn) if stated == Judged::Torn => Ok(false),
            Err(ImageFault::Other) if stated == Judged::Other => Ok(false),
            Ok(start) if stated == Judged::Own => {
                if !self.sealed && text != good.bytes.as_slice() {
                    return Err(Otherwise::Told("a change that its digest doesn't show"));
                }
                is_written(alloc, &start, text)
            }
            _ => Err(Otherwise::Told("another answer to the image")),
        }
    }
}

/// Whether a start is written as it was read.
fn is_written(alloc: Global, start: &Start, text: &[u8]) -> Result<bool, Otherwise> {
    if start.round < 1 || start.ruling == Ruling::Stop || start.rows.len() > 100 {
        return Err(Otherwise::Told("no start"));
    }
    if write_image(alloc, &KEY, start)?.as_slice() != text {
        return Err(Otherwise::Told("it is written otherwise"));
    }
    Ok(true)
}
