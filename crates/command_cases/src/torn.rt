//! Images of which a byte is changed or the end is cut: none is taken for an image.

use crate::files::{Case, got, number, put, told};
use crate::images::{IMAGED, RUN, check_resume, name_of};
use crate::play::Otherwise;
use check_point::{ImageFault, key, read_image};
use edge_reader::read_text;
use instrument::{Split, split_of};
use machine_core::Core;
use outside::MemShelf;
use program_reader::read_program;
use sample_programs::Cells;
use std::alloc::{AllocError, Global};

/// The number from which the runs of images draw.
const DRAWS: u64 = 7;

/// By what an image of a run is judged.
#[derive(Drop)]
struct Judge {
    split: Split,
    key: [u8; 32],
    vertices: u32,
}

impl Judge {
    /// The judge of the images of a case without options.
    fn of(alloc: Global, case: &Case<'_>) -> Result<Judge, Otherwise> {
        let graph = case.graph.as_bytes();
        let Ok(edges) = read_text(alloc, graph, None, false) else {
            return Err(Otherwise::Told("no graph"));
        };
        let Ok(typed) = read_program(alloc, case.program.as_bytes()) else {
            return Err(Otherwise::Told("no program"));
        };
        let key = key(
            case.program.as_bytes(),
            graph,
            None,
            0,
            case.machines,
            DRAWS,
        );
        Ok(Judge {
            split: split_of(typed),
            key,
            vertices: edges.vertices,
        })
    }

    /// Bytes that are an image of this run.
    fn check_whole(&self, alloc: Global, bytes: &[u8]) -> Result<(), Otherwise> {
        match read_image(alloc, bytes, &self.key, &self.split, self.vertices) {
            Ok(_) => Ok(()),
            Err(_) => Err(Otherwise::Told("an image isn't read")),
        }
    }

    /// Bytes that are none, since they are torn.
    fn check_torn(&self, alloc: Global, bytes: &[u8]) -> Result<(), Otherwise> {
        match read_image(alloc, bytes, &self.key, &self.split, self.vertices) {
            Err(ImageFault::Torn) => Ok(()),
            _ => Err(Otherwise::Told("a torn image isn't called torn")),
        }
    }
}

/// Where a torn image stands, and the round with which `resume` begins, since it takes that image
/// for none.
#[derive(Drop)]
struct Place<'a> {
    case: &'a Case<'a>,
    whole: &'a str,
    shelf: MemShelf,
    name: &'static str,
    round: u64,
}

/// Torn bytes are refused, and `resume` goes on as if there were none.
fn check_bytes(
    alloc: Global,
    judge: &Judge,
    place: &mut Place<'_>,
    bytes: &[u8],
) -> Result<(), Otherwise> {
    judge.check_torn(alloc, bytes)?;
    put(&mut place.shelf, place.name, bytes)?;
    check_resume(
        alloc,
        place.case,
        &mut place.shelf,
        place.whole,
        place.round,
    )
}

/// An image with one byte changed.
fn changed(alloc: Global, image: &[u8], at: usize, bits: u8) -> Result<Vec<u8>, AllocError> {
    let mut bytes = Vec::from_slice(alloc, image)?;
    if let Some(byte) = bytes.get_mut(at) {
        *byte ^= bits;
    }
    Ok(bytes)
}

/// An image with each byte changed in its lowest and in its highest bit, and cut before each byte.
fn check_image(
    alloc: Global,
    judge: &Judge,
    place: &mut Place<'_>,
    image: &[u8],
) -> Result<(), Otherwise> {
    judge.check_whole(alloc, image)?;
    for at in 0..image.len() {
        for bits in [1, 128] {
            let bytes = changed(alloc, image, at, bits)?;
            check_bytes(alloc, judge, place, &bytes)?;
        }
        check_bytes(alloc, judge, place, &image[..at])?;
    }
    Ok(())
}

/// The later of two images is torn, and the earlier one is whole.
fn check_later(
    alloc: Global,
    judge: &Judge,
    case: &Case<'_>,
    whole: &str,
    rounds: u64,
) -> Result<(), Otherwise> {
    let mut shelf = case.shelf(alloc, Vec::new(alloc))?;
    told::<Core>(alloc, &case.line(alloc, IMAGED)?, &mut shelf)?;
    check_resume(alloc, case, &mut shelf, whole, rounds)?;
    let round = rounds.saturating_sub(1);
    let name = name_of(round);
    let image = got(alloc, &mut shelf, name)?;
    let mut place = Place {
        case,
        whole,
        shelf,
        name,
        round,
    };
    check_image(alloc, judge, &mut place, &image)
}

/// An image is torn that is the only one.
fn check_only(
    alloc: Global,
    judge: &Judge,
    case: &Case<'_>,
    whole: &str,
    rounds: u64,
) -> Result<(), Otherwise> {
    let mut images = case.shelf(alloc, Vec::new(alloc))?;
    told::<Core>(alloc, &case.line(alloc, IMAGED)?, &mut images)?;
    let before = rounds.saturating_sub(2);
    let name = name_of(before);
    let image = got(alloc, &mut images, name)?;
    let shelf = case.shelf(alloc, Vec::new(alloc))?;
    let mut place = Place {
        case,
        whole,
        shelf,
        name,
        round: 1,
    };
    check_image(alloc, judge, &mut place, &image)
}

/// A case of which the cells tell a program, a graph, no options, how many machines and how many
/// rounds there are: the images of the last two rounds that have one are torn.
pub fn torn(alloc: Global, cells: &mut Cells<'_>) -> Result<(), Otherwise> {
    let case = Case::read(alloc, cells)?;
    let rounds = number(cells)?;
    let judge = Judge::of(alloc, &case)?;
    let mut shelf = case.shelf(alloc, Vec::new(alloc))?;
    let whole = told::<Core>(alloc, &case.line(alloc, RUN)?, &mut shelf)?;
    check_later(alloc, &judge, &case, &whole, rounds)?;
    check_only(alloc, &judge, &case, &whole, rounds)
}
