//! Changed part files: one that is read is written to the same bytes, and one that is refused has
//! the first fault of a second judge.

ghost use Rattle.std.specs.Prelude.{◌≡◌, IfOk};
ghost use Rattle.program_reader.specs.Accepted.{Says};

use crate::bytes::spelled;
use crate::kind::{Kind, Otherwise};
use crate::mutator::Mutator;
use crate::part_judge::{Judged, judge_part};
use crate::programs::printed;
use instrument::{Split, split_of};
use program_reader::{ProgramFault, read_program};
use sample_programs::program_named;
use std::alloc::{AllocError, Global};
use std::rc::Rc;
use symple_face::Part;
use vert_tree::print_program;
use worker_stream::{PartFault, read_part, write_part};

/// Part files of the diamond: the program, what stands before its text, and what stands behind it,
/// as the edges from the chunk, those into it, and the degrees.
static FILES: [[&str; 3]; 2] = [
    [
        "bfs",
        "53475031 01 02 0700000000000000 04000000 04000000 02000000 04000000",
        "01000000 02000000 03000000 01000000
        03000000 00000000 02000000 01000000 01000000 03000000 01000000 02000000 03000000 01000000
        02000000 02000000 01000000 01000000 03000000 02000000 00000000",
    ],
    [
        "zero",
        "53475031 00 03 0000000000000000 04000000 04000000 02000000 03000000 04000000",
        "03000000 00000000 01000000 01000000 00000000 02000000 01000000 01000000 03000000 01000000
        01000000 00000000 01000000 01000000
        04000000 00000000 00000000 02000000 01000000 01000000 01000000
        02000000 01000000 01000000 03000000 02000000 00000000",
    ],
];

/// The part file of this place in `FILES`.
pub fn part_file(alloc: Global, place: usize) -> Result<Vec<u8>, AllocError> {
    let [name, head, lists] = FILES.get(place).copied().unwrap_or(["", "", ""]);
    let program = program_named(name).unwrap_or("");
    let len = u32::try_from(program.len()).unwrap_or(0);
    let mut bytes = spelled(alloc, head)?;
    bytes.extend_from_slice(&len.to_le_bytes())?;
    bytes.extend_from_slice(program.as_bytes())?;
    bytes.extend_from_slice(spelled(alloc, lists)?.as_slice())?;
    Ok(bytes)
}

/// Part files.
#[derive(Drop)]
pub struct Parts {
    first: Vec<u8>,
    second: Vec<u8>,
}

impl Parts {
    /// The files of two machines.
    pub fn new(alloc: Global) -> Result<Parts, AllocError> {
        Ok(Parts {
            first: part_file(alloc, 0)?,
            second: part_file(alloc, 1)?,
        })
    }
}

impl Kind for Parts {
    fn changed(
        &self,
        alloc: Global,
        mutator: &mut Mutator,
        number: u32,
    ) -> Result<Vec<u8>, AllocError> {
        if number % 2 == 0 {
            mutator.changed(alloc, &self.first, &self.second)
        } else {
            mutator.changed(alloc, &self.second, &self.first)
        }
    }

    fn is_accepted(&self, alloc: Global, text: &[u8], _number: u32) -> Result<bool, Otherwise> {
        let stated = judge_part(alloc, text)?;
        match read_part(alloc, text) {
            Ok(part) => is_written(alloc, part, stated, text),
            Err(fault) => is_refused(alloc, fault, stated),
        }
    }
}

/// No, where a fault is the stated one.
fn is_refused(alloc: Global, fault: PartFault, stated: Judged) -> Result<bool, Otherwise> {
    match (fault, stated) {
        (PartFault::Want, _) => Err(Otherwise::Want),
        (PartFault::Magic, Judged::Faulty(1)) => Ok(false),
        (PartFault::Length, Judged::Faulty(2)) => Ok(false),
        (PartFault::Number, Judged::Faulty(3)) => Ok(false),
        (PartFault::Text, Judged::Holds(program)) => match printed(alloc, program)? {
            Err(_) => Ok(false),
            Ok(_) => Err(Otherwise::Told("its program is accepted")),
        },
        _ => Err(Otherwise::Told("another first fault")),
    }
}

/// Whether a part is written as it was read. It is written with the program that is read of its
/// text again, and its own is printed as that one.
fn is_written(alloc: Global, part: Part, stated: Judged, text: &[u8]) -> Result<bool, Otherwise> {
    let Judged::Holds(program) = stated else {
        return Err(Otherwise::Told("a faulty file is read"));
    };
    let mut part = part;
    has_program(alloc, &part, program)?;
    let bytes = rewritten(alloc, &mut part, program)?;
    if bytes.as_slice() != text {
        return Err(Otherwise::Told("it is written otherwise"));
    }
    Ok(true)
}

/// Whether the program of a part is printed as that of a text.
fn has_program(alloc: Global, part: &Part, program: &[u8]) -> Result<(), Otherwise> {
    let own = print_program(alloc, &part.split.program.program)?;
    match printed(alloc, program)? {
        Ok(print) if print.as_str() == own.as_str() => Ok(()),
        _ => Err(Otherwise::Told("another program")),
    }
}

/// A part with the program of a text, as bytes.
fn rewritten(alloc: Global, part: &mut Part, program: &[u8]) -> Result<Vec<u8>, Otherwise> {
    part.split = shared(alloc, split_in(alloc, program)?)?;
    Ok(write_part(alloc, part, program)?)
}

/// The program that a text says, split.
fn split_in(alloc: Global, text: &[u8]) -> Result<Split, Otherwise>
    ensures { IfOk result (λ split. Says text.now split.program.program) }
{
    match read_program(alloc, text) {
        Ok(typed) => Ok(split_of(typed)),
        Err(ProgramFault::Refused(_)) => Err(Otherwise::Told("its program is refused")),
        Err(ProgramFault::Want) => Err(Otherwise::Want),
    }
}

fn shared(alloc: Global, split: Split) -> Result<Rc<Split>, Otherwise>
    ensures { IfOk result (λ shared. shared.value ≡ split) }
{
    match Rc::new(alloc, split) {
        Ok(shared) => Ok(shared),
        Err(_) => Err(Otherwise::Want),
    }
}
