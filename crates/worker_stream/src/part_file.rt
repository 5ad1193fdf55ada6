// Part files as parts.
ghost use Rattle.std.specs.Prelude.{◌≡◌, ◌*◌, ℕ, List, IfOk, length};
ghost use Rattle.symple_face.specs.Parts.{PlainPart};
ghost use Rattle.worker_stream.specs.Answers.{FindsProgram, ReadsPart, ReadsSections};
ghost use Rattle.worker_stream.specs.Back.{IsReadBack, IsWritable};
ghost use Rattle.worker_stream.specs.Numbers.{plain_sections};
ghost use Rattle.worker_stream.specs.PartFiles.{spelled_part};
ghost use Rattle.worker_stream.specs.Sections.{end_count};

use crate::fault::PartFault;
use crate::part_numbers::{Frame, Numbers, numbers_of};
use crate::sections::{MAGIC, Sections, cut};
use instrument::{Split, split_of};
use mirror_table::Mirrors;
use program_reader::{ProgramFault, read_program};
use std::alloc::{AllocError, Global};
use std::rc::Rc;
use symple_face::Part;

// The program that a text says.
fn split_in(alloc: Global, text: &[u8]) -> Result<Split, PartFault>
    ensures { FindsProgram text.now result }
{
    match read_program(alloc, text) {
        Ok(typed) => Ok(split_of(typed)),
        Err(ProgramFault::Refused(_)) => Err(PartFault::Text),
        Err(ProgramFault::Want) => Err(PartFault::Want),
    }
}

fn shared(alloc: Global, split: Split) -> Result<Rc<Split>, AllocError>
    ensures { IfOk result (λ shared. shared.value ≡ split) }
{
    match Rc::new(alloc, split) {
        Ok(shared) => Ok(shared),
        Err(_) => Err(AllocError),
    }
}

// The part that the sections of a file say.
fn part_of(alloc: Global, sections: &Sections) -> Result<Part, PartFault>
    requires head { length sections.now.head.now ≡ 22 }
    requires ends { length sections.now.ends.now ≡ 4 * end_count sections.now.head.now }
    ensures { ReadsSections (plain_sections sections.now) result }
{
    let numbers = numbers_of(alloc, sections)?;
    let split = split_in(alloc, sections.program)?;
    let split = shared(alloc, split)?;
    let Numbers {
        frame,
        scan,
        push,
        onward,
        inward,
        degrees,
    } = numbers;
    let Frame {
        at,
        cuts,
        edges,
        draws,
    } = frame;
    let Mirrors {
        refresh: refresh_of,
        push: push_to,
    } = onward;
    let Mirrors {
        refresh: refresh_to,
        push: push_of,
    } = inward;
    Ok(Part {
        at,
        cuts,
        edges,
        draws,
        split,
        scan,
        push,
        degrees,
        refresh_to,
        refresh_of,
        push_to,
        push_of,
    })
}

/// The part that a part file says, or its first fault: K1 is `Magic`, K2 `Length`, K3 `Number`, K4 `Text`.
pub fn read_part(alloc: Global, bytes: &[u8]) -> Result<Part, PartFault>
    ensures answer { ReadsPart bytes.now result }

    // A part read is the part written.
    ensures back { (part : PlainPart) (program : List ℕ) → IsWritable part program →
        bytes.now ≡ spelled_part part program → IsReadBack part program result }
{
    if !bytes.starts_with(&MAGIC) {
        return Err(PartFault::Magic);
    }
    match cut(bytes) {
        Some(sections) => part_of(alloc, &sections),
        None => Err(PartFault::Length),
    }
}
