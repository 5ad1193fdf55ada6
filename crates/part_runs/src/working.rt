// `worker`: one machine that serves the messages of an input.
ghost use Rattle.std.specs.Prelude.{◌≡◌, ◌≤◌, IfSome, List, ℕ, true};
ghost use Rattle.command_steps.specs.Commands.{worker_order};
ghost use Rattle.command_steps.specs.Faults.{fault_of};
ghost use Rattle.command_steps.specs.Leaves.{Leaves};
ghost use Rattle.command_steps.specs.Orders.{NoTask, follows};
ghost use Rattle.command_steps.specs.States.{input_state, outside, shelf_state, sink_state};
ghost use Rattle.command_steps.specs.Walks.{fault_after};
ghost use Rattle.part_runs.specs.PartWalks.{GivesPart, IsPartRun, JudgesPart, ServesInput, failure_for};
ghost use Rattle.part_runs.specs.Serving.{part_fault, serving};
ghost use Rattle.symple_face.specs.PartViews.{plain_of};
ghost use Rattle.worker_stream.specs.Serving.{streams};
ghost use Rattle.word_kinds.specs.Fits.{literals_fit};
ghost use Rattle.worker_stream.specs.Worker.{worker};

use crate::rows::store_rows;
use command_steps::{Failure, load_file};
use instrument::Split;
use outside::{Shelf, Sink, Source};
use std::alloc::Global;
use symple_face::{Part, Site};
use vert_base::limits::GRAPH_BYTES;
use word_kinds::literals_are_words;
use worker_stream::{PartFault, ServeFault, read_part, serve};

/// Lets the machine of a part file serve the messages of an input, and stores the lines of its vertices.
pub fn work<S: Site, H: Shelf, I: Source, O: Sink>(
    alloc: Global,
    part: &str,
    rows: &str,
    shelf: &mut H,
    input: &mut I,
    out: &mut O,
) -> Result<(), Failure>
    ensures order { Leaves (IsPartRun S.work) (worker_order part.now rows.now)
        (outside (shelf_state H.files H.loads H.stores shelf.old)
        (sink_state O.held O.faults O.spare out.old) (input_state I.left I.faults input.old))
        (outside (shelf_state H.files H.loads H.stores shelf.new)
        (sink_state O.held O.faults O.spare out.new) (input_state I.left I.faults input.new))
        (fault_after result) }
    ensures later { H.loads shelf.old ≤ H.loads shelf.new }
{
    let part = load_part(alloc, shelf, part)?;
    serve_part::<S, H, I, O>(alloc, part, rows, shelf, input, out)
}

/// Loads and reads the part file of that name, whose bytes are given up.
fn load_part<H: Shelf>(alloc: Global, shelf: &mut H, name: &str) -> Result<Part, Failure>
    ensures part { GivesPart (shelf_state H.files H.loads H.stores shelf.old)
        (shelf_state H.files H.loads H.stores shelf.new) name.now result }
    ensures later { H.loads shelf.old ≤ H.loads shelf.new }
{
    let bytes = load_file(alloc, shelf, name, GRAPH_BYTES, Failure::Part(2))?;
    judged(alloc, &bytes)
}

/// The part that a file says, or its first fault.
fn judged(alloc: Global, bytes: &[u8]) -> Result<Part, Failure>
    ensures { JudgesPart bytes.now result }
{
    match read_part(alloc, bytes) {
        Ok(part) => {
            tell_literals(&part);
            Ok(part)
        }
        Err(fault) => Err(unread(fault)),
    }
}

/// Reads the literals of a part's program, which tells that they fit 64 bits.
fn tell_literals(part: &Part)
    ensures { literals_fit part.now.split.value.program.program ≡ true }
{
    let split: &Split = &part.split;
    literals_are_words(&split.program);
}

/// Why a part file is refused.
fn unread(fault: PartFault) -> Failure
    ensures { fault_of result ≡ part_fault fault }
{
    match fault {
        PartFault::Magic => Failure::Part(1),
        PartFault::Length => Failure::Part(2),
        PartFault::Number => Failure::Part(3),
        PartFault::Text => Failure::Part(4),
        PartFault::Want => Failure::Memory,
    }
}

/// Lets the machine of a part serve the messages of an input, and stores the lines of its vertices.
fn serve_part<S: Site, H: Shelf, I: Source, O: Sink>(
    alloc: Global,
    part: Part,
    rows: &str,
    shelf: &mut H,
    input: &mut I,
    out: &mut O,
) -> Result<(), Failure>
    ensures order { Leaves NoTask
        (follows (serving S.work (plain_of part) part.split.value rows.now))
        (outside (shelf_state H.files H.loads H.stores shelf.old)
        (sink_state O.held O.faults O.spare out.old) (input_state I.left I.faults input.old))
        (outside (shelf_state H.files H.loads H.stores shelf.new)
        (sink_state O.held O.faults O.spare out.new) (input_state I.left I.faults input.new))
        (fault_after result) }
    ensures loads { H.loads shelf.new ≡ H.loads shelf.old }
{
    let site = serve_input::<S, I, O>(alloc, part, input, out)?;
    store_rows(alloc, &site, rows, shelf)
}

/// Lets the machine of a part serve the messages of an input, up to its end.
fn serve_input<S: Site, I: Source, O: Sink>(
    alloc: Global,
    part: Part,
    input: &mut I,
    out: &mut O,
) -> Result<S, Failure>
    ensures { (bytes : List ℕ) × IfSome (I.left input.old) (λ left. left ≡ bytes)
        × ServesInput S.state (worker S.work (plain_of part) part.split.value bytes)
        (streams I.left I.faults O.held O.faults O.spare input.old out.old)
        (streams I.left I.faults O.held O.faults O.spare input.new out.new) result }
{
    match serve::<S, I, O>(alloc, part, input, out) {
        Ok(site) => Ok(site),
        Err(fault) => Err(unserved(fault)),
    }
}

/// Why a machine ended early.
fn unserved(fault: ServeFault) -> Failure
    ensures { result ≡ failure_for fault }
{
    match fault {
        ServeFault::Message { code, at } => Failure::Message { code, at },
        ServeFault::Ended(name) => Failure::EndsEarly(name),
        ServeFault::Source => Failure::Input,
        ServeFault::Sink => Failure::Write,
        ServeFault::Want => Failure::Memory,
    }
}
