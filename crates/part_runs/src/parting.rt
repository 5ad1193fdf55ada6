// `split`: the part file of each machine of a graph.
ghost use Rattle.std.specs.Prelude.{◌≡◌, ◌≤◌, map};
ghost use Rattle.std.specs.List.{All};
ghost use Rattle.command_steps.specs.Commands.{part_name, split_order};
ghost use Rattle.command_steps.specs.FileWalks.{StoresFile};
ghost use Rattle.command_steps.specs.Leaves.{Leaves};
ghost use Rattle.command_steps.specs.Orders.{NoTask, follows};
ghost use Rattle.command_steps.specs.States.{Held, Left, outside, shelf_state};
ghost use Rattle.command_steps.specs.Walks.{fault_after};
ghost use Rattle.part_runs.specs.PartWalks.{IsPartRun};
ghost use Rattle.part_runs.specs.Parting.{parted};
ghost use Rattle.program_reader.specs.Accepted.{Says};
ghost use Rattle.symple_face.specs.PartViews.{plain_of};
ghost use Rattle.symple_face.specs.Work.{Work};
ghost use Rattle.symple_words.specs.Ranges.{AreMachines, IsGraphForm};
ghost use Rattle.worker_stream.specs.PartFiles.{spelled_part};

use command_steps::{Failure, Sources, load_sources, numbered_name, store_file};
use instrument::split_of;
use machine_runs::parts_from;
use outside::Shelf;
use std::alloc::Global;
use symple_face::Part;
use symple_words::GraphForm;
use worker_stream::write_part;

/// Cuts the graph for so many machines, and stores the part of each with the program's text. Of the files one at a
/// time is in memory.
pub fn split<H: Shelf>(
    alloc: Global,
    program: &str,
    graph: &str,
    prefix: &str,
    form: &GraphForm,
    machines: u8,
    draws: u64,
    shelf: &mut H,
) -> Result<(), Failure>
    requires form { IsGraphForm form.now }
    requires few { AreMachines machines }
    ensures order { (work : Work) (out : Held) (input : Left) → Leaves (IsPartRun work)
        (split_order program.now graph.now prefix.now form.now machines draws)
        (outside (shelf_state H.files H.loads H.stores shelf.old) out input)
        (outside (shelf_state H.files H.loads H.stores shelf.new) out input)
        (fault_after result) }
    ensures later { H.loads shelf.old ≤ H.loads shelf.new }
{
    let Sources {
        program: text,
        graph: _,
        typed,
        edges,
    } = load_sources(alloc, shelf, program, form, graph)?;
    let parts = parts_from(alloc, split_of(typed), edges, machines, draws)?;
    store_parts(alloc, &parts, &text, prefix, shelf)
}

/// Stores the part file of each part, one after another.
fn store_parts<H: Shelf>(
    alloc: Global,
    parts: &[Part],
    program: &[u8],
    prefix: &str,
    shelf: &mut H,
) -> Result<(), Failure>
    requires { All (λ part. Says program.now part.split.value.program.program) parts.now }
    ensures order { (out : Held) (input : Left) →
        Leaves NoTask (follows (parted prefix.now program.now (map plain_of parts.now)))
        (outside (shelf_state H.files H.loads H.stores shelf.old) out input)
        (outside (shelf_state H.files H.loads H.stores shelf.new) out input)
        (fault_after result) }
    ensures loads { H.loads shelf.new ≡ H.loads shelf.old }
{
    'parts: for part in parts {
        store_part(alloc, part, program, prefix, shelf)?;
    }
    Ok(())
}

/// Stores the part file of a part under the number of its machine.
fn store_part<H: Shelf>(
    alloc: Global,
    part: &Part,
    program: &[u8],
    prefix: &str,
    shelf: &mut H,
) -> Result<(), Failure>
    requires { Says program.now part.now.split.value.program.program }
    ensures stored { StoresFile (part_name prefix.now (plain_of part.now).at.machine)
        (spelled_part (plain_of part.now) program.now)
        (shelf_state H.files H.loads H.stores shelf.old)
        (shelf_state H.files H.loads H.stores shelf.new) result }
    ensures loads { H.loads shelf.new ≡ H.loads shelf.old }
{
    let name = numbered_name(alloc, prefix, part.at.number())?;
    let bytes = write_part(alloc, part, program)?;
    store_file(shelf, &name, &bytes)
}
