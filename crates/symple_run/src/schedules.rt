// The text of a schedule, which is loaded and judged.
ghost use Rattle.std.specs.Prelude.{◌≤◌};
ghost use Rattle.command_steps.specs.FileWalks.{GivesBytes};
ghost use Rattle.command_steps.specs.Notes.{LongSchedule};
ghost use Rattle.command_steps.specs.States.{shelf_state};
ghost use Rattle.symple_run.specs.FileWalks.{Reads, ReadsLinks, TellsEvents};
ghost use Rattle.vert_base.specs.declared.limits.TheConstants.{SCHEDULE_BYTES};

use command_steps::{Failure, load_file};
use delivery_log::{Schedule, ScheduleFault, read_schedule};
use link_core::{LinkSchedule, LinkTextFault, read_links};
use outside::Shelf;
use std::alloc::Global;
use vert_base::limits::SCHEDULE_BYTES;

/// Loads the text of that name.
pub(crate) fn load_schedule<H: Shelf>(
    alloc: Global,
    shelf: &mut H,
    name: &str,
) -> Result<Vec<u8>, Failure>
    ensures bytes { GivesBytes (shelf_state H.files H.loads H.stores shelf.old)
        (shelf_state H.files H.loads H.stores shelf.new) name.now SCHEDULE_BYTES LongSchedule
        result }
    ensures later { H.loads shelf.old ≤ H.loads shelf.new }
{
    load_file(alloc, shelf, name, SCHEDULE_BYTES, Failure::LongSchedule)
}

/// The machines and the events that a text of form 1 or 2 says, or its fault.
pub(crate) fn judged(alloc: Global, text: &[u8]) -> Result<Schedule, Failure>
    ensures { Reads text.now result }
{
    match told_events(alloc, text) {
        Ok(Some(schedule)) => Ok(schedule),
        Ok(None) => Err(Failure::ScheduleHeader),
        Err(failure) => Err(failure),
    }
}

/// The same of a text that may be of another form: none where it has no first line of forms 1 and 2.
pub(crate) fn told_events(alloc: Global, text: &[u8]) -> Result<Option<Schedule>, Failure>
    ensures { TellsEvents text.now result }
{
    match read_schedule(alloc, text) {
        Ok(schedule) => Ok(Some(schedule)),
        Err(ScheduleFault::Header) => Ok(None),
        Err(ScheduleFault::Line(line)) => Err(Failure::ScheduleLine(line)),
        Err(ScheduleFault::TooLong) => Err(Failure::LongSchedule),
        Err(ScheduleFault::Want) => Err(Failure::Memory),
    }
}

/// The machines and the events that a text of form 3 says, or its fault.
pub(crate) fn judged_links(alloc: Global, text: &[u8]) -> Result<LinkSchedule, Failure>
    ensures { ReadsLinks text.now result }
{
    match read_links(alloc, text) {
        Ok(schedule) => Ok(schedule),
        Err(LinkTextFault::Header) => Err(Failure::ScheduleHeader),
        Err(LinkTextFault::Line(line)) => Err(Failure::ScheduleLine(line)),
        Err(LinkTextFault::TooLong) => Err(Failure::LongSchedule),
        Err(LinkTextFault::Want) => Err(Failure::Memory),
    }
}
