// Why an event of a text can't happen, and the end of a followed text.
ghost use Rattle.std.specs.Prelude.{◌≡◌, false};
ghost use Rattle.command_steps.specs.States.{sink_state};
ghost use Rattle.command_steps.specs.Walks.{fault_after};
ghost use Rattle.machine_runs.specs.FollowWalks.{EndsListed};
ghost use Rattle.machine_runs.specs.Tellings.{by_worlds, why_of};
ghost use Rattle.symple_words.specs.declared.line.Lines.{Lines};

use crate::table::put_table;
use cluster_run::{Cluster, EventFault, Missing};
use command_steps::{Failure, Impossible};
use outside::Sink;
use symple_face::Site;
use vert_base::Event;
use vert_base::limits::MACHINES;

/// Why an event can't happen.
pub fn why_of(event: &Event, fault: EventFault) -> Impossible
    ensures { result ≡ why_of event.now fault }
{
    match (event, fault) {
        (Event::Go(machine), EventFault::NoMachine) => Impossible::NoMachine(*machine),
        (Event::Go(machine), EventFault::Waits(name)) => Impossible::Waits {
            machine: *machine,
            name,
        },
        (Event::Go(machine), EventFault::MachineOver) => Impossible::MachineOver(*machine),
        (Event::Go(_), _) => Impossible::RunOver,
        (Event::Take(_), EventFault::RunOver) => Impossible::RunOver,
        (Event::Take(name), _) => Impossible::NotUnderWay(*name),
    }
}

/// Puts the table, if nothing is missing until the end.
pub fn put_end<S: Site, O: Sink>(cluster: &Cluster<S, MACHINES>, out: &mut O) -> Result<(), Failure>
    requires on { cluster.now.ended ≡ false }
    ensures { (lines : Lines) → EndsListed (by_worlds S.work lines) cluster.now.world
        (sink_state O.held O.faults O.spare out.old)
        (sink_state O.held O.faults O.spare out.new) (fault_after result) }
{
    match cluster.missing() {
        Some(Missing::Taken(name)) => Err(Failure::NotTaken(name)),
        Some(Missing::Gone(machine)) => Err(Failure::NotGone(machine)),
        None => {
            put_table(cluster, out)?;
            Ok(())
        }
    }
}
