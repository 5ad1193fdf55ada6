ghost use Rattle.command_steps.specs.States.{sink_state};
ghost use Rattle.command_steps.specs.Walks.{Flushes};

use outside::{Sink, SinkFault};

/// Has a sink hand on what it holds back, by an empty piece.
pub fn flush<O: Sink>(out: &mut O) -> Result<(), SinkFault>
    ensures { Flushes (sink_state O.held O.faults O.spare out.old)
        (sink_state O.held O.faults O.spare out.new) result }
{
    match out.put(b"") {
        Ok(_) => Ok(()),
        Err(fault) => Err(fault),
    }
}
