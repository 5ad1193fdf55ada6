ghost use Rattle.part_runs.specs.CoreServing.{CompleteRunsAreServed};
ghost use Rattle.worker_laws.specs.Chunks.{TablesAreOfChunks};

use symple_face::Site;

/// The law that `worker` at a core, over the part file of a machine and an input that begins with what the machine took
/// in a complete run, puts what the machine sent there and keeps its part of the run's table, and that the parts of all
/// machines are the table, which its clauses say. It does nothing.
pub fn core_runs_are_served<S: Site>()
    ensures served { S.is_core → CompleteRunsAreServed S.work }
    ensures tables { TablesAreOfChunks }
{}
