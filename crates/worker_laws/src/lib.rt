//! A core that is served alone what its machine took in a run does what the machine did there.
#![tactic(auto)]

ghost use Rattle.worker_laws.specs.Alone.{CompleteRunsAreServed};
ghost use Rattle.worker_laws.specs.Chunks.{TablesAreOfChunks};

use symple_face::Site;

/// The law that a core alone, served what a machine took in a complete run, writes what the machine sent in it and
/// holds its rows at the end, which its clause says. It does nothing.
pub fn complete_runs_are_served<S: Site>()
    ensures { S.is_core → CompleteRunsAreServed S.work }
{}

/// The law that the table of a run is that of its chunks, one behind another, which its clause says. It does nothing.
pub fn tables_are_of_chunks()
    ensures { TablesAreOfChunks }
{}
