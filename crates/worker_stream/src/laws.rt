ghost use Rattle.worker_stream.specs.Laws.{FormsAreShort, MoreStepsChangeNothing};
ghost use Rattle.worker_stream.specs.Prompt.{PlainRunsArePrompt, PromptRunsAreServed};

use symple_face::Site;

/// The law that a header can tell the length of each body of a machine's messages, which its clause says. It does
/// nothing.
pub fn forms_are_short()
    ensures { FormsAreShort }
{}

/// The law that what a machine does with a stream ends by itself, which its clause says. It does nothing.
pub fn steps_are_enough<S: Site>()
    ensures { MoreStepsChangeNothing S.work }
{}

/// The law that a machine alone does what it did in a complete run, where it acted before it took, and that in the
/// plain run each machine does so, which its clauses say. It does nothing.
pub fn prompt_runs_are_served<S: Site>()
    ensures served { PromptRunsAreServed S.work }
    ensures plain { PlainRunsArePrompt S.work }
{}
