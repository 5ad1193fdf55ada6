ghost use Rattle.schedule_laws.specs.CountedRuns.{CompleteRunsAreCounted};
ghost use Rattle.schedule_laws.specs.Laws.{EveryLaterLog, EveryLaterSchedule, EveryLaterWorldIsTrue};
ghost use Rattle.schedule_laws.specs.Laws.{EveryLog, EveryRoundIsTold, EverySchedule, EveryTableIsTold, EveryWorldIsTrue};
ghost use Rattle.schedule_laws.specs.Starts.{EveryRestIsPrinted, EveryStartIsTold};

use symple_face::Site;

/// The law that whatever events are possible in turn, in whatever order, each machine holds what the source's run says
/// and each message under way has its ideal body, from either first world. It does nothing.
pub fn worlds_are_true()
    ensures whole { EveryWorldIsTrue }
    ensures later { EveryLaterWorldIsTrue }
{}

/// The law that a complete run prints the rounds and the table of the source's run, whatever its schedule is, and
/// under `--log` the ideal bodies of the messages taken; and that the machines report these rounds and
/// hold this table. It does nothing.
pub fn every_schedule()
    ensures whole { EverySchedule }
    ensures log { EveryLog }
    ensures rounds { EveryRoundIsTold }
    ensures table { EveryTableIsTold }
{}

/// The same law of a run that goes on from a start. It does nothing.
pub fn every_later_schedule()
    ensures whole { EveryLaterSchedule }
    ensures log { EveryLaterLog }
{}

/// The law that behind the judge of a round the machines tell what stands before the next one in the source's run, and
/// that a run that goes on from there prints the rest of what the whole run prints. It does nothing.
pub fn starts_are_told()
    ensures told { EveryStartIsTold }
    ensures rest { EveryRestIsPrinted }
{}

/// The law of how many events a complete run by machines of any kind has, by the rulings that its judges make. It does
/// nothing.
pub fn runs_are_counted<S: Site>()
    ensures { CompleteRunsAreCounted S.work }
{}
