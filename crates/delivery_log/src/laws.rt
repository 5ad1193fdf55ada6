ghost use Rattle.delivery_log.specs.Choosers.{DrawnEventsAreOne, DrawnEventsEnd, DrawnRunsAreComplete, PlainRunsAreComplete};
ghost use Rattle.delivery_log.specs.Laws.{HasOneFault, HasOneText, HasText, ReadsBack, RecordIsRead, StandsForOne};

use cluster_run::{choices_are_in_order, worlds_are_in_order};
use symple_face::Site;

/// A text stands for one pair of machines and events, and a pair has one text of each form that
/// it has at all, and one that says none has one fault. What is read of it is the pair again, also where a recorder wrote it.
pub fn schedules_read_back()
    ensures pair { StandsForOne }
    ensures text { HasText }
    ensures alone { HasOneText }
    ensures read { ReadsBack }
    ensures recorded { RecordIsRead }
    ensures fault { HasOneFault }
{}

/// From each world of a run the drawn events lead to the end, as the plain ones do, and they are
/// one list. Each of these is possible in its turn. It does nothing.
pub fn chosen_runs_are_complete<S: Site>()
    ensures ends { DrawnEventsEnd S.work S.sound }
    ensures one { DrawnEventsAreOne S.work }
    ensures drawn { DrawnRunsAreComplete S.work S.sound }
    ensures plain { PlainRunsAreComplete S.work S.sound }
{
    worlds_are_in_order::<S>();
    choices_are_in_order::<S>();
}
