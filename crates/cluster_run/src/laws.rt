ghost use Rattle.cluster_run.specs.Laws.{ChoicesArePossible, MissingIsLeast, PlainEventsEnd, UnfinishedGoesOn};
ghost use Rattle.cluster_run.specs.Laws.{EachCanBeSent, EachCanBeTaken, EventsComeNearer, FinishedIsStill, SomeEventMoves, StepsReach};

use symple_face::Site;

/// The laws of a run by machines of a kind, which its clauses say, of every world that possible events
/// leave from either first world. It does nothing.
pub fn worlds_are_in_order<S: Site>()
    ensures taken { EachCanBeTaken S.work S.sound }
    ensures sent { EachCanBeSent S.work S.sound }
    ensures reach { StepsReach S.work S.sound }
    ensures nearer { EventsComeNearer S.work S.sound }
    ensures moves { SomeEventMoves S.work S.sound }
    ensures still { FinishedIsStill S.work S.sound }
{}

/// The laws of choosing the next event, which its clauses say, of the same worlds. It does nothing.
pub fn choices_are_in_order<S: Site>()
    ensures choices { ChoicesArePossible S.work S.sound }
    ensures missing { MissingIsLeast S.work S.sound }
    ensures unfinished { UnfinishedGoesOn S.work S.sound }
    ensures plain { PlainEventsEnd S.work S.sound }
{}
