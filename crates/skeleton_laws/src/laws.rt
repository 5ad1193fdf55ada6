ghost use Rattle.skeleton_laws.specs.Counted.{CompleteRunsAreCounted, WorkedRuns};
ghost use Rattle.skeleton_laws.specs.Laws.{EachIsTakeable, FewAreUnderWay, EachWasTaken, EachStands, RulingsStay, BeginsHaveModes, SomeEventMoves, FinishedIsEmpty, FinishedIsStill, EventsComeNearer, RunsAreBounded, FirstRunsAreBounded, ResumedRunsAreBounded, StepsReach};
ghost use Rattle.skeleton_laws.specs.Laws.{PlainEventsEnd, MissingIsUnfinished, MissingIsLeast, RisingNamesAreOne, PlainIsUnfinished, ChoicesArePossible, RunsCarryRulings};

/// The laws of the order of events, which its clauses say, of every state that possible events leave
/// from either first state. It does nothing.
pub fn event_order()
    ensures takeable { EachIsTakeable }
    ensures few { FewAreUnderWay }
    ensures taken { EachWasTaken }
    ensures stands { EachStands }
    ensures rulings { RulingsStay }
    ensures begins { BeginsHaveModes }
    ensures moves { SomeEventMoves }
    ensures ends { FinishedIsEmpty }
    ensures still { FinishedIsStill }
    ensures reach { StepsReach }
{}

/// The laws of how long a run may be, which its clauses say. It does nothing.
pub fn event_bounds()
    ensures nearer { EventsComeNearer }
    ensures bounded { RunsAreBounded }
    ensures first { FirstRunsAreBounded }
    ensures resumed { ResumedRunsAreBounded }
{}

/// The laws of choosing the next event, which its clauses say. It does nothing.
pub fn event_choices()
    ensures choices { ChoicesArePossible }
    ensures missing { MissingIsUnfinished }
    ensures least { MissingIsLeast }
    ensures rising { RisingNamesAreOne }
    ensures plain { PlainIsUnfinished }
    ensures finish { PlainEventsEnd }
    ensures runs { RunsCarryRulings }
{}

/// The counts of a complete run from the usual first state, which its clauses say. It does nothing.
pub fn event_counts()
    ensures counts { CompleteRunsAreCounted }
    ensures worked { WorkedRuns }
{}
