ghost use Rattle.circulant_plan.specs.Counts.{RoundsAreCounted, RoundsLeadOn};
ghost use Rattle.circulant_plan.specs.Deliveries.{NeededIsSent, SentIsNeeded, ActionsLeadOn};
ghost use Rattle.circulant_plan.specs.Laws.{EachRingTurns, TurnsAtItsEnd, ReadsInTurn, ReadsByParts, ReadsEarlyOnes};

/// The laws of the order in which the machines of a chunk read, which its clauses say. It does
/// nothing.
pub fn ring_order()
    ensures circle { EachRingTurns }
    ensures turn { TurnsAtItsEnd }
    ensures whole { ReadsInTurn }
    ensures parts { ReadsByParts }
    ensures early { ReadsEarlyOnes }
{}

/// The laws of the table of actions, which its clauses say: each message goes from one spot to a
/// later one of another machine. It does nothing.
pub fn actions()
    ensures needed { NeededIsSent }
    ensures sent { SentIsNeeded }
    ensures on { ActionsLeadOn }
    ensures rounds { RoundsLeadOn }
    ensures counts { RoundsAreCounted }
{}
