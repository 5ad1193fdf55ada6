ghost use Rattle.dep_layout.specs.Laws.{AcceptedIsSpelled, ReadsBack, SpelledIsAccepted, SpelledOnce};

/// The law that each list of states has one spelling and each spelling one list, which its clauses say. It does nothing.
pub fn one_spelling()
    ensures accepted { AcceptedIsSpelled }
    ensures spelled { SpelledIsAccepted }
    ensures once { SpelledOnce }
    ensures back { ReadsBack }
{}
