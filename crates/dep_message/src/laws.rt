ghost use Rattle.dep_message.specs.Laws.{AcceptedIsSpelled, FitIsBounded, HeaderIsRead, SpelledIsAccepted, SpelledOnce, SpellingIsCounted};

/// The law that each message has one spelling and each spelling one message, which its clauses say. It does nothing.
pub fn one_spelling()
    ensures accepted { AcceptedIsSpelled }
    ensures once { SpelledOnce }
    ensures back { SpelledIsAccepted }
    ensures header { HeaderIsRead }
    ensures length { SpellingIsCounted }
{}

/// The law that no body that fits a form is longer than the longest of the form. It does nothing.
pub fn bounded_bodies()
    ensures { FitIsBounded }
{}
