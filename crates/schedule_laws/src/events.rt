ghost use Rattle.schedule_laws.specs.Events.{GoesOn, TakesOn};
ghost use Rattle.schedule_laws.specs.Firsts.{FirstIsTrue, RestartedIsTrue};
ghost use Rattle.schedule_laws.specs.Runs.{FreshIsARun, ResumedIsARun};

/// The law that the parts of a graph and a program have a run of the source. It does nothing.
pub fn runs_of_parts()
    ensures fresh { FreshIsARun }
    ensures resumed { ResumedIsARun }
{}

/// The law that a machine that acts, or takes an ideal message in its turn, still holds what the source's run says,
/// and that what it sends is ideal. It does nothing.
pub fn events_go_on()
    ensures go { GoesOn }
    ensures take { TakesOn }
{}

/// The law that the first states of machines are what the source's run says. It does nothing.
pub fn first_states_are_true()
    ensures first { FirstIsTrue }
    ensures restarted { RestartedIsTrue }
{}
