use vert_base::Name;

/// Why an event wasn't played.
#[derive(Clone, Copy, Debug, PartialEq, Eq)]
pub enum EventFault {
    NoMachine,
    Waits(Name),
    MachineOver,
    NotUnderWay,
    RunOver,
    /// After it the cluster plays no event.
    Want,
}

/// What an unfinished run lacks: a message that is under way, or where there is none the action of a
/// machine.
#[derive(Clone, Copy, Debug, PartialEq, Eq)]
pub enum Missing {
    Taken(Name),
    Gone(u8),
}
