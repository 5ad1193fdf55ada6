use vert_base::Name;

/// Why an event of a schedule can't happen. The last two are of links that lose and repeat.
#[derive(Clone, Copy, Debug, PartialEq, Eq)]
pub enum Impossible {
    NoMachine(u8),
    /// The machine has not taken a message that it needs.
    Waits { machine: u8, name: Name },
    MachineOver(u8),
    NotUnderWay(Name),
    RunOver,
    /// The message was not sent, is known to be taken, or is on its way too often.
    NotAgain(Name),
    NoAck(Name),
}
