ghost use Rattle.std.specs.Prelude.{◌≡◌};
ghost use Rattle.command_steps.specs.Notes.{status_number};

/// How a command ended. The process ends with its number, from 0.
#[derive(Clone, Copy, Debug, PartialEq, Eq)]
pub enum Status {
    Done,
    Usage,
    ReadFault,
    BadProgram,
    BadGraph,
    BadSchedule,
    WriteFault,
    Memory,
    BadMessage,
}

impl Status {
    /// The number with which the process ends.
    pub fn number(self) -> u8
        ensures { result ≡ status_number self }
    {
        match self {
            Status::Done => 0,
            Status::Usage => 1,
            Status::ReadFault => 2,
            Status::BadProgram => 3,
            Status::BadGraph => 4,
            Status::BadSchedule => 5,
            Status::WriteFault => 6,
            Status::Memory => 7,
            Status::BadMessage => 8,
        }
    }
}
