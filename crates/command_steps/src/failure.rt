ghost use Rattle.std.specs.Prelude.{◌≡◌};
ghost use Rattle.command_steps.specs.declared.failure.Failure.TheVariants.{Memory, Write};
ghost use Rattle.command_steps.specs.Faults.{failure_for, fault_of};
ghost use Rattle.command_steps.specs.Notes.{status_of};

use crate::impossible::Impossible;
use crate::status::Status;
use outside::SinkFault;
use program_reader::Refusal;
use std::alloc::AllocError;
use symple_words::WordFault;
use vert_base::{Name, Want};

/// Why a command didn't end well.
#[derive(Drop)]
pub enum Failure {
    Command,
    Words,
    /// The file of this name could not be loaded.
    Load(String),
    Program(Refusal),
    GraphLine { code: u8, line: u32 },
    GraphByte { code: u8, at: u64 },
    /// The first line of a schedule.
    ScheduleHeader,
    /// A later line of a schedule, by its number from 1.
    ScheduleLine(u32),
    LongSchedule,
    /// The event of this line of a schedule can't happen.
    Event { line: u32, why: Impossible },
    /// This message is under way after the last event of a schedule.
    NotTaken(Name),
    /// This machine is ready after the last event of a schedule.
    NotGone(u8),
    Part(u8),
    /// The message at this byte of the input.
    Message { code: u8, at: u64 },
    /// The input ends where this message is waited for.
    EndsEarly(Name),
    Input,
    Write,
    Memory,
}

impl From<SinkFault> for Failure {
    ghost from_gives = { λ _ failure. failure ≡ Write };

    fn from(_fault: SinkFault) -> Failure {
        Failure::Write
    }
}

impl From<Want> for Failure {
    ghost from_gives = { λ _ failure. failure ≡ Memory };

    fn from(_want: Want) -> Failure {
        Failure::Memory
    }
}

impl From<AllocError> for Failure {
    ghost from_gives = { λ _ failure. failure ≡ Memory };

    fn from(_error: AllocError) -> Failure {
        Failure::Memory
    }
}

impl From<WordFault> for Failure {
    ghost from_gives = { λ fault failure. failure ≡ failure_for fault };

    fn from(fault: WordFault) -> Failure {
        match fault {
            WordFault::Command => Failure::Command,
            WordFault::Words => Failure::Words,
            WordFault::Want => Failure::Memory,
        }
    }
}

impl Failure {
    /// The status with which the command ends.
    pub fn status(&self) -> Status
        ensures { result ≡ status_of (fault_of self.now) }
    {
        match self {
            Failure::Command | Failure::Words => Status::Usage,
            Failure::Load(_) | Failure::Input => Status::ReadFault,
            Failure::Program(_) => Status::BadProgram,
            Failure::GraphLine { .. } | Failure::GraphByte { .. } | Failure::Part(_) => {
                Status::BadGraph
            }
            Failure::ScheduleHeader
            | Failure::ScheduleLine(_)
            | Failure::LongSchedule
            | Failure::Event { .. }
            | Failure::NotTaken(_)
            | Failure::NotGone(_) => Status::BadSchedule,
            Failure::Message { .. } | Failure::EndsEarly(_) => Status::BadMessage,
            Failure::Write => Status::WriteFault,
            Failure::Memory => Status::Memory,
        }
    }
}
