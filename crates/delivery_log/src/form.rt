ghost use Rattle.std.specs.Prelude.{◌≡◌};
ghost use Rattle.delivery_log.specs.ScheduleTexts.{header_text, most_machines};

use vert_base::Event;

/// How a text names the messages taken: whole, as form 1 does, or without the round, as form 2 does
/// with a line of its own where the round changes.
#[derive(Clone, Copy, Debug, PartialEq, Eq)]
pub enum Form {
    Whole,
    Roundless,
}

impl Form {
    // The first line up to the number of machines.
    pub(crate) fn header(self) -> &'static [u8]
        ensures { result.now ≡ header_text self }
    {
        match self {
            Form::Whole => b"schedule 1 machines ",
            Form::Roundless => b"schedule 2 machines ",
        }
    }

    // The most machines of a text.
    pub(crate) fn most(self) -> u32
        ensures { result ≡ most_machines self }
    {
        match self {
            Form::Whole => 16,
            Form::Roundless => 64,
        }
    }
}

/// The machines of a run, and its events in order.
#[derive(Debug, Drop)]
pub struct Schedule {
    pub machines: u8,
    pub events: Vec<Event>,
}
