ghost use Rattle.std.specs.Prelude.{◌≡◌, ◌≤◌, ◌<◌, ◌+◌, ◌++◌, [], ◌∷◌, ℕ, List, Err, IfOk, OnErr, OnOk, length};
ghost use Rattle.vert_base.specs.declared.message.Event.{Event};
ghost use Rattle.delivery_log.specs.declared.fault.RecordFault.TheVariants.{TooLong};
ghost use Rattle.delivery_log.specs.declared.form.Form.TheVariants.{Roundless};
ghost use Rattle.delivery_log.specs.Records.{Records};
ghost use Rattle.delivery_log.specs.ScheduleTexts.{schedule_text};

use crate::fault::RecordFault;
use crate::form::Form;
use crate::read::round_after;
use crate::spelling::{push_event, push_line};
use std::alloc::Global;
use std::marker::Model;
use vert_base::limits::SCHEDULE_BYTES;
use vert_base::{Event, Want};

/// The text of form 2 of a run, written event by event.
#[derive(Drop)]
pub struct Recorder {
    text: Vec<u8>,
    // The lines of the last event.
    lines: Vec<u8>,
    held: u32,
}

impl Model for Recorder {
    ghost use Rattle.delivery_log.specs.Records.{Recording};

    ghost Value = { Recording };

    ghost view = { λ r. record { text = r.text.items; held = r.held } };
}

impl Recorder {
    /// The text of the machines alone.
    pub fn new(alloc: Global, machines: u8) -> Result<Recorder, Want>
        requires { (1 ≤ machines) × (machines ≤ 64) }
        ensures { IfOk result (λ recorder. Records recorder machines []) }
    {
        let mut text = Vec::new(alloc);
        push_line(&mut text, Form::Roundless.header(), u32::from(machines))?;
        Ok(Recorder {
            text,
            lines: Vec::new(alloc),
            held: 0,
        })
    }

    /// Adds an event, where the text stays within its limit.
    pub fn add(&mut self, event: &Event) -> Result<(), RecordFault>
        ensures added { (machines : ℕ) (events : List Event) → Records self.old machines events →
            OnOk result (Records self.new machines (events ++ event.now ∷ [])) }
        ensures long { (machines : ℕ) (events : List Event) → Records self.old machines events →
            result ≡ Err TooLong → SCHEDULE_BYTES
            < length (schedule_text Roundless machines (events ++ event.now ∷ [])) }
        ensures kept { OnErr result (self.new ≡ self.old) }
    {
        self.lines.clear();
        push_event(&mut self.lines, self.held, event)?;
        append(&mut self.text, self.lines.as_slice())?;
        self.held = round_after(self.held, *event);
        Ok(())
    }

    /// The text of the machines and of the events added.
    pub fn text(&self) -> &[u8]
        ensures { result.now ≡ self.now.text }
    {
        self.text.as_slice()
    }
}

// Writes lines at the end of a text, where it stays within its limit.
fn append(text: &mut Vec<u8>, lines: &[u8]) -> Result<(), RecordFault>
    ensures added { OnOk result (text.new.items ≡ text.old.items ++ lines.now) }
    ensures fits { OnOk result (length text.new.items ≤ SCHEDULE_BYTES) }
    ensures long { result ≡ Err TooLong → SCHEDULE_BYTES
        < length (text.old.items ++ lines.now) }
    ensures kept { OnErr result (text.new.items ≡ text.old.items) }
{
    if text.len() as u64 + lines.len() as u64 > SCHEDULE_BYTES {
        return Err(RecordFault::TooLong);
    }
    text.extend_from_slice(lines)?;
    Ok(())
}
