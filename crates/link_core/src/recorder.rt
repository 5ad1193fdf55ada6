ghost use Rattle.std.specs.Prelude.{◌≡◌, ◌≤◌, ◌<◌, ◌++◌, [], ◌∷◌, ℕ, List, Err, IfOk, OnErr, OnOk, length};
ghost use Rattle.vert_base.specs.declared.limits.TheConstants.{SCHEDULE_BYTES};
ghost use Rattle.link_core.specs.declared.event.LinkEvent.{LinkEvent};
ghost use Rattle.link_core.specs.declared.fault.LinkRecordFault.TheVariants.{TooLong};
ghost use Rattle.link_core.specs.LinkRecords.{RecordsLinks};
ghost use Rattle.link_core.specs.LinkTexts.{header_line, links_text};

use crate::event::LinkEvent;
use crate::fault::LinkRecordFault;
use crate::spelling::{push_event, push_number};
use std::alloc::{AllocError, Global};
use std::marker::Model;
use vert_base::Want;
use vert_base::limits::SCHEDULE_BYTES;

/// The text of form 3 of a run over links, written event by event.
#[derive(Drop)]
pub struct LinkRecorder {
    text: Vec<u8>,
    // The line of the last event.
    line: Vec<u8>,
}

impl Model for LinkRecorder {
    ghost use Rattle.std.specs.Prelude.{ℕ, List};

    ghost Value = { List ℕ };

    ghost view = { λ r. r.text.items };
}

impl LinkRecorder {
    /// The text of the machines alone.
    pub fn new(alloc: Global, machines: u8) -> Result<LinkRecorder, Want>
        requires { (1 ≤ machines) × (machines ≤ 64) }
        ensures { IfOk result (λ recorder. RecordsLinks recorder machines []) }
    {
        let mut text = Vec::new(alloc);
        push_header(&mut text, machines)?;
        Ok(LinkRecorder {
            text,
            line: Vec::new(alloc),
        })
    }

    /// Adds an event, where the text stays within its limit.
    pub fn add(&mut self, event: &LinkEvent) -> Result<(), LinkRecordFault>
        ensures added { (machines : ℕ) (events : List LinkEvent) →
            RecordsLinks self.old machines events →
            OnOk result (RecordsLinks self.new machines (events ++ event.now ∷ [])) }
        ensures long { (machines : ℕ) (events : List LinkEvent) →
            RecordsLinks self.old machines events → result ≡ Err TooLong →
            SCHEDULE_BYTES < length (links_text machines (events ++ event.now ∷ [])) }
        ensures kept { OnErr result (self.new ≡ self.old) }
    {
        self.line.clear();
        push_event(&mut self.line, event)?;
        append(&mut self.text, self.line.as_slice())
    }

    /// The text of the machines and of the events added.
    pub fn text(&self) -> &[u8]
        ensures { result.now ≡ self.now }
    {
        self.text.as_slice()
    }
}

fn push_header(text: &mut Vec<u8>, machines: u8) -> Result<(), AllocError>
    ensures { OnOk result (text.new.items ≡ text.old.items ++ header_line machines) }
{
    text.extend_from_slice(b"schedule 3 machines ")?;
    push_number(text, u32::from(machines))?;
    text.extend_from_slice(b"\n")?;
    Ok(())
}

// Writes a line at the end of a text, where it stays within its limit.
fn append(text: &mut Vec<u8>, line: &[u8]) -> Result<(), LinkRecordFault>
    ensures added { OnOk result (text.new.items ≡ text.old.items ++ line.now) }
    ensures fits { OnOk result (length text.new.items ≤ SCHEDULE_BYTES) }
    ensures long { result ≡ Err TooLong → SCHEDULE_BYTES < length (text.old.items ++ line.now) }
    ensures kept { OnErr result (text.new.items ≡ text.old.items) }
{
    if text.len() as u64 + line.len() as u64 > SCHEDULE_BYTES {
        return Err(LinkRecordFault::TooLong);
    }
    text.extend_from_slice(line)?;
    Ok(())
}
