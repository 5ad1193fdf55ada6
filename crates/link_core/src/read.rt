ghost use Rattle.std.specs.Prelude.{ℕ, List};
ghost use Rattle.link_core.specs.declared.event.LinkEvent.{LinkEvent};
ghost use Rattle.link_core.specs.LinkSays.{GivesLinks, IsLinksRead, SaysLinks};

use crate::event::LinkSchedule;
use crate::fault::LinkTextFault;
use crate::line::{event_at, header_at};
use std::alloc::Global;
use vert_base::limits::SCHEDULE_BYTES;

/// Reads a text of form 3.
pub fn read_links(alloc: Global, text: &[u8]) -> Result<LinkSchedule, LinkTextFault>
    ensures told { GivesLinks text.now result }

    // What a text says is read, so it says one run.
    ensures again { (machines : ℕ) (events : List LinkEvent) →
        SaysLinks text.now machines events → IsLinksRead machines events result }
{
    if text.len() as u64 > SCHEDULE_BYTES {
        return Err(LinkTextFault::TooLong);
    }
    let Some((machines, behind)) = header_at(text) else {
        return Err(LinkTextFault::Header);
    };
    let mut events = Vec::new(alloc);
    let mut number = 2u32;
    let mut rest = behind;
    'events: while !rest.is_empty() {
        let Some((event, behind)) = event_at(rest) else {
            return Err(LinkTextFault::Line(number));
        };
        events.push(event)?;
        number += 1;
        rest = behind;
    }
    Ok(LinkSchedule { machines, events })
}
