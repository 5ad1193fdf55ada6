ghost use Rattle.std.specs.Prelude.{◌≡◌, ◌⊎◌, ℕ, List, length};
ghost use Rattle.vert_base.specs.declared.message.Event.{Event};
ghost use Rattle.delivery_log.specs.Says.{Gives, Says};
ghost use Rattle.delivery_log.specs.ScheduleTexts.{event_lines, round_after};

use crate::fault::ScheduleFault;
use crate::form::{Form, Schedule};
use crate::line::{event_at, header_at};
use std::alloc::Global;
use vert_base::Event;
use vert_base::limits::SCHEDULE_BYTES;

/// Reads a text of form 1 or 2.
pub fn read_schedule(alloc: Global, text: &[u8]) -> Result<Schedule, ScheduleFault>
    ensures { Gives text.now result }
{
    if text.len() as u64 > SCHEDULE_BYTES {
        return Err(ScheduleFault::TooLong);
    }
    let Some((form, machines, behind)) = header_at(text) else {
        return Err(ScheduleFault::Header);
    };
    let mut events = Vec::new(alloc);
    let mut held = 0u32;
    let mut number = 2u32;
    let mut rest = behind;
    'events: while !rest.is_empty() {
        let Some((event, lines, behind)) = event_at(form, held, rest) else {
            return Err(ScheduleFault::Line(number));
        };
        events.push(event)?;
        held = round_after(held, event);
        number += lines;
        rest = behind;
    }
    Ok(Schedule { machines, events })
}

/// The form of a text that says machines and events.
pub fn form_of(text: &[u8]) -> Form
    ensures { (machines : ℕ) (events : List Event) (says : Says text.now machines events) →
        result ≡ says.form }
{
    match header_at(text) {
        Some((form, _, _)) => form,
        None => Form::Whole,
    }
}

/// How many lines tell an event where a round is held.
pub fn lines_of(form: Form, held: u32, event: &Event) -> u32
    ensures count { result ≡ length (event_lines form held event.now) }
    ensures few { (result ≡ 1) ⊎ (result ≡ 2) }
{
    match (form, event) {
        (Form::Roundless, Event::Take(name)) if name.round != held => 2,
        _ => 1,
    }
}

/// The round that is held behind an event.
pub fn round_after(held: u32, event: Event) -> u32
    ensures { result ≡ round_after held event }
{
    match event {
        Event::Go(_) => held,
        Event::Take(name) => name.round,
    }
}
