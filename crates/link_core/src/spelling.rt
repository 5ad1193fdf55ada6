ghost use Rattle.std.specs.Prelude.{◌≡◌, [], ◌∷◌, ◌++◌, OnOk, decimal};
ghost use Rattle.vert_base.specs.NameTexts.{name_text};
ghost use Rattle.link_core.specs.LinkTexts.{event_line, event_text, word_text};

use crate::event::LinkEvent;
use delivery_log::push_behind;
use itoa::Buffer;
use std::alloc::AllocError;
use vert_base::Name;

/// Writes the line of an event at the end of bytes.
pub(crate) fn push_event(bytes: &mut Vec<u8>, event: &LinkEvent) -> Result<(), AllocError>
    ensures { OnOk result (bytes.new.items ≡ bytes.old.items ++ event_line event.now) }
{
    bytes.extend_from_slice(word_of(event))?;
    match event {
        LinkEvent::Go(machine) => push_number(bytes, u32::from(*machine))?,
        LinkEvent::Take(name)
        | LinkEvent::Lose(name)
        | LinkEvent::Again(name)
        | LinkEvent::Ack(name)
        | LinkEvent::Drop(name) => push_name(bytes, name)?,
    }
    bytes.extend_from_slice(b"\n")?;
    Ok(())
}

// The word that an event's line begins with.
fn word_of(event: &LinkEvent) -> &'static [u8]
    ensures { result.now ≡ word_text event.now }
{
    match event {
        LinkEvent::Go(_) => b"go ",
        LinkEvent::Take(_) => b"take ",
        LinkEvent::Lose(_) => b"lose ",
        LinkEvent::Again(_) => b"again ",
        LinkEvent::Ack(_) => b"ack ",
        LinkEvent::Drop(_) => b"drop ",
    }
}

pub(crate) fn push_number(bytes: &mut Vec<u8>, number: u32) -> Result<(), AllocError>
    ensures { OnOk result (bytes.new.items ≡ bytes.old.items ++ decimal number) }
{
    let mut digits = Buffer::new();
    bytes.extend_from_slice(digits.format(number).as_bytes())?;
    Ok(())
}

fn push_name(bytes: &mut Vec<u8>, name: &Name) -> Result<(), AllocError>
    ensures { OnOk result (bytes.new.items ≡ bytes.old.items ++ name_text name.now) }
{
    bytes.extend_from_slice(name.kind.word())?;
    bytes.extend_from_slice(b" ")?;
    push_number(bytes, name.round)?;
    push_behind(bytes, name)
}
