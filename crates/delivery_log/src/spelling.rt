ghost use Rattle.std.specs.Prelude.{◌≡◌, [], ◌∷◌, ◌++◌, OnOk, decimal};
ghost use Rattle.vert_base.specs.NameTexts.{numbers_behind, numbers_text};
ghost use Rattle.delivery_log.specs.declared.form.Form.TheVariants.{Roundless};
ghost use Rattle.delivery_log.specs.ScheduleTexts.{event_lines, take_line, text_of};

use itoa::Buffer;
use std::alloc::AllocError;
use vert_base::{Event, Name};

/// Writes the lines of an event in form 2 at the end of bytes, where a round is held.
pub(crate) fn push_event(bytes: &mut Vec<u8>, held: u32, event: &Event) -> Result<(), AllocError>
    ensures { OnOk result (bytes.new.items
        ≡ bytes.old.items ++ text_of (event_lines Roundless held event.now)) }
{
    match event {
        Event::Go(machine) => push_line(bytes, b"go ", u32::from(*machine)),
        Event::Take(name) if name.round == held => push_take(bytes, name),
        Event::Take(name) => {
            push_line(bytes, b"round ", name.round)?;
            push_take(bytes, name)
        }
    }
}

/// Writes a line of a word and a number.
pub(crate) fn push_line(bytes: &mut Vec<u8>, word: &[u8], number: u32) -> Result<(), AllocError>
    ensures { OnOk result (bytes.new.items
        ≡ bytes.old.items ++ text_of ((word.now ++ decimal number) ∷ [])) }
{
    let mut digits = Buffer::new();
    bytes.extend_from_slice(word)?;
    bytes.extend_from_slice(digits.format(number).as_bytes())?;
    bytes.extend_from_slice(b"\n")?;
    Ok(())
}

fn push_take(bytes: &mut Vec<u8>, name: &Name) -> Result<(), AllocError>
    ensures { OnOk result (bytes.new.items
        ≡ bytes.old.items ++ text_of (take_line Roundless name.now ∷ [])) }
{
    bytes.extend_from_slice(b"take ")?;
    bytes.extend_from_slice(name.kind.word())?;
    push_behind(bytes, name)?;
    bytes.extend_from_slice(b"\n")?;
    Ok(())
}

/// Writes what stands behind the kind and the round of a name at the end of bytes.
pub fn push_behind(bytes: &mut Vec<u8>, name: &Name) -> Result<(), AllocError>
    ensures { OnOk result (bytes.new.items
        ≡ bytes.old.items ++ numbers_text (numbers_behind name.now)) }
{
    if name.kind.has_steps() {
        push_numbers(bytes, &[name.step, name.half, name.from, name.to])
    } else {
        push_numbers(bytes, &[name.from, name.to])
    }
}

fn push_numbers(bytes: &mut Vec<u8>, numbers: &[u8]) -> Result<(), AllocError>
    ensures { OnOk result (bytes.new.items ≡ bytes.old.items ++ numbers_text numbers.now) }
{
    for number in numbers {
        let mut digits = Buffer::new();
        bytes.extend_from_slice(b" ")?;
        bytes.extend_from_slice(digits.format(*number).as_bytes())?;
    }
    Ok(())
}
