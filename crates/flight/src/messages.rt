// The messages, by keys, together with their index.
ghost use Rattle.std.specs.Prelude.{◌≡◌, ◌<◌, ◌^◌, length, None, IfErr, OnOk, OnErr, option_map, option_copied};
ghost use Rattle.vert_base.specs.Letters.{found, letter_of, placed, without};
ghost use Rattle.flight.specs.Entries.{IsSound, letters_by};

use crate::entries::{Entry, find_in, place_of};
use slab::Slab;
use std::collections::VecDeque;
use vert_base::{Message, Name, Want};

/// Puts a message in. Without the memory for it, it comes back.
pub(crate) fn add(
    messages: &mut Slab<Message>,
    entries: &mut VecDeque<Entry>,
    msg: Message,
) -> Result<(), (Message, Want)>
    requires sound { IsSound messages.old entries.old.items }
    requires fresh { found msg.name (letters_by messages.old entries.old.items) ≡ None }
    requires room { length (letters_by messages.old entries.old.items) < 2 ^ 31 }
    ensures sound { IsSound messages.new entries.new.items }
    ensures sent { OnOk result (letters_by messages.new entries.new.items
        ≡ placed (letter_of msg) (letters_by messages.old entries.old.items)) }
    ensures kept { OnErr result (letters_by messages.new entries.new.items
        ≡ letters_by messages.old entries.old.items) }
    ensures back { IfErr result (λ failed. failed.0 ≡ msg) }
{
    let name = msg.name;
    let at = place_of(entries, &name);
    let key = match messages.insert(msg) {
        Ok(key) => key,
        Err(failed) => return Err((failed.value, Want)),
    };
    match entries.insert(at, Entry { name, key }) {
        Ok(()) => Ok(()),
        Err(_) => Err((messages.remove(key), Want)),
    }
}

/// Takes the message of a name out.
pub(crate) fn take(
    messages: &mut Slab<Message>,
    entries: &mut VecDeque<Entry>,
    name: &Name,
) -> Option<Message>
    requires { IsSound messages.old entries.old.items }
    ensures sound { IsSound messages.new entries.new.items }
    ensures message { option_map letter_of result
        ≡ found name.now (letters_by messages.old entries.old.items) }
    ensures rest { letters_by messages.new entries.new.items
        ≡ without name.now (letters_by messages.old entries.old.items) }
{
    match find_in(entries, name) {
        Some(at) => {
            let entry = entries.remove(at)?;
            Some(messages.remove(entry.key))
        }
        None => None,
    }
}

/// The message of a name, where it stands.
pub(crate) fn look<'a>(
    messages: &'a Slab<Message>,
    entries: &VecDeque<Entry>,
    name: &Name,
) -> Option<&'a Message>
    requires { IsSound messages.now entries.now.items }
    ensures { option_map letter_of (option_copied result)
        ≡ found name.now (letters_by messages.now entries.now.items) }
{
    match find_in(entries, name) {
        Some(at) => messages.get(entries.get(at)?.key),
        None => None,
    }
}
