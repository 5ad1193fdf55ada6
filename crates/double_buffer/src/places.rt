ghost use Rattle.std.specs.Prelude.{◌≡◌, ◌<◌, None, Some, option_map, option_copied, slice_index_or, slice_set, length, vec_len, if◌then◌else◌, is_some, replicate};
ghost use Rattle.vert_base.specs.Letters.{letter_of};
ghost use Rattle.double_buffer.specs.Places.{letter_at};

use vert_base::{Message, Name};

/// The message of a name, where its place holds it.
pub(crate) fn held<'a>(places: &'a [Option<Message>], at: usize, name: &Name) -> Option<&'a Message>
    ensures { option_map letter_of (option_copied result)
        ≡ letter_at name.now (slice_index_or places.now at None) }
{
    match places.get(at) {
        Some(Some(message)) if message.name == *name => Some(message),
        _ => None,
    }
}

/// Puts a message into a place.
pub(crate) fn fill(places: &mut Vec<Option<Message>>, at: usize, msg: Message)
    requires { at < vec_len places.old }
    ensures { places.new.items ≡ slice_set places.old.items at (Some msg) }
{
    places[at] = Some(msg);
}

/// Takes the message of a name out of its place, where that holds it.
pub(crate) fn clear(places: &mut Vec<Option<Message>>, at: usize, name: &Name) -> Option<Message>
    ensures message { option_map letter_of result
        ≡ letter_at name.now (slice_index_or places.old.items at None) }
    ensures rest { places.new.items
        ≡ (if is_some result then slice_set places.old.items at None else places.old.items) }
{
    if held(places, at, name).is_none() {
        return None;
    }
    places[at].take()
}

/// Takes the messages of all places out, and drops them.
pub(crate) fn free_all(places: &mut Vec<Option<Message>>)
    ensures { places.new.items ≡ replicate (length places.old.items) None }
{
    'places: for at in 0..places.len() {
        places[at] = None;
    }
}
