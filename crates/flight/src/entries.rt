// The index of the messages by name.
ghost use Rattle.std.specs.Prelude.{◌≡◌, ◌≤◌, length, IfSome, IfNone};
ghost use Rattle.vert_base.specs.Names.{is_before as precedes};
ghost use Rattle.flight.specs.Entries.{IsFoundAt, IsNowhere, NamesAscend, letters_by, place};

use std::collections::VecDeque;
use vert_base::Name;

/// A name, and the key of its message.
#[derive(Drop)]
pub(crate) struct Entry {
    pub(crate) name: Name,
    pub(crate) key: usize,
}

/// How many entries have names before this one.
pub(crate) fn place_of(entries: &VecDeque<Entry>, name: &Name) -> usize
    requires { NamesAscend entries.now.items }
    ensures value { (messages : _) → result
        ≡ place name.now (letters_by messages entries.now.items) }
    ensures within { result ≤ length entries.now.items }
{
    entries.partition_point(
        |entry: &Entry| -> bool
            ensures { result ≡ precedes entry.now.name name.entry.now }
        { is_before(&entry.name, name) },
    )
}

/// Where the entry of a name stands.
pub(crate) fn find_in(entries: &VecDeque<Entry>, name: &Name) -> Option<usize>
    requires { NamesAscend entries.now.items }
    ensures some { IfSome result (IsFoundAt name.now entries.now.items) }
    ensures none { IfNone result (IsNowhere name.now entries.now.items) }
{
    let at = place_of(entries, name);
    let entry = entries.get(at)?;
    if is_before(name, &entry.name) {
        None
    } else {
        Some(at)
    }
}

// The order of names.
fn is_before(left: &Name, right: &Name) -> bool
    ensures { result ≡ precedes left.now right.now }
{
    left < right
}
