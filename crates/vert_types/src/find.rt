//! What a name stands for, and whether it may be used so at a place.
ghost use Rattle.std.specs.Prelude.{◌≡◌, IsTrue, length};
ghost use Rattle.vert_tree.specs.Places.{is_named, is_slot, is_target};
ghost use Rattle.vert_tree.specs.Readable.{word_read, is_other_word};
ghost use Rattle.vert_tree.specs.Views.{text_of};
ghost use Rattle.vert_types.specs.Findings.{first_from};
ghost use Rattle.vert_types.specs.Parsed.{name_known};
ghost use Rattle.vert_types.specs.Scopes.{IsScope, dictionary_in, is_of, names_in, view_place, view_rights, view_words};
ghost use Rattle.vert_types.specs.Typing.{is_field, is_read_slot, use_faults, kind_of_use};

use crate::findings::{Findings, MISUSED, UNDECLARED};
use crate::scope::{Meaning, Place, Rights, Role, Scope, Words};
use vert_base::ValueType;
use vert_tree::{Builtin, Ident, What};

/// What a name stands for.
pub(crate) fn meaning_of(name: &Ident, scope: &Scope) -> Option<Meaning>
    requires scope { IsScope scope.now }
    requires known { IsTrue (name_known (length (names_in scope.now)) name.now) }
    ensures { result ≡ dictionary_in scope.now (text_of (names_in scope.now) name.now.name) }
{
    scope.meanings[name.name as usize]
}

/// Whether a name may be read at a place.
pub(crate) fn is_named(place: &Place, what: What) -> bool
    ensures { result ≡ is_named (view_place place.now).names what }
{
    match what {
        What::Field(i) => usize::from(i) < place.fields,
        What::Local(i) => usize::from(i) < place.locals,
        What::Send(i) => usize::from(i) < place.sends,
        What::Total(i) => usize::from(i) < place.totals,
        What::Slot(_) | What::Unread => false,
    }
}

/// Whether a name is one of the slots.
pub(crate) fn is_slot(place: &Place, what: What) -> bool
    ensures { result ≡ is_slot (view_place place.now).names what }
{
    match what {
        What::Slot(i) => usize::from(i) < place.slots,
        _ => false,
    }
}

/// Whether `.got` and `.value` may be read of a name at a place.
pub(crate) fn is_read_slot(place: &Place, what: What) -> bool
    ensures { result ≡ is_read_slot (view_place place.now) what }
{
    place.words.slots && is_slot(place, what)
}

pub(crate) fn is_field(what: What) -> bool
    ensures { result ≡ is_field what }
{
    match what {
        What::Field(_) => true,
        _ => false,
    }
}

/// Whether a word may be read.
pub(crate) fn word_read(words: &Words, word: Builtin) -> bool
    ensures { result ≡ word_read (view_words words.now) word }
{
    match word {
        Builtin::Id | Builtin::InDeg | Builtin::OutDeg => words.own,
        Builtin::Count | Builtin::Round => true,
        Builtin::Active => words.active,
        Builtin::Weight => words.weight,
    }
}

/// Whether a word may stand behind `u.`.
pub(crate) fn is_other_word(word: Builtin) -> bool
    ensures { result ≡ is_other_word word }
{
    match word {
        Builtin::Id | Builtin::Active | Builtin::InDeg | Builtin::OutDeg => true,
        _ => false,
    }
}

/// Whether a name may be assigned to.
fn is_target(rights: &Rights, place: &Place, what: What) -> bool
    ensures { result ≡ is_target (view_rights rights.now) (view_place place.now).names what }
{
    match what {
        What::Field(i) => rights.fields && usize::from(i) < place.fields,
        What::Local(i) => rights.locals && usize::from(i) < place.locals,
        _ => false,
    }
}

fn is_of(role: Role, place: &Place, what: What) -> bool
    ensures { result ≡ is_of role (view_place place.now) what }
{
    match role {
        Role::Read => is_named(place, what),
        Role::ReadSlot => is_read_slot(place, what),
        Role::Behind => is_field(what),
        Role::Emitted => is_slot(place, what),
        Role::Assigned(rights) => is_target(&rights, place, what),
    }
}

/// Notes the fault of a name that is used so: its type, or none where it is refused.
pub(crate) fn use_name(
    name: &Ident,
    role: Role,
    scope: &Scope,
    place: &Place,
    found: &mut Findings,
) -> Option<ValueType>
    requires scope { IsScope scope.now }
    requires known { IsTrue (name_known (length (names_in scope.now)) name.now) }
    ensures kind { result ≡ kind_of_use (is_of role (view_place place.now))
        (dictionary_in scope.now (text_of (names_in scope.now) name.now.name)) }
    ensures faults { found.new.first
        ≡ first_from found.old.first
        (use_faults (is_of role (view_place place.now))
        (dictionary_in scope.now (text_of (names_in scope.now) name.now.name)) name.now.span) }
{
    match meaning_of(name, scope) {
        None => {
            found.note(UNDECLARED, name.span);
            None
        }
        Some(meaning) => {
            if is_of(role, place, meaning.what) {
                Some(meaning.kind)
            } else {
                found.note(MISUSED, name.span);
                None
            }
        }
    }
}
