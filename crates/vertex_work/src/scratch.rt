// What code runs with, and what is written in place. A list that has as many items already isn't
// emptied first, since that fills it with blanks.
ghost use Rattle.std.specs.Prelude.{◌≡◌, ◌≤◌, length, map};
ghost use Rattle.slot_merge.specs.Partials.{empty_partial};
ghost use Rattle.symple_face.specs.CoreClose.{values_of};

use arrayvec::ArrayVec;
use slot_merge::{Emits, Partial};
use vert_tree::SlotDecl;
use vert_vm::Stack;

/// What the code of a block runs with beside its environment: the partials to which it emits, and a
/// stack.
#[derive(Drop)]
pub struct Scratch {
    pub emits: Emits,
    pub stack: Stack,
}

/// What code runs with before the first vertex.
pub fn new_scratch() -> Scratch {
    Scratch {
        emits: Emits {
            slots: ArrayVec::new(),
        },
        stack: Stack::new(),
    }
}

/// Nothing was emitted to the slots.
#[inline]
pub(crate) fn clear_emits(emits: &mut Emits, slots: &[SlotDecl])
    requires { length slots.now ≤ 8 }
    ensures { emits.new.slots.items ≡ map (λ s. empty_partial s.op) slots.now }
{
    if emits.slots.len() != slots.len() {
        resize_emits(emits, slots.len());
    }
    for (i, slot) in slots.iter().enumerate() {
        emits.slots[i] = Partial {
            op: slot.op,
            key: 0,
            value: None,
        };
    }
}

// As many partials, whatever they are.
fn resize_emits(emits: &mut Emits, count: usize)
    requires { count ≤ 8 }
    ensures { length emits.new.slots.items ≡ count }
{
    emits.slots.clear();
    'slots: for _ in 0..count {
        emits.slots.push(Partial::default());
    }
}

/// Writes partials to the slots.
#[inline]
pub(crate) fn load_emits(partials: &[Partial], emits: &mut Emits)
    requires { length partials.now ≤ 8 }
    ensures { emits.new.slots.items ≡ partials.now }
{
    if emits.slots.len() == partials.len() {
        emits.slots.as_mut_slice().copy_from_slice(partials);
        return;
    }
    emits.slots.clear();
    emits.slots.try_extend_from_slice(partials).unwrap();
}

/// Writes the values of partials.
#[inline]
pub(crate) fn put_values(partials: &[Partial], values: &mut ArrayVec<Option<i64>, 8>)
    requires { length partials.now ≤ 8 }
    ensures { values.new.items ≡ values_of partials.now }
{
    resize(values, partials.len());
    for (i, partial) in partials.iter().enumerate() {
        values[i] = partial.value;
    }
}

/// As many values, whatever they are.
#[inline]
pub(crate) fn resize(values: &mut ArrayVec<Option<i64>, 8>, count: usize)
    requires { count ≤ 8 }
    ensures { length values.new.items ≡ count }
{
    if values.len() == count {
        return;
    }
    values.clear();
    'values: for _ in 0..count {
        values.push(None);
    }
}
