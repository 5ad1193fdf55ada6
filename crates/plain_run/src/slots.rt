ghost use Rattle.std.specs.Prelude.{◌≡◌, ◌≤◌, length, map};
ghost use Rattle.slot_merge.specs.Partials.{empty_partial};
ghost use Rattle.vert_eval.specs.Rounds.{no_values};

use arrayvec::ArrayVec;
use slot_merge::{Emits, Partial};
use vert_tree::SlotDecl;

/// Takes all values of the slots away.
pub(crate) fn clear_values(slots: &[SlotDecl], values: &mut ArrayVec<Option<i64>, 8>)
    requires { length slots.now ≤ 8 }
    ensures { values.new.items ≡ no_values (map (λ s. s.op) slots.now) }
{
    values.clear();
    for _slot in slots {
        values.push(None);
    }
}

/// Makes the partials those of slots to which nothing was emitted.
pub(crate) fn clear_emits(slots: &[SlotDecl], emits: &mut Emits)
    requires { length slots.now ≤ 8 }
    ensures { emits.new.slots.items ≡ map empty_partial (map (λ s. s.op) slots.now) }
{
    emits.slots.clear();
    for slot in slots {
        emits.slots.push(Partial::new(slot.op));
    }
}

/// Gives the slots the values that were emitted to them.
pub(crate) fn put_values(emits: &Emits, values: &mut ArrayVec<Option<i64>, 8>)
    ensures { values.new.items ≡ map (λ p. p.value) emits.now.slots.items }
{
    values.clear();
    for partial in emits.slots.as_slice() {
        values.push(partial.value);
    }
}
