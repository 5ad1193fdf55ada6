//! The slots of kind `first` to which a neighbour may emit.
#![tactic(auto)]

ghost use Rattle.std.specs.Prelude.{◌≡◌, ◌≤◌, length};
ghost use Rattle.order_free.specs.Emits.{first_slot, neighbour_emits};
ghost use Rattle.slot_merge.specs.Combine.{is_first};

use instrument::body_emits;
use vert_base::Combine;
use vert_tree::Program;

fn is_first(op: Combine) -> bool
    ensures { result ≡ is_first op }
{
    match op {
        Combine::First => true,
        _ => false,
    }
}

/// Whether an `emit` of the loop body or of the sparse body names the slot.
fn neighbour_emits(program: &Program, slot: u8) -> bool
    ensures { result ≡ neighbour_emits program.now slot }
{
    if let Some(dense) = &program.dense {
        if body_emits(slot, &dense.body) {
            return true;
        }
    }
    match &program.sparse {
        Some(sparse) => body_emits(slot, &sparse.body),
        None => false,
    }
}

/// The least slot of kind `first` to which a neighbour may emit.
pub(crate) fn first_slot(program: &Program) -> Option<u8>
    requires { length program.now.slots.items ≤ 8 }
    ensures { result ≡ first_slot program.now }
{
    let mut place = 0u8;
    for slot in &program.slots {
        if is_first(slot.op) && neighbour_emits(program, place) {
            return Some(place);
        }
        place += 1;
    }
    None
}
