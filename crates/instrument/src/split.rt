ghost use Rattle.std.specs.Prelude.{◌≡◌, ◌≤◌, length, option_map};
ghost use Rattle.carry_analysis.specs.Classes.{is_carried};
ghost use Rattle.instrument.specs.Loops.{body_emits, emitted_slots, is_reduced, is_slot_at, loop_split, places_where, stmt_emits};

use arrayvec::ArrayVec;
use carry_analysis::{Carry, Class, Classes, carry_of, classes_of};
use vert_tree::{Dense, Stmt, Typed, What};

/// How a dense loop is split: the classes of its lets, what it hands on, the places of its carried
/// and of its reduced lets, and the slots to which its body emits, each list ascending.
#[derive(Drop)]
pub struct SplitLoop {
    pub classes: Classes,
    pub carry: Option<Carry>,
    pub carried: ArrayVec<u8, 8>,
    pub reduced: ArrayVec<u8, 8>,
    pub emitted: ArrayVec<u8, 8>,
}

/// A program and the split of its loop, which is there where the program has a dense block.
#[derive(Drop)]
pub struct Split {
    pub program: Typed,
    pub dense: Option<SplitLoop>,
    ghost split: { dense ≡ option_map loop_split program.program.dense },
}

/// Splits the loop of a program.
pub fn split_of(typed: Typed) -> Split
    ensures { result.program ≡ typed }
{
    let dense = match &typed.program.dense {
        Some(dense) => Some(split_loop(dense)),
        None => None,
    };
    Split {
        program: typed,
        dense,
    }
}

fn split_loop(dense: &Dense) -> SplitLoop
    requires { length dense.now.lets.items ≤ 8 }
    ensures { result ≡ loop_split dense.now }
{
    let classes = classes_of(dense);
    let carry = carry_of(&classes);
    let carried = carried_places(&classes);
    let reduced = reduced_places(&classes);
    SplitLoop {
        classes,
        carry,
        carried,
        reduced,
        emitted: slots_of(&dense.body),
    }
}

fn carried_places(classes: &Classes) -> ArrayVec<u8, 8>
    ensures { result.items ≡ places_where is_carried 0 classes.now.locals.items }
{
    let mut places = ArrayVec::new();
    for (i, class) in classes.locals.as_slice().iter().enumerate() {
        if let Class::Carried = class {
            places.push(i as u8);
        }
    }
    places
}

fn reduced_places(classes: &Classes) -> ArrayVec<u8, 8>
    ensures { result.items ≡ places_where is_reduced 0 classes.now.locals.items }
{
    let mut places = ArrayVec::new();
    for (i, class) in classes.locals.as_slice().iter().enumerate() {
        if let Class::Reduced(_) = class {
            places.push(i as u8);
        }
    }
    places
}

// The slots to which a body emits.
fn slots_of(body: &[Stmt]) -> ArrayVec<u8, 8>
    ensures { result.items ≡ emitted_slots body.now }
{
    let mut slots = ArrayVec::new();
    for slot in 0..8 {
        if body_emits(slot, body) {
            slots.push(slot);
        }
    }
    slots
}

#[cycle(emits)]
fn stmt_emits(slot: u8, stmt: &Stmt) -> bool
    ensures { result ≡ stmt_emits slot stmt.now }
{
    match stmt {
        Stmt::Assign(_, _, _) | Stmt::SetActive(_, _) | Stmt::Break(_) => false,
        Stmt::Emit(_, name, _) => is_slot_at(slot, name.what),
        Stmt::If(_, _, held, otherwise) => {
            if body_emits(slot, held) {
                return true;
            }
            match otherwise {
                Some(others) => body_emits(slot, others),
                None => false,
            }
        }
    }
}

/// Whether an `emit` of a block, or of a block inside it, names the slot.
#[cycle(emits)]
pub fn body_emits(slot: u8, body: &[Stmt]) -> bool
    ensures { result ≡ body_emits slot body.now }
{
    for stmt in body {
        if stmt_emits(slot, stmt) {
            return true;
        }
    }
    false
}

fn is_slot_at(slot: u8, name: What) -> bool
    ensures { result ≡ is_slot_at slot name }
{
    match name {
        What::Slot(i) => i == slot,
        _ => false,
    }
}
