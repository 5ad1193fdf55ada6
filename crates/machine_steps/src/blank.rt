//! What stands at a vertex before a round: partials to which nothing came, and a loop that hasn't
//! begun.

ghost use Rattle.std.specs.Prelude.{◌≡◌, ◌≤◌, ◌<◌, ◌+◌, ◌++◌, [], ◌∷◌, length, map, pos, replicate, slice_set};
ghost use Rattle.slot_merge.specs.Partials.{empty_partial};
ghost use Rattle.symple_face.specs.CoreTakes.{empty_partials, reduced_ops};
ghost use Rattle.symple_face.specs.Plans.{loop_carry};
ghost use Rattle.symple_face.specs.Shapes.{words_in};
ghost use Rattle.machine_parts.specs.Flat.{fresh_state};

use arrayvec::ArrayVec;
use carry_analysis::Class;
use dep_layout::Mark;
use instrument::Split;
use machine_parts::RingHalf;
use slot_merge::Partial;
use vert_tree::SlotDecl;

/// The partials of a vertex to which nothing came.
pub fn empty_row(split: &Split) -> ArrayVec<Partial, 16>
    ensures { result.items ≡ empty_partials split.now }
{
    let mut row = ArrayVec::new();
    add_slots(&split.program.program.slots, &mut row);
    if let Some(dense) = &split.dense {
        add_reduced(dense.classes.locals.as_slice(), &mut row);
    }
    row
}

/// Puts the partials of slots behind others.
fn add_slots(slots: &[SlotDecl], row: &mut ArrayVec<Partial, 16>)
    requires room { length row.old.items ≤ 8 }
    requires few { length slots.now ≤ 8 }
    ensures { row.new.items ≡ row.old.items ++ map empty_partial (map (λ s. s.op) slots.now) }
{
    for slot in slots {
        row.push(Partial::new(slot.op));
    }
}

/// Puts the partials of the reduced lets among some behind others.
fn add_reduced(classes: &[Class], row: &mut ArrayVec<Partial, 16>)
    requires room { length row.old.items ≤ 8 }
    requires few { length classes.now ≤ 8 }
    ensures { row.new.items ≡ row.old.items ++ map empty_partial (reduced_ops classes.now) }
{
    for class in classes {
        add_let(*class, row);
    }
}

fn add_let(class: Class, row: &mut ArrayVec<Partial, 16>)
    requires { length row.old.items < 16 }
    ensures items { row.new.items
        ≡ row.old.items ++ map empty_partial (reduced_ops (class ∷ [])) }
    ensures few { length row.new.items ≤ length row.old.items + 1 }
{
    match class {
        Class::Reduced(op) => row.push(Partial::new(op)),
        Class::Constant | Class::Carried => {}
    }
}

/// How many words the loop of a program hands on.
pub fn ring_width(split: &Split) -> usize
    ensures width { result ≡ words_in (loop_carry split.now.dense) }
    ensures few { result ≤ 8 }
{
    let Some(dense) = &split.dense else {
        return 0;
    };
    match dense.carry {
        Some(carry) => usize::from(carry.words),
        None => 0,
    }
}

/// Makes all loops such as haven't begun.
pub(crate) fn refresh_ring(ring: &mut RingHalf, width: usize)
    requires width { ring.old.width ≡ width }
    requires few { width ≤ 8 }
    ensures { ring.new ≡ record ring.old {
      states = replicate (length ring.old.states) (fresh_state width);
    } }
{
    let zeros = [0i64; 8];
    'places: for place in 0..ring.len() {
        refresh_state(ring, place, &zeros[..width]);
    }
}

/// Makes one loop such as hasn't begun.
#[inline]
fn refresh_state(ring: &mut RingHalf, place: usize, zeros: &[i64])
    requires place { place < length ring.old.states }
    requires zeros { zeros.now ≡ replicate ring.old.width (pos 0) }
    ensures { ring.new ≡ record ring.old {
      states = slice_set ring.old.states place (fresh_state ring.old.width);
    } }
{
    match ring.mark(place) {
        Mark::Fresh => {}
        Mark::Running | Mark::Broken => ring.put(place, Mark::Fresh, zeros),
    }
}
