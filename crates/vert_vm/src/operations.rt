//! What the instructions do to a stack, an environment and the partials of the slots. Each call
//! tells the place of the next instruction.

ghost use Rattle.std.specs.Prelude.{◌≡◌, ◌<◌, ◌≤◌, ◌+◌, ◌^◌, ◌∷◌, length, not, neg_ℤ, if◌then◌else◌};
ghost use Rattle.std.specs.Int.{int_max, int_min};
ghost use Rattle.vert_tree.specs.declared.name.What.TheVariants as what;
ghost use Rattle.slot_merge.specs.Partials.{with_emissions};
ghost use Rattle.vert_eval.specs.Frames.{SameFrame};
ghost use Rattle.vert_eval.specs.Runs.{emission, noted, with_target};
ghost use Rattle.vert_eval.specs.Words.{binary, is_set, word_of, wrapped};
ghost use Rattle.vert_code.specs.Machine.{top, under};

use crate::stack::Stack;
use slot_merge::Emits;
use vert_eval::{Env, apply, assign, negated, put, truth, word, word_in};
use vert_tree::{AssignOp, BinOp};

/// Puts a value on the stack.
#[inline]
pub(crate) fn give(value: i64, place: usize, stack: &mut Stack) -> usize
    requires small { place < 2 ^ 63 }
    requires room { length stack.old < 64 }
    ensures next { result ≡ place + 1 }
    ensures stack { stack.new ≡ value ∷ stack.old }
{
    stack.push(value);
    place + 1
}

/// Puts `-x` in the place of the topmost value x.
#[inline]
pub(crate) fn negate(place: usize, stack: &mut Stack) -> usize
    requires small { place < 2 ^ 63 }
    requires some { 1 ≤ length stack.old }
    requires room { length stack.old ≤ 64 }
    ensures next { result ≡ place + 1 }
    ensures stack { stack.new ≡ wrapped (neg_ℤ (top stack.old)) ∷ under stack.old }
{
    let x = stack.pop();
    give(negated(x), place, stack)
}

/// Puts the other truth value in the place of the topmost one.
#[inline]
pub(crate) fn invert(place: usize, stack: &mut Stack) -> usize
    requires small { place < 2 ^ 63 }
    requires some { 1 ≤ length stack.old }
    requires room { length stack.old ≤ 64 }
    ensures next { result ≡ place + 1 }
    ensures stack { stack.new ≡ word_of (not (is_set (top stack.old))) ∷ under stack.old }
{
    let x = stack.pop();
    give(word(!truth(x)), place, stack)
}

/// Puts what an operator gives in the place of its two operands.
#[inline]
pub(crate) fn operate(op: BinOp, place: usize, stack: &mut Stack) -> usize
    requires small { place < 2 ^ 63 }
    requires some { 2 ≤ length stack.old }
    requires room { length stack.old ≤ 64 }
    ensures next { result ≡ place + 1 }
    ensures stack { stack.new ≡ binary op (top (under stack.old)) (top stack.old)
        ∷ under (under stack.old) }
{
    let y = stack.pop();
    let x = stack.pop();
    give(apply(op, x, y), place, stack)
}

/// Puts the lesser one in the place of the two topmost values.
#[inline]
pub(crate) fn lower(place: usize, stack: &mut Stack) -> usize
    requires small { place < 2 ^ 63 }
    requires some { 2 ≤ length stack.old }
    requires room { length stack.old ≤ 64 }
    ensures next { result ≡ place + 1 }
    ensures stack { stack.new ≡ int_min (top (under stack.old)) (top stack.old)
        ∷ under (under stack.old) }
{
    let y = stack.pop();
    let x = stack.pop();
    give(x.min(y), place, stack)
}

/// Puts the greater one in the place of the two topmost values.
#[inline]
pub(crate) fn raise(place: usize, stack: &mut Stack) -> usize
    requires small { place < 2 ^ 63 }
    requires some { 2 ≤ length stack.old }
    requires room { length stack.old ≤ 64 }
    ensures next { result ≡ place + 1 }
    ensures stack { stack.new ≡ int_max (top (under stack.old)) (top stack.old)
        ∷ under (under stack.old) }
{
    let y = stack.pop();
    let x = stack.pop();
    give(x.max(y), place, stack)
}

/// Takes the topmost value and goes on at the next place, or at the target where it is 0.
#[inline]
pub(crate) fn fork(target: u32, place: usize, stack: &mut Stack) -> usize
    requires small { place < 2 ^ 63 }
    requires some { 1 ≤ length stack.old }
    ensures next { result ≡ (if is_set (top stack.old) then place + 1 else target) }
    ensures stack { stack.new ≡ under stack.old }
{
    if truth(stack.pop()) {
        place + 1
    } else {
        target as usize
    }
}

/// Assigns the topmost value to a let.
#[inline]
pub(crate) fn to_local(op: AssignOp, i: u8, place: usize, stack: &mut Stack, env: &mut Env) -> usize
    requires small { place < 2 ^ 63 }
    requires some { 1 ≤ length stack.old }
    requires inside { i < length env.old.locals.items }
    ensures next { result ≡ place + 1 }
    ensures stack { stack.new ≡ under stack.old }
    ensures env { env.new ≡ with_target (what.Local i) op (top stack.old) env.old }
    ensures kept { SameFrame env.old env.new }
{
    let value = stack.pop();
    set_local(op, i, value, env);
    place + 1
}

/// Assigns a value to a let.
#[inline]
pub(crate) fn set_local(op: AssignOp, i: u8, value: i64, env: &mut Env)
    requires inside { i < length env.old.locals.items }
    ensures env { env.new ≡ with_target (what.Local i) op value env.old }
    ensures kept { SameFrame env.old env.new }
{
    let left = assign(op, word_in(&env.locals, i), value);
    put(&mut env.locals, i, left);
    env.touched = note(op, i, env.touched);
}

#[inline]
fn note(op: AssignOp, i: u8, touched: u8) -> u8
    requires { i < 8 }
    ensures { result ≡ noted op i touched }
{
    match op {
        AssignOp::Set => touched,
        _ => touched | (1 << i),
    }
}

/// Assigns the topmost value to a field.
#[inline]
pub(crate) fn to_field(op: AssignOp, i: u8, place: usize, stack: &mut Stack, env: &mut Env) -> usize
    requires small { place < 2 ^ 63 }
    requires some { 1 ≤ length stack.old }
    requires inside { i < length env.old.row.words.items }
    ensures next { result ≡ place + 1 }
    ensures stack { stack.new ≡ under stack.old }
    ensures env { env.new ≡ with_target (what.Field i) op (top stack.old) env.old }
    ensures kept { SameFrame env.old env.new }
{
    let value = stack.pop();
    let left = assign(op, word_in(&env.row.words, i), value);
    put(&mut env.row.words, i, left);
    place + 1
}

/// Assigns the topmost value to the next flag.
#[inline]
pub(crate) fn to_active(place: usize, stack: &mut Stack, env: &mut Env) -> usize
    requires small { place < 2 ^ 63 }
    requires some { 1 ≤ length stack.old }
    ensures next { result ≡ place + 1 }
    ensures stack { stack.new ≡ under stack.old }
    ensures env { env.new ≡ record env.old { next_active = is_set (top stack.old) } }
    ensures kept { SameFrame env.old env.new }
{
    env.next_active = truth(stack.pop());
    place + 1
}

/// Adds the topmost value to the partial of a slot.
#[inline]
pub(crate) fn emit(i: u8, key: u32, place: usize, stack: &mut Stack, emits: &mut Emits) -> usize
    requires small { place < 2 ^ 63 }
    requires some { 1 ≤ length stack.old }
    requires inside { i < length emits.old.slots.items }
    ensures next { result ≡ place + 1 }
    ensures stack { stack.new ≡ under stack.old }
    ensures emits { emits.new.slots.items
        ≡ with_emissions key emits.old.slots.items (emission (what.Slot i) (top stack.old)) }
    ensures kept { length emits.new.slots.items ≡ length emits.old.slots.items }
{
    let value = stack.pop();
    emits.slots[usize::from(i)].add(key, value);
    place + 1
}
