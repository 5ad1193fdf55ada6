//! The machine: a place in a list of instructions, and a stack.

ghost use Rattle.std.specs.Prelude.{◌≡◌, ◌<◌, ◌≤◌, ◌+◌, ◌^◌, ℕ, ℤ, List, [], ◌∷◌, true, drop, length, IfSome, IfNone, pos, FitsSigned};
ghost use Rattle.std.specs.Int.{w64};
ghost use Rattle.draw_source.specs.Draws.{draw_word};
ghost use Rattle.vert_tree.specs.declared.name.What.TheVariants as what;
ghost use Rattle.slot_merge.specs.Partials.{with_emissions};
ghost use Rattle.vert_eval.specs.declared.environment.Flow.TheVariants.{Going, Broke};
ghost use Rattle.vert_eval.specs.Frames.{SameFrame};
ghost use Rattle.vert_eval.specs.Values.{CanDraw, counts_of, slot_value};
ghost use Rattle.vert_code.specs.Machine.{gives, run_code, step};
ghost use Rattle.vert_code.specs.Valid.{has_names, list_names, way_of};
ghost use Rattle.vert_vm.specs.Ends.{SameEnd, rest_of};
ghost use Rattle.vert_vm.specs.Steps.{CanStep, IsEntered};

use crate::operations::{
    emit, fork, give, invert, lower, negate, operate, raise, set_local, to_active, to_field,
    to_local,
};
use crate::stack::Stack;
use draw_source::draw;
use slot_merge::Emits;
use vert_code::Instr;
use vert_eval::{Env, Flow, builtin_word, other_word, truth, word, word_in};

/// Runs a list of instructions with an empty stack, which is empty again where it comes to the end.
pub(crate) fn run_list(list: &[Instr], stack: &mut Stack, env: &mut Env, emits: &mut Emits) -> Flow
    requires level { IsEntered 0 0 list.now }
    requires names { list_names (counts_of env.old) list.now ≡ true }
    requires stack { stack.old ≡ [] }
    requires draws { CanDraw env.old }
    requires partials { length emits.old.slots.items ≡ length env.old.slots.items }
    ensures env { env.new ≡ (run_code list.now env.old).env }
    ensures flow { result ≡ (run_code list.now env.old).flow }
    ensures emits { emits.new.slots.items
        ≡ with_emissions env.old.key emits.old.slots.items (run_code list.now env.old).emitted }
    ensures stack { result ≡ Going → stack.new ≡ [] }
    ensures kept { SameFrame env.old env.new }
    ensures partials { length emits.new.slots.items ≡ length emits.old.slots.items }
{
    let mut place = 0;
    while place < list.len() {
        match run_next(list, place, stack, env, emits) {
            Some(next) => place = next,
            None => return Flow::Broke,
        }
    }
    Flow::Going
}

/// Runs the next instruction, and behind one that loads a value the one behind it too, which mostly
/// takes the value at once: then it need not go over the stack. Tells the place where the run goes on.
#[inline]
fn run_next(
    list: &[Instr],
    place: usize,
    stack: &mut Stack,
    env: &mut Env,
    emits: &mut Emits,
) -> Option<usize>
    requires inside { place < length list.now }
    requires entered { IsEntered place (length stack.old) (drop place list.now) }
    requires names { list_names (counts_of env.old) list.now ≡ true }
    requires draws { CanDraw env.old }
    requires partials { length emits.old.slots.items ≡ length env.old.slots.items }
    ensures ahead { IfSome result (λ next. place < next) }
    ensures within { IfSome result (λ next. next ≤ length list.now) }
    ensures entered { IfSome result (λ next.
        IsEntered next (length stack.new) (drop next list.now)) }
    ensures ends { IfSome result (λ next.
        SameEnd env.new.key emits.new.slots.items (rest_of list.now next stack.new env.new)
        env.old.key emits.old.slots.items (rest_of list.now place stack.old env.old)) }
    ensures env { IfNone result (env.new ≡ (rest_of list.now place stack.old env.old).env) }
    ensures broke { IfNone result (Broke ≡ (rest_of list.now place stack.old env.old).flow) }
    ensures emits { IfNone result (emits.new.slots.items
        ≡ with_emissions env.old.key emits.old.slots.items
        (rest_of list.now place stack.old env.old).emitted) }
    ensures kept { SameFrame env.old env.new }
    ensures partials { length emits.new.slots.items ≡ length emits.old.slots.items }
{
    match loaded(list[place], env) {
        Some(value) => run_above(list[place + 1], value, place + 1, stack, env, emits),
        None => run_step(list[place], place, stack, env, emits),
    }
}

/// The value that an instruction loads, of those that loops mostly load.
#[inline]
fn loaded(instr: Instr, env: &Env) -> Option<i64>
    requires names { has_names (counts_of env.now) instr ≡ true }
    ensures loads { IfSome result (λ value. (place : ℕ) → (stack : List ℤ) →
        step instr place stack env.now ≡ gives value stack env.now) }
    ensures fits { IfSome result (λ value. FitsSigned w64 value) }
{
    match instr {
        Instr::Push(x) => Some(x),
        Instr::Word(builtin) => Some(builtin_word(builtin, env)),
        Instr::Field(i) => Some(word_in(&env.row.words, i)),
        Instr::Local(i) => Some(word_in(&env.locals, i)),
        Instr::OtherField(i) => Some(word_in(&env.other_row.words, i)),
        Instr::OtherWord(builtin) => Some(other_word(builtin, env)),
        _ => None,
    }
}

/// Runs one instruction, with one more value above the stack.
#[inline]
fn run_above(
    instr: Instr,
    value: i64,
    place: usize,
    stack: &mut Stack,
    env: &mut Env,
    emits: &mut Emits,
) -> Option<usize>
    requires height { length stack.old < 64 }
    requires room { CanStep (way_of instr) place (length (value ∷ stack.old)) }
    requires small { place < 2 ^ 63 }
    requires names { has_names (counts_of env.old) instr ≡ true }
    requires draws { CanDraw env.old }
    requires partials { length emits.old.slots.items ≡ length env.old.slots.items }
    ensures next { IfSome result (λ next.
        next ≡ place + 1 + (step instr place (value ∷ stack.old) env.old).over) }
    ensures going { IfSome result (λ next.
        Going ≡ (step instr place (value ∷ stack.old) env.old).ran.flow) }
    ensures broke { IfNone result (
        Broke ≡ (step instr place (value ∷ stack.old) env.old).ran.flow) }
    ensures stack { stack.new ≡ (step instr place (value ∷ stack.old) env.old).stack }
    ensures env { env.new ≡ (step instr place (value ∷ stack.old) env.old).ran.env }
    ensures emits { emits.new.slots.items
        ≡ with_emissions env.old.key emits.old.slots.items
        (step instr place (value ∷ stack.old) env.old).ran.emitted }
    ensures kept { SameFrame env.old env.new }
    ensures partials { length emits.new.slots.items ≡ length emits.old.slots.items }
{
    match instr {
        Instr::ToLocal(op, i) => {
            set_local(op, i, value, env);
            Some(place + 1)
        }
        Instr::JumpUnless(_) if truth(value) => Some(place + 1),
        Instr::JumpUnless(target) => Some(target as usize),
        _ => {
            stack.push(value);
            run_step(instr, place, stack, env, emits)
        }
    }
}

/// Runs one instruction: the place where the run goes on, which a break hasn't. It stands by itself,
/// since the code of its many cases would crowd out that of the loop over neighbours.
#[inline(never)]
fn run_step(
    instr: Instr,
    place: usize,
    stack: &mut Stack,
    env: &mut Env,
    emits: &mut Emits,
) -> Option<usize>
    requires room { CanStep (way_of instr) place (length stack.old) }
    requires small { place < 2 ^ 63 }
    requires names { has_names (counts_of env.old) instr ≡ true }
    requires draws { CanDraw env.old }
    requires partials { length emits.old.slots.items ≡ length env.old.slots.items }
    ensures next { IfSome result (λ next.
        next ≡ place + 1 + (step instr place stack.old env.old).over) }
    ensures going { IfSome result (λ next. Going ≡ (step instr place stack.old env.old).ran.flow) }
    ensures broke { IfNone result (Broke ≡ (step instr place stack.old env.old).ran.flow) }
    ensures stack { stack.new ≡ (step instr place stack.old env.old).stack }
    ensures env { env.new ≡ (step instr place stack.old env.old).ran.env }
    ensures emits { emits.new.slots.items
        ≡ with_emissions env.old.key emits.old.slots.items
        (step instr place stack.old env.old).ran.emitted }
    ensures kept { SameFrame env.old env.new }
    ensures partials { length emits.new.slots.items ≡ length emits.old.slots.items }
{
    match instr {
        Instr::Push(x) => Some(give(x, place, stack)),
        Instr::Word(builtin) => Some(give(builtin_word(builtin, env), place, stack)),
        Instr::Field(i) => Some(give(word_in(&env.row.words, i), place, stack)),
        Instr::Local(i) => Some(give(word_in(&env.locals, i), place, stack)),
        Instr::Sent(i) => Some(give(word_in(&env.sends, i), place, stack)),
        Instr::Total(i) => Some(give(word_in(&env.totals, i), place, stack)),
        Instr::Got(i) => Some(give(word(slot_at(i, env).is_some()), place, stack)),
        Instr::Value(i) => Some(give(slot_at(i, env).unwrap_or(0), place, stack)),
        Instr::OtherField(i) => Some(give(word_in(&env.other_row.words, i), place, stack)),
        Instr::OtherWord(builtin) => Some(give(other_word(builtin, env), place, stack)),
        Instr::Draw(k) => Some(give(drawn(k, env), place, stack)),
        Instr::Neg => Some(negate(place, stack)),
        Instr::Not => Some(invert(place, stack)),
        Instr::Op(op) => Some(operate(op, place, stack)),
        Instr::Least => Some(lower(place, stack)),
        Instr::Greatest => Some(raise(place, stack)),
        Instr::ToLocal(op, i) => Some(to_local(op, i, place, stack, env)),
        Instr::ToField(op, i) => Some(to_field(op, i, place, stack, env)),
        Instr::ToActive => Some(to_active(place, stack, env)),
        Instr::Emit(i) => Some(emit(i, env.key, place, stack, emits)),
        Instr::Jump(target) => Some(target as usize),
        Instr::JumpUnless(target) => Some(fork(target, place, stack)),
        Instr::Break => None,
    }
}

#[inline]
fn slot_at(i: u8, env: &Env) -> Option<i64>
    requires { i < length env.now.slots.items }
    ensures { result ≡ slot_value (what.Slot i) env.now }
{
    env.slots[usize::from(i)]
}

#[inline]
fn drawn(number: u8, env: &Env) -> i64
    requires { CanDraw env.now }
    ensures { result ≡ pos (draw_word env.now.draws env.now.round env.now.id.0 number) }
{
    i64::from(draw(env.draws, env.round, env.id, number))
}
