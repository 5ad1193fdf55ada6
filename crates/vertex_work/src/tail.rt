//! The tail of a dense round at a vertex.

ghost use Rattle.std.specs.Prelude.{IsTrue, ◌≡◌, ◌≤◌, ◌+◌, Some, length};
ghost use Rattle.vert_tree.specs.Places.{lets_placed, round_counts};
ghost use Rattle.carry_analysis.specs.declared.classes.Class.{Class};
ghost use Rattle.vert_eval.specs.Rounds.{with_lets};
ghost use Rattle.vert_eval.specs.Values.{CanDraw, counts_of};
ghost use Rattle.instrument.specs.Loops.{loop_split};
ghost use Rattle.instrument.specs.Segments.{left_after};
ghost use Rattle.symple_face.specs.CoreClose.{values_of};
ghost use Rattle.symple_face.specs.Ring.{closing, with_operand};
ghost use Rattle.vertex_work.specs.Tails.{IsCodeOf, SameRound, closing_env, closing_word, lets_behind, tail_slots};

use arrayvec::ArrayVec;
use carry_analysis::Class;
use instrument::{Split, SplitLoop};
use slot_merge::{Emits, Partial};
use vert_base::Combine;
use vert_code::{Block, Code};
use vert_eval::{Env, eval, truth};
use vert_tree::{Decl, Dense};
use vert_vm::{Stack, step_block_over};

/// Runs the tail at the vertex that the environment is entered at, where the test is true there.
/// What it emits is added to the slots under the key of the environment. The words carried are
/// those that the last machine of the chunk left, none where its loop hasn't begun, and `lets` are
/// the partials of the reduced lets.
pub(crate) fn run_tail(
    code: &Code,
    split: &Split,
    dense: &Dense,
    carried: &[i64],
    lets: &[Partial],
    env: &mut Env,
    emits: &mut Emits,
    stack: &mut Stack,
)
    requires block { split.now.program.program.dense ≡ Some dense.now }
    requires code { IsCodeOf split.now.program.program code.now }
    requires counts { counts_of env.old ≡ round_counts split.now.program.program }
    requires draws { CanDraw env.old }
    requires slots { length emits.old.slots.items ≡ length env.old.slots.items }
    ensures slots { emits.new.slots.items
        ≡ tail_slots dense.now carried.now lets.now env.old emits.old.slots.items }
    ensures round { SameRound env.old env.new }
    ensures count { length emits.new.slots.items ≡ length emits.old.slots.items }
{
    if !truth(eval(&dense.when_test, env)) {
        return;
    }
    if let Some(split) = &split.dense {
        close_lets(split, dense, carried, lets, env);
        step_block_over(code, Block::Tail, env, emits, stack);
    }
}

/// Gives the lets the words that they have when the loop is done.
fn close_lets(split: &SplitLoop, dense: &Dense, carried: &[i64], lets: &[Partial], env: &mut Env)
    requires split { split.now ≡ loop_split dense.now }
    requires few { length dense.now.lets.items ≤ 8 }
    requires names { IsTrue (lets_placed (record (counts_of env.old) { locals = 0 })
        dense.now.lets.items) }
    requires draws { CanDraw env.old }
    ensures env { env.new ≡ closing_env dense.now carried.now lets.now env.old }
    ensures counts { counts_of env.new
        ≡ record (counts_of env.old) { locals = length dense.now.lets.items } }
{
    env.locals.clear();
    add_lets(&dense.lets, env);
    close_words(
        split.classes.locals.as_slice(),
        carried,
        lets,
        &mut env.locals,
    );
}

/// Puts lets behind the locals that there are, each with its own word.
fn add_lets(lets: &[Decl], env: &mut Env)
    requires room { length env.old.locals.items + length lets.now ≤ 8 }
    requires names { IsTrue (lets_placed (counts_of env.old) lets.now) }
    requires draws { CanDraw env.old }
    ensures lets { env.new ≡ with_lets lets.now env.old }
    ensures counts { counts_of env.new
        ≡ record (counts_of env.old) { locals = length env.old.locals.items + length lets.now } }
{
    for decl in lets {
        let word = eval(&decl.value, env);
        env.locals.push(word);
    }
}

/// Writes the words of the lets for the tail over their own ones.
fn close_words(classes: &[Class], carried: &[i64], lets: &[Partial], words: &mut ArrayVec<i64, 8>)
    requires each { length classes.now ≡ length words.old.items }
    ensures items { words.new.items
        ≡ closing classes.now words.old.items carried.now (values_of lets.now) }
    ensures count { length words.new.items ≡ length words.old.items }
{
    let mut words_left = carried;
    let mut lets_left = lets;
    for (i, class) in classes.iter().enumerate() {
        words[i] = closing_word(*class, words_left, lets_left, words[i]);
        words_left = words_behind(*class, words_left);
        lets_left = lets_behind(*class, lets_left);
    }
}

/// The word of a let for the tail, given the words carried and the partials for it and the lets
/// behind it.
#[inline]
fn closing_word(class: Class, carried: &[i64], lets: &[Partial], own: i64) -> i64
    ensures { result ≡ closing_word class carried.now (values_of lets.now) own }
{
    match (class, carried, lets) {
        (Class::Carried, [word, ..], _) => *word,
        (Class::Reduced(op), _, [partial, ..]) => with_operand(op, own, partial.value),
        _ => own,
    }
}

/// The word of a reduced let with what came for it.
fn with_operand(op: Combine, own: i64, came: Option<i64>) -> i64
    ensures { result ≡ with_operand op own came }
{
    let Some(word) = came else {
        return own;
    };
    match op {
        Combine::Min => own.min(word),
        Combine::Max => own.max(word),
        Combine::Sum => own.wrapping_add(word),
        Combine::First => own,
    }
}

/// The words carried for the lets behind one.
#[inline]
fn words_behind(class: Class, carried: &[i64]) -> &[i64]
    ensures { result.now ≡ left_after class carried.now }
{
    match (class, carried) {
        (Class::Carried, [_, rest @ ..]) => rest,
        _ => carried,
    }
}

/// The partials for the lets behind one.
#[inline]
fn lets_behind(class: Class, lets: &[Partial]) -> &[Partial]
    ensures { result.now ≡ lets_behind class lets.now }
{
    match (class, lets) {
        (Class::Reduced(_), [_, rest @ ..]) => rest,
        _ => lets,
    }
}
