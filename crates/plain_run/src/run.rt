//! One run of a list of statements.
ghost use Rattle.std.specs.Prelude.{IsTrue, ◌≡◌, ◌<◌, ℕ, length};
ghost use Rattle.vert_tree.specs.Places.{Rights, body_placed, is_target, stmt_placed};
ghost use Rattle.slot_merge.specs.Partials.{with_emissions};
ghost use Rattle.vert_eval.specs.Values.{CanDraw, counts_of};
ghost use Rattle.vert_eval.specs.Runs.{act_of, emission, noted, run, with_target};
ghost use Rattle.plain_run.specs.Frames.{SameCounts};

use slot_merge::Emits;
use vert_eval::{Env, Flow, assign, eval, put, truth, word_in};
use vert_tree::{AssignOp, Stmt, What};

/// Runs the statements, up to a break.
#[cycle(run)]
pub(crate) fn run_body(body: &[Stmt], env: &mut Env, emits: &mut Emits) -> Flow
    requires names { (rights : Rights) × IsTrue (body_placed rights (counts_of env.old) body.now) }
    requires draws { CanDraw env.old }
    requires partials { length emits.old.slots.items ≡ length env.old.slots.items }
    ensures env { env.new ≡ (run body.now env.old).env }
    ensures flow { result ≡ (run body.now env.old).flow }
    ensures emits { emits.new.slots.items ≡ with_emissions env.old.key emits.old.slots.items
        (run body.now env.old).emitted }
    ensures kept { SameCounts env.old env.new }
    ensures partials { length emits.new.slots.items ≡ length emits.old.slots.items }
{
    for stmt in body {
        match run_stmt(stmt, env, emits) {
            Flow::Broke => return Flow::Broke,
            Flow::Going => {}
        }
    }
    Flow::Going
}

#[cycle(run)]
fn run_stmt(stmt: &Stmt, env: &mut Env, emits: &mut Emits) -> Flow
    requires names { (rights : Rights) × IsTrue (stmt_placed rights (counts_of env.old) stmt.now) }
    requires draws { CanDraw env.old }
    requires partials { length emits.old.slots.items ≡ length env.old.slots.items }
    ensures env { env.new ≡ (act_of stmt.now env.old).env }
    ensures flow { result ≡ (act_of stmt.now env.old).flow }
    ensures emits { emits.new.slots.items ≡ with_emissions env.old.key emits.old.slots.items
        (act_of stmt.now env.old).emitted }
    ensures kept { SameCounts env.old env.new }
    ensures partials { length emits.new.slots.items ≡ length emits.old.slots.items }
{
    match stmt {
        Stmt::Assign(target, op, e) => {
            let word = eval(e, env);
            assign_to(target.what, *op, word, env);
            Flow::Going
        }
        Stmt::SetActive(_, e) => {
            env.next_active = truth(eval(e, env));
            Flow::Going
        }
        Stmt::If(_, test, held, otherwise) => {
            if truth(eval(test, env)) {
                run_body(held, env, emits)
            } else {
                match otherwise {
                    Some(body) => run_body(body, env, emits),
                    None => Flow::Going,
                }
            }
        }
        Stmt::Emit(_, slot, e) => {
            let word = eval(e, env);
            emit(slot.what, word, env.key, emits);
            Flow::Going
        }
        Stmt::Break(_) => Flow::Broke,
    }
}

fn assign_to(target: What, op: AssignOp, word: i64, env: &mut Env)
    requires { (rights : Rights) × IsTrue (is_target rights (counts_of env.old) target) }
    ensures value { env.new ≡ with_target target op word env.old }
    ensures kept { SameCounts env.old env.new }
{
    match target {
        What::Field(i) => {
            let left = assign(op, word_in(&env.row.words, i), word);
            put(&mut env.row.words, i, left);
        }
        What::Local(i) => {
            let left = assign(op, word_in(&env.locals, i), word);
            put(&mut env.locals, i, left);
            env.touched = note(op, i, env.touched);
        }
        _ => unreachable!(),
    }
}

fn note(op: AssignOp, i: u8, touched: u8) -> u8
    requires { i < 8 }
    ensures { result ≡ noted op i touched }
{
    match op {
        AssignOp::Set => touched,
        _ => touched | (1 << i),
    }
}

fn emit(slot: What, word: i64, key: u32, emits: &mut Emits)
    requires { (i : ℕ) × (slot ≡ What.Slot i) × (i < length emits.old.slots.items) }
    ensures value { emits.new.slots.items ≡ with_emissions key emits.old.slots.items
        (emission slot word) }
    ensures kept { length emits.new.slots.items ≡ length emits.old.slots.items }
{
    match slot {
        What::Slot(i) => {
            let mut partial = emits.slots[usize::from(i)];
            partial.add(key, word);
            put(&mut emits.slots, i, partial);
        }
        _ => unreachable!(),
    }
}
