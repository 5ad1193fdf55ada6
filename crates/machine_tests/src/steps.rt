//! The calls that run code and expressions, each of which tests first that every name has its place.

ghost use Rattle.std.specs.Prelude.{◌≡◌, ◌+◌, ◌<◌, ◌^◌, All, IsTrue, length};
ghost use Rattle.vert_tree.specs.Places.{expr_placed, is_named, is_other_field, is_slot, lets_placed};
ghost use Rattle.vert_eval.specs.Values.{counts_of};
ghost use Rattle.vert_code.specs.Blocks.{list_of};
ghost use Rattle.vert_code.specs.Valid.{has_names, list_names};

use arrayvec::ArrayVec;
use slot_merge::Emits;
use std::process::Abort;
use symple_face::{Feed, ListFeed};
use vert_base::{Neighbour, Row};
use vert_code::{Block, Code, Instr};
use vert_eval::{Env, Flow, eval};
use vert_tree::{Decl, Expr, Node, What};
use vert_vm::{step_block, step_segment};

/// Whether a name has its place in an environment with so many locals.
fn is_named(name: What, env: &Env, locals: usize) -> bool
    ensures { result ≡ is_named (record (counts_of env.now) { locals = locals }) name }
{
    match name {
        What::Field(i) => usize::from(i) < env.row.words.len(),
        What::Local(i) => usize::from(i) < locals,
        What::Send(i) => usize::from(i) < env.sends.len(),
        What::Total(i) => usize::from(i) < env.totals.len(),
        What::Unread | What::Slot(_) => false,
    }
}

fn is_slot(name: What, env: &Env) -> bool
    ensures { result ≡ is_slot (counts_of env.now) name }
{
    match name {
        What::Slot(i) => usize::from(i) < env.slots.len(),
        What::Unread | What::Field(_) | What::Local(_) | What::Send(_) | What::Total(_) => false,
    }
}

fn is_other_field(name: What, env: &Env) -> bool
    ensures { result ≡ is_other_field (counts_of env.now) name }
{
    match name {
        What::Field(i) => usize::from(i) < env.other_row.words.len(),
        What::Unread | What::Slot(_) | What::Local(_) | What::Send(_) | What::Total(_) => false,
    }
}

/// Whether each name of an expression has its place in an environment with so many locals.
fn is_placed(e: &Expr, env: &Env, locals: usize) -> bool
    ensures { result ≡ expr_placed (record (counts_of env.now) { locals = locals }) e.now }
{
    match &e.node {
        Node::Int(_) | Node::Bool(_) | Node::Word(_) | Node::OtherWord(_) => true,
        Node::Name(name) => is_named(name.what, env, locals),
        Node::Got(name) | Node::Value(name) => is_slot(name.what, env),
        Node::OtherField(name) => is_other_field(name.what, env),
        Node::Draw(_, number) => *number < 256,
        Node::Neg(a) | Node::Not(a) | Node::Group(a) => is_placed(a, env, locals),
        Node::Binary(_, a, b) => is_placed(a, env, locals) && is_placed(b, env, locals),
        Node::Least(a, b) | Node::Greatest(a, b) => is_placed(a, env, locals)
            && is_placed(b, env, locals),
        Node::Cond(test, a, b) => {
            is_placed(test, env, locals) && (is_placed(a, env, locals) && is_placed(b, env, locals))
        }
    }
}

/// Whether each name of lets has its place, where so many stand before them.
pub(crate) fn are_placed(lets: &[Decl], env: &Env, locals: usize) -> bool
    requires { locals + length lets.now < 2 ^ 32 }
    ensures { result ≡ lets_placed (record (counts_of env.now) { locals = locals }) lets.now }
{
    match lets {
        [] => true,
        [first, rest @ ..] => {
            is_placed(&first.value, env, locals) && are_placed(rest, env, locals + 1)
        }
    }
}

fn has_names(instr: Instr, env: &Env) -> bool
    ensures { result ≡ has_names (counts_of env.now) instr }
{
    match instr {
        Instr::Field(i) | Instr::ToField(_, i) => usize::from(i) < env.row.words.len(),
        Instr::Local(i) | Instr::ToLocal(_, i) => usize::from(i) < env.locals.len(),
        Instr::Sent(i) => usize::from(i) < env.sends.len(),
        Instr::Total(i) => usize::from(i) < env.totals.len(),
        Instr::Got(i) | Instr::Value(i) | Instr::Emit(i) => usize::from(i) < env.slots.len(),
        Instr::OtherField(i) => usize::from(i) < env.other_row.words.len(),
        Instr::Push(_) | Instr::Word(_) | Instr::OtherWord(_) | Instr::Draw(_) => true,
        Instr::Neg | Instr::Not | Instr::Op(_) | Instr::Least | Instr::Greatest => true,
        Instr::ToActive | Instr::Jump(_) | Instr::JumpUnless(_) | Instr::Break => true,
    }
}

/// Whether a list names only what the environment has.
fn list_names(list: &[Instr], env: &Env) -> bool
    ensures { result ≡ list_names (counts_of env.now) list.now }
{
    match list {
        [] => true,
        [first, rest @ ..] => has_names(*first, env) && list_names(rest, env),
    }
}

fn list_at(code: &Code, block: Block) -> &[Instr]
    ensures { result.now ≡ list_of code.now block }
{
    match block {
        Block::Loop => &code.blocks[0],
        Block::Tail => &code.blocks[1],
        Block::SparseBody => &code.blocks[2],
        Block::UpdateBody => &code.blocks[3],
    }
}

fn are_wide(members: &[(Neighbour, Row)], words: usize) -> bool
    ensures { IsTrue result → All (λ m. length m.1.words.items ≡ words) members.now }
{
    members.iter().all(|member| member.1.words.len() == words)
}

/// The value of an expression.
pub(crate) fn value(rt: &impl Abort, e: &Expr, env: &Env) -> i64 {
    assert!(rt; env.round <= 10_000 && env.id.0 < 1 << 24);
    assert!(rt; is_placed(e, env, env.locals.len()));
    eval(e, env)
}

/// Runs a block once.
pub(crate) fn step(rt: &impl Abort, code: &Code, block: Block, env: &mut Env, emits: &mut Emits) {
    assert!(rt; env.round <= 10_000 && env.id.0 < 1 << 24);
    assert!(rt; emits.slots.len() == env.slots.len());
    assert!(rt; list_names(list_at(code, block), env));
    step_block(code, block, env, emits);
}

/// How many neighbours a feed still gives, which are at most so many.
fn left_in(feed: &mut ListFeed, most: usize) -> usize {
    let mut row = Row {
        words: ArrayVec::new(),
        active: false,
    };
    for given in 0..most {
        if feed.next(&mut row).is_none() {
            return given;
        }
    }
    most
}

/// Runs the loop body over the members: how it ended, and how many were read.
pub(crate) fn walk(
    rt: &impl Abort,
    code: &Code,
    members: Vec<(Neighbour, Row)>,
    env: &mut Env,
    emits: &mut Emits,
) -> (Flow, usize) {
    let count = members.len();
    let words = env.row.words.len();
    assert!(rt; env.round <= 10_000 && env.id.0 < 1 << 24);
    assert!(rt; emits.slots.len() == env.slots.len());
    assert!(rt; env.other_row.words.len() == words && are_wide(&members, words));
    assert!(rt; list_names(list_at(code, Block::Loop), env));
    let mut feed = ListFeed::new(members);
    let flow = step_segment(code, env, emits, &mut feed);
    (flow, count.saturating_sub(left_in(&mut feed, count)))
}
