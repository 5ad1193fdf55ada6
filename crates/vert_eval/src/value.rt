ghost use Rattle.std.specs.Prelude.{IsTrue, ◌≡◌, ◌<◌, pos};
ghost use Rattle.draw_source.specs.Draws.{draw_word};
ghost use Rattle.vert_tree.specs.Places.{is_named, is_slot, is_other_field, expr_placed};
ghost use Rattle.vert_eval.specs.Values.{CanDraw, counts_of, value_of, builtin, other_builtin, named, slot_value, other_field};

use super::Env;
use super::words::{apply, negated, truth, word};
use draw_source::draw;
use vert_tree::{Builtin, Expr, Node, What};

/// The value of an expression whose names all have a place in the environment.
pub fn eval(e: &Expr, env: &Env) -> i64
    requires names { IsTrue (expr_placed (counts_of env.now) e.now) }
    requires draws { CanDraw env.now }
    ensures { result ≡ value_of e.now env.now }
{
    match &e.node {
        Node::Int(x) => *x,
        Node::Bool(b) => word(*b),
        Node::Word(builtin) => builtin_word(*builtin, env),
        Node::Name(name) => named_word(name.what, env),
        Node::Got(name) => word(slot_word(name.what, env).is_some()),
        Node::Value(name) => slot_word(name.what, env).unwrap_or(0),
        Node::OtherField(name) => other_named(name.what, env),
        Node::OtherWord(builtin) => other_word(*builtin, env),
        Node::Draw(_, tag) => drawn(*tag, env),
        Node::Neg(a) => negated(eval(a, env)),
        Node::Not(a) => word(!truth(eval(a, env))),
        Node::Binary(op, a, b) => {
            let x = eval(a, env);
            let y = eval(b, env);
            apply(*op, x, y)
        }
        Node::Cond(test, a, b) => {
            if truth(eval(test, env)) {
                eval(a, env)
            } else {
                eval(b, env)
            }
        }
        Node::Least(a, b) => {
            let x = eval(a, env);
            let y = eval(b, env);
            x.min(y)
        }
        Node::Greatest(a, b) => {
            let x = eval(a, env);
            let y = eval(b, env);
            x.max(y)
        }
        Node::Group(a) => eval(a, env),
    }
}

/// The value of a word of the language at the vertex.
#[inline]
pub fn builtin_word(what: Builtin, env: &Env) -> i64
    ensures { result ≡ builtin what env.now }
{
    match what {
        Builtin::Id => i64::from(env.id.0),
        Builtin::Count => i64::from(env.n),
        Builtin::Round => i64::from(env.round),
        Builtin::InDeg => i64::from(env.indeg),
        Builtin::OutDeg => i64::from(env.outdeg),
        Builtin::Active => word(env.row.active),
        Builtin::Weight => env.other.weight,
    }
}

/// The value of a word of the language behind `u.`, which is 0 for those that do not stand there.
#[inline]
pub fn other_word(what: Builtin, env: &Env) -> i64
    ensures { result ≡ other_builtin what env.now }
{
    match what {
        Builtin::Id => i64::from(env.other.id.0),
        Builtin::InDeg => i64::from(env.other.indeg),
        Builtin::OutDeg => i64::from(env.other.outdeg),
        Builtin::Active => word(env.other_row.active),
        _ => 0,
    }
}

fn named_word(name: What, env: &Env) -> i64
    requires { IsTrue (is_named (counts_of env.now) name) }
    ensures { result ≡ named name env.now }
{
    match name {
        What::Field(i) => env.row.words[usize::from(i)],
        What::Local(i) => env.locals[usize::from(i)],
        What::Send(i) => env.sends[usize::from(i)],
        What::Total(i) => env.totals[usize::from(i)],
        _ => unreachable!(),
    }
}

fn slot_word(name: What, env: &Env) -> Option<i64>
    requires { IsTrue (is_slot (counts_of env.now) name) }
    ensures { result ≡ slot_value name env.now }
{
    match name {
        What::Slot(i) => env.slots[usize::from(i)],
        _ => unreachable!(),
    }
}

fn other_named(name: What, env: &Env) -> i64
    requires { IsTrue (is_other_field (counts_of env.now) name) }
    ensures { result ≡ other_field name env.now }
{
    match name {
        What::Field(i) => env.other_row.words[usize::from(i)],
        _ => unreachable!(),
    }
}

fn drawn(tag: u64, env: &Env) -> i64
    requires draws { CanDraw env.now }
    requires byte { tag < 256 }
    ensures { result ≡ pos (draw_word env.now.draws env.now.round env.now.id.0 tag) }
{
    i64::from(draw(env.draws, env.round, env.id, tag as u8))
}
