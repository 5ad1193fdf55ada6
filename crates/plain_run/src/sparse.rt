//! A sparse round at a vertex.
ghost use Rattle.std.specs.Prelude.{All, IsTrue, ◌≡◌, ◌<◌, ◌≤◌, length};
ghost use Rattle.std.specs.List.{flat_map, list_all};
ghost use Rattle.vert_base.specs.Neighbours.{source};
ghost use Rattle.vert_tree.specs.Places.{expr_placed, sparse_placed};
ghost use Rattle.slot_merge.specs.Partials.{with_emissions};
ghost use Rattle.vert_eval.specs.Values.{CanDraw, counts_of};
ghost use Rattle.vert_eval.specs.Rounds.{emitted_over, received, sender_at, sent_by, slot_ops};
ghost use Rattle.plain_run.specs.Views.{IsReady, counts_in, members_at, program_of, scene_of};

use super::run::run_body;
use super::scene::{Scene, enter_bare, enter_member};
use arrayvec::ArrayVec;
use slot_merge::Emits;
use vert_base::Edge;
use vert_eval::{Env, eval, truth};
use vert_tree::Sparse;

/// Writes what the sends are at a sender.
fn put_sends(sparse: &Sparse, sender: &Env, words: &mut ArrayVec<i64, 8>)
    requires few { length sparse.now.sends.items ≤ 8 }
    requires names { IsTrue (list_all (λ d. expr_placed
        (counts_of sender.now) d.value) sparse.now.sends.items) }
    requires draws { CanDraw sender.now }
    ensures { words.new.items ≡ sent_by sparse.now sender.now }
{
    words.clear();
    for decl in &sparse.sends {
        words.push(eval(&decl.value, sender));
    }
}

/// Runs the body at a receiver, over what one member sends it.
fn receive(
    scene: &Scene,
    sparse: &Sparse,
    v: u32,
    member: &Edge,
    sender: &Env,
    env: &mut Env,
    emits: &mut Emits,
)
    requires ready { IsReady scene.now }
    requires inside { v < scene.now.graph.now.vertices }
    requires source { source member.now < scene.now.graph.now.vertices }
    requires placed { IsTrue (sparse_placed (counts_in scene.now) sparse.now) }
    requires few { length sparse.now.sends.items ≤ 8 }
    requires counts { counts_of sender.now ≡ counts_in scene.now }
    requires draws { CanDraw sender.now }
    requires partials { length emits.old.slots.items ≡ length (program_of scene.now).slots.items }
    ensures emits { let receiver = sender_at (scene_of scene.now)
        (slot_ops (program_of scene.now)) v in
        emits.new.slots.items ≡ with_emissions 0 emits.old.slots.items
        (received (scene_of scene.now) sparse.now member.now sender.now receiver).emitted }
    ensures partials { length emits.new.slots.items ≡ length emits.old.slots.items }
{
    enter_bare(scene, v, env);
    enter_member(scene, member, env);
    put_sends(sparse, sender, &mut env.sends);
    run_body(&sparse.body, env, emits);
}

/// Takes what one member sends, where that is active and its test is true.
fn take_from(
    scene: &Scene,
    sparse: &Sparse,
    v: u32,
    member: &Edge,
    sender: &mut Env,
    env: &mut Env,
    emits: &mut Emits,
)
    requires ready { IsReady scene.now }
    requires inside { v < scene.now.graph.now.vertices }
    requires source { source member.now < scene.now.graph.now.vertices }
    requires placed { IsTrue (sparse_placed (counts_in scene.now) sparse.now) }
    requires few { length sparse.now.sends.items ≤ 8 }
    requires partials { length emits.old.slots.items ≡ length (program_of scene.now).slots.items }
    ensures emits { let receiver = sender_at (scene_of scene.now)
        (slot_ops (program_of scene.now)) v in
        emits.new.slots.items ≡ with_emissions 0 emits.old.slots.items
        (emitted_over (scene_of scene.now)
        (slot_ops (program_of scene.now)) sparse.now receiver member.now) }
    ensures partials { length emits.new.slots.items ≡ length emits.old.slots.items }
{
    if !scene.rows[member.from.0 as usize].active {
        return;
    }
    enter_bare(scene, member.from.0, sender);
    if truth(eval(&sparse.when_test, sender)) {
        receive(scene, sparse, v, member, sender, env, emits);
    }
}

/// Takes what some members send, one after another.
fn take_all(
    scene: &Scene,
    sparse: &Sparse,
    v: u32,
    members: &[Edge],
    sender: &mut Env,
    env: &mut Env,
    emits: &mut Emits,
)
    requires ready { IsReady scene.now }
    requires inside { v < scene.now.graph.now.vertices }
    requires sources { All (λ e. source e < scene.now.graph.now.vertices) members.now }
    requires placed { IsTrue (sparse_placed (counts_in scene.now) sparse.now) }
    requires few { length sparse.now.sends.items ≤ 8 }
    requires partials { length emits.old.slots.items ≡ length (program_of scene.now).slots.items }
    ensures emits { let receiver = sender_at (scene_of scene.now)
        (slot_ops (program_of scene.now)) v in
        emits.new.slots.items ≡ with_emissions 0 emits.old.slots.items
        (flat_map (emitted_over (scene_of scene.now)
        (slot_ops (program_of scene.now)) sparse.now receiver) members.now) }
    ensures partials { length emits.new.slots.items ≡ length emits.old.slots.items }
{
    for member in members {
        take_from(scene, sparse, v, member, sender, env, emits);
    }
}

/// Takes what the members send. Both environments are entered as they are needed.
pub(crate) fn run_sparse(
    scene: &Scene,
    sparse: &Sparse,
    v: u32,
    sender: &mut Env,
    env: &mut Env,
    emits: &mut Emits,
)
    requires ready { IsReady scene.now }
    requires inside { v < scene.now.graph.now.vertices }
    requires placed { IsTrue (sparse_placed (counts_in scene.now) sparse.now) }
    requires few { length sparse.now.sends.items ≤ 8 }
    requires partials { length emits.old.slots.items ≡ length (program_of scene.now).slots.items }
    ensures emits { let receiver = sender_at (scene_of scene.now)
        (slot_ops (program_of scene.now)) v in
        emits.new.slots.items ≡ with_emissions 0 emits.old.slots.items
        (flat_map (emitted_over (scene_of scene.now)
        (slot_ops (program_of scene.now)) sparse.now receiver) (members_at scene.now v)) }
    ensures partials { length emits.new.slots.items ≡ length emits.old.slots.items }
{
    let members = scene.graph.members_of(v);
    take_all(scene, sparse, v, members.first, sender, env, emits);
    take_all(scene, sparse, v, members.rest, sender, env, emits);
}
