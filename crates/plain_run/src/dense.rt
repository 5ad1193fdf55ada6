//! A dense round at a vertex.
ghost use Rattle.std.specs.Prelude.{IsTrue, ◌≡◌, ◌<◌, ◌≤◌, ◌+◌, ◌∷◌, [], ℕ, All, length, map, take};
ghost use Rattle.vert_base.specs.Neighbours.{source};
ghost use Rattle.vert_tree.specs.Places.{Rights, body_placed, dense_placed, lets_placed};
ghost use Rattle.slot_merge.specs.Partials.{with_emissions};
ghost use Rattle.vert_eval.specs.Values.{CanDraw, counts_of};
ghost use Rattle.vert_eval.specs.declared.environment.Flow.TheVariants.{Going};
ghost use Rattle.vert_eval.specs.Rounds.{dense_at, dense_block, loop, member_act, with_lets};
ghost use Rattle.plain_run.specs.Frames.{SameDraws, SameCounts};
ghost use Rattle.plain_run.specs.Views.{AreInside, AreWide, IsReady, counts_in, members_at, members_in, scene_of};

use super::graph::Members;
use super::run::run_body;
use super::scene::{Scene, enter_member};
use slot_merge::Emits;
use vert_base::Edge;
use vert_eval::{Env, Flow, eval, truth};
use vert_tree::{Decl, Dense, Stmt};

fn run_lets(lets: &[Decl], env: &mut Env)
    requires room { length env.old.locals.items + length lets.now ≤ 8 }
    requires names { IsTrue (lets_placed (counts_of env.old) lets.now) }
    requires draws { CanDraw env.old }
    ensures value { env.new ≡ with_lets lets.now env.old }
    ensures counts { counts_of env.new ≡ record
        (counts_of env.old) { locals = length env.old.locals.items + length lets.now } }
    ensures same { SameDraws env.old env.new }
{
    for decl in lets {
        let word = eval(&decl.value, env);
        env.locals.push(word);
    }
}

/// Runs the loop body on one member.
fn visit(scene: &Scene, body: &[Stmt], member: &Edge, env: &mut Env, emits: &mut Emits) -> Flow
    requires inside { source member.now < scene.now.graph.now.vertices }
    requires rows { length scene.now.rows.now ≡ scene.now.graph.now.vertices }
    requires wide { AreWide (length env.old.other_row.words.items) scene.now.rows.now }
    requires names { (rights : Rights) × IsTrue (body_placed rights (counts_of env.old) body.now) }
    requires draws { CanDraw env.old }
    requires partials { length emits.old.slots.items ≡ length env.old.slots.items }
    ensures env { env.new ≡ (member_act (scene_of scene.now) body.now member.now env.old).env }
    ensures flow { result ≡ (member_act (scene_of scene.now) body.now member.now env.old).flow }
    ensures emits { emits.new.slots.items ≡ with_emissions env.old.key emits.old.slots.items
        (member_act (scene_of scene.now) body.now member.now env.old).emitted }
    ensures kept { SameCounts env.old env.new }
    ensures partials { length emits.new.slots.items ≡ length emits.old.slots.items }
{
    enter_member(scene, member, env);
    run_body(body, env, emits)
}

/// How a loop ended: how many members were read, and whether it broke.
#[derive(Clone, Copy)]
struct Looped {
    read: usize,
    flow: Flow,
}

/// Runs the loop over some members.
fn run_members(
    scene: &Scene,
    body: &[Stmt],
    members: &[Edge],
    env: &mut Env,
    emits: &mut Emits,
) -> Looped
    requires inside { All (λ e. source e < scene.now.graph.now.vertices) members.now }
    requires rows { length scene.now.rows.now ≡ scene.now.graph.now.vertices }
    requires wide { AreWide (length env.old.other_row.words.items) scene.now.rows.now }
    requires names { (rights : Rights) × IsTrue (body_placed rights (counts_of env.old) body.now) }
    requires draws { CanDraw env.old }
    requires partials { length emits.old.slots.items ≡ length env.old.slots.items }
    ensures env { env.new ≡ (loop (scene_of scene.now) body.now members.now env.old).env }
    ensures flow { result.flow ≡ (loop (scene_of scene.now) body.now members.now env.old).flow }
    ensures emits { emits.new.slots.items ≡ with_emissions env.old.key emits.old.slots.items
        (loop (scene_of scene.now) body.now members.now env.old).emitted }
    ensures within { result.read ≤ length members.now }
    ensures whole { result.flow ≡ Going → result.read ≡ length members.now }
    ensures reads { map source (take result.read members.now)
        ≡ (loop (scene_of scene.now) body.now members.now env.old).reads }
    ensures kept { SameCounts env.old env.new }
    ensures partials { length emits.new.slots.items ≡ length emits.old.slots.items }
{
    let mut read = 0;
    for member in members {
        read += 1;
        match visit(scene, body, member, env, emits) {
            Flow::Broke => {
                return Looped {
                    read,
                    flow: Flow::Broke,
                };
            }
            Flow::Going => {}
        }
    }
    Looped {
        read,
        flow: Flow::Going,
    }
}

/// Runs the loop: how many members were read.
fn run_loop(
    scene: &Scene,
    body: &[Stmt],
    members: &Members,
    env: &mut Env,
    emits: &mut Emits,
) -> usize
    requires inside { AreInside scene.now.graph.now.vertices members.now }
    requires rows { length scene.now.rows.now ≡ scene.now.graph.now.vertices }
    requires wide { AreWide (length env.old.other_row.words.items) scene.now.rows.now }
    requires names { (rights : Rights) × IsTrue (body_placed rights (counts_of env.old) body.now) }
    requires draws { CanDraw env.old }
    requires partials { length emits.old.slots.items ≡ length env.old.slots.items }
    ensures env { env.new ≡ (loop (scene_of scene.now) body.now
        (members_in members.now) env.old).env }
    ensures emits { emits.new.slots.items ≡ with_emissions env.old.key emits.old.slots.items
        (loop (scene_of scene.now) body.now (members_in members.now) env.old).emitted }
    ensures within { result ≤ length (members_in members.now) }
    ensures reads { map source (take result (members_in members.now))
        ≡ (loop (scene_of scene.now) body.now (members_in members.now) env.old).reads }
    ensures kept { SameCounts env.old env.new }
    ensures partials { length emits.new.slots.items ≡ length emits.old.slots.items }
{
    let first = run_members(scene, body, members.first, env, emits);
    match first.flow {
        Flow::Broke => first.read,
        Flow::Going => first.read + run_members(scene, body, members.rest, env, emits).read,
    }
}

/// The lets, the loop and the tail: how many members were read.
fn run_block(scene: &Scene, dense: &Dense, v: u32, env: &mut Env, emits: &mut Emits) -> usize
    requires ready { IsReady scene.now }
    requires inside { v < scene.now.graph.now.vertices }
    requires placed { IsTrue (dense_placed (counts_in scene.now) dense.now) }
    requires few { length dense.now.lets.items ≤ 8 }
    requires start { counts_of env.old ≡ counts_in scene.now }
    requires draws { CanDraw env.old }
    requires partials { length emits.old.slots.items ≡ length env.old.slots.items }
    ensures emits { emits.new.slots.items
        ≡ with_emissions env.old.key emits.old.slots.items
        (dense_block (scene_of scene.now) dense.now (members_at scene.now v) env.old).emitted }
    ensures within { result ≤ length (members_at scene.now v) }
    ensures reads { map source (take result (members_at scene.now v))
        ≡ (dense_block (scene_of scene.now) dense.now (members_at scene.now v) env.old).reads }
{
    run_lets(&dense.lets, env);
    let read = run_loop(scene, &dense.body, &scene.graph.members_of(v), env, emits);
    run_body(&dense.tail, env, emits);
    read
}

/// Runs the block where the test is true: how many members were read.
pub(crate) fn run_dense(
    scene: &Scene,
    dense: &Dense,
    v: u32,
    env: &mut Env,
    emits: &mut Emits,
) -> usize
    requires ready { IsReady scene.now }
    requires inside { v < scene.now.graph.now.vertices }
    requires placed { IsTrue (dense_placed (counts_in scene.now) dense.now) }
    requires few { length dense.now.lets.items ≤ 8 }
    requires start { counts_of env.old ≡ counts_in scene.now }
    requires draws { CanDraw env.old }
    requires partials { length emits.old.slots.items ≡ length env.old.slots.items }
    ensures emits { emits.new.slots.items
        ≡ with_emissions env.old.key emits.old.slots.items
        (dense_at (scene_of scene.now) dense.now (members_at scene.now v) env.old).emitted }
    ensures within { result ≤ length (members_at scene.now v) }
    ensures reads { map source (take result (members_at scene.now v))
        ≡ (dense_at (scene_of scene.now) dense.now (members_at scene.now v) env.old).reads }
{
    if truth(eval(&dense.when_test, env)) {
        run_block(scene, dense, v, env, emits)
    } else {
        0
    }
}
