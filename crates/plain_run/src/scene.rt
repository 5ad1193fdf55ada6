//! What stands when a round begins, and the environment in which its vertices work.
ghost use Rattle.std.specs.Prelude.{◌≡◌, ◌<◌, ◌≤◌, [], length, map};
ghost use Rattle.vert_base.specs.declared.limits.TheConstants.{ROUNDS};
ghost use Rattle.vert_base.specs.Neighbours.{source};
ghost use Rattle.vert_eval.specs.Values.{CanDraw, counts_of};
ghost use Rattle.vert_eval.specs.Rounds.{at_member, env_at, neighbour_of, row_at, sender_at, slot_ops};
ghost use Rattle.plain_run.specs.Views.{IsReady, counts_in, program_of, scene_of};

use super::graph::Graph;
use super::slots::clear_values;
use arrayvec::ArrayVec;
use vert_base::{Edge, Neighbour, Row, VertexId};
use vert_eval::Env;
use vert_tree::Typed;

/// What stands when a round begins.
#[derive(Drop)]
pub(crate) struct Scene<'a> {
    pub program: &'a Typed,
    pub graph: &'a Graph<'a>,
    pub draws: u64,
    pub round: u32,
    pub rows: &'a [Row],
    pub totals: &'a [i64],
}

fn blank_row() -> Row {
    Row {
        words: ArrayVec::new(),
        active: false,
    }
}

/// An environment of no vertex, which is to be entered.
pub(crate) fn blank_env() -> Env {
    Env {
        id: VertexId(0),
        n: 0,
        round: 0,
        indeg: 0,
        outdeg: 0,
        draws: 0,
        row: blank_row(),
        next_active: false,
        locals: ArrayVec::new(),
        touched: 0,
        other: Neighbour {
            id: VertexId(0),
            weight: 0,
            indeg: 0,
            outdeg: 0,
        },
        other_row: blank_row(),
        sends: ArrayVec::new(),
        slots: ArrayVec::new(),
        totals: ArrayVec::new(),
        key: 0,
    }
}

/// Writes a row over another one.
pub(crate) fn copy_row(row: &Row, copy: &mut Row)
    ensures { copy.new ≡ row.now }
{
    copy.words.clear();
    copy.words.try_extend_from_slice(&row.words).unwrap();
    copy.active = row.active;
}

/// Writes the row of a vertex, which is empty where the scene has none.
fn read_row(scene: &Scene, v: u32, row: &mut Row)
    ensures { row.new ≡ row_at scene.now.rows.now v }
{
    match scene.rows.get(v as usize) {
        Some(found) => copy_row(found, row),
        None => {
            row.words.clear();
            row.active = false;
        }
    }
}

fn neighbour(graph: &Graph, u: u32, weight: i64) -> Neighbour
    requires { u < graph.now.vertices }
    ensures { result ≡ neighbour_of graph.now u weight }
{
    Neighbour {
        id: VertexId(u),
        weight,
        indeg: graph.indegree(u),
        outdeg: graph.outdegree(u),
    }
}

/// Makes the environment that of a vertex without slots.
pub(crate) fn enter_vertex(scene: &Scene, v: u32, env: &mut Env)
    requires inside { v < scene.now.graph.now.vertices }
    requires totals { length scene.now.totals.now ≤ 4 }
    requires round { scene.now.round ≤ ROUNDS }
    ensures env { env.new ≡ env_at (scene_of scene.now) v [] }
    ensures draws { CanDraw env.new }
{
    env.other = neighbour(scene.graph, v, 0);
    env.id = env.other.id;
    env.n = scene.graph.vertices();
    env.round = scene.round;
    env.indeg = env.other.indeg;
    env.outdeg = env.other.outdeg;
    env.draws = scene.draws;
    read_row(scene, v, &mut env.row);
    env.next_active = false;
    env.locals.clear();
    env.touched = 0;
    read_row(scene, v, &mut env.other_row);
    env.sends.clear();
    env.slots.clear();
    env.totals.clear();
    env.totals.try_extend_from_slice(scene.totals).unwrap();
    env.key = 0;
}

/// Makes the environment that of a vertex that has no values of the slots.
pub(crate) fn enter_bare(scene: &Scene, v: u32, env: &mut Env)
    requires ready { IsReady scene.now }
    requires inside { v < scene.now.graph.now.vertices }
    ensures env { env.new ≡ sender_at (scene_of scene.now) (slot_ops (program_of scene.now)) v }
    ensures counts { counts_of env.new ≡ counts_in scene.now }
    ensures draws { CanDraw env.new }
{
    enter_vertex(scene, v, env);
    clear_values(&scene.program.program.slots, &mut env.slots);
}

/// Makes a member of the neighbours the one that the environment is at.
pub(crate) fn enter_member(scene: &Scene, member: &Edge, env: &mut Env)
    requires { source member.now < scene.now.graph.now.vertices }
    ensures { env.new ≡ at_member (scene_of scene.now) member.now env.old }
{
    env.other = neighbour(scene.graph, member.from.0, i64::from(member.weight));
    read_row(scene, member.from.0, &mut env.other_row);
}
