// What own vertices send in a sparse round.
ghost use Rattle.std.specs.Prelude.{IsTrue, ◌≡◌, ◌≤◌, ◌<◌, ◌+◌, ◌-◌, ◌/◌, ◌^◌, ◌&&◌, Some, length, map, IfOk, OnOk};
ghost use Rattle.std.specs.List.{list_all};
ghost use Rattle.vert_tree.specs.Places.{expr_placed};
ghost use Rattle.vert_eval.specs.Rounds.{sent_by};
ghost use Rattle.vert_eval.specs.Values.{CanDraw, counts_of, value_of};
ghost use Rattle.vert_eval.specs.Words.{is_set};
ghost use Rattle.body_shape.specs.Push.{push_body};
ghost use Rattle.symple_face.specs.CoreSparse.{sends_at};
ghost use Rattle.machine_parts.specs.Counting.{own_counts};
ghost use Rattle.machine_parts.specs.Neighbours.{ArePlaced};
ghost use Rattle.machine_parts.specs.Sending.{AreSendsPlaced, TellsSends, own_sends};

use crate::environment::{enter, read_row_of};
use crate::rows::Rows;
use arrayvec::ArrayVec;
use body_shape::{put_no_sends, put_send};
use std::alloc::Global;
use symple_face::Degree;
use vert_base::{VertexId, Want};
use vert_eval::{Env, eval, truth};
use vert_tree::Sparse;

/// What some own vertices send, as a push tells it. The own vertices begin at `start`. Each is
/// entered.
pub fn push_body(
    alloc: Global,
    sparse: &Sparse,
    list: &[VertexId],
    rows: &Rows,
    degrees: &[Degree],
    start: u32,
    env: &mut Env,
) -> Result<Vec<u8>, Want>
    requires own { ArePlaced start (length rows.now.rows) list.now }
    requires each { length degrees.now ≡ length rows.now.rows }
    requires ids { start + length rows.now.rows ≤ 2 ^ 24 }
    requires round { env.old.round ≤ 10000 }
    requires few { length sparse.now.sends.items ≤ 8 }
    requires list { length list.now < 2 ^ 32 }
    requires names { AreSendsPlaced (own_counts rows.now.width env.old) sparse.now }
    ensures { IfOk result (λ body. body.items
        ≡ push_body (map (λ v. own_sends sparse.now rows.now.rows degrees.now start env.old
        (v.0 - start)) list.now)) }
{
    let count = list.len();
    let size = count.div_ceil(8) + 8 * sparse.sends.len() * count;
    let mut body = Vec::with_capacity(alloc, size)?;
    put_no_sends(&mut body, count)?;
    'vertices: for at in 0..count {
        let vertex = list[at];
        let place = (vertex.0 - start) as usize;
        read_row_of(rows, place, env);
        enter(env, vertex, &degrees[place], 0);
        tell(&mut body, at, sparse, env)?;
    }
    Ok(body)
}

// Lets a vertex send, where it does.
fn tell(body: &mut Vec<u8>, at: usize, sparse: &Sparse, env: &Env) -> Result<(), Want>
    requires within { at / 8 < length body.old.items }
    requires few { length sparse.now.sends.items ≤ 8 }
    requires names { AreSendsPlaced (counts_of env.now) sparse.now }
    requires draws { CanDraw env.now }
    ensures { OnOk result
        (TellsSends body.old.items at (sends_at (Some sparse.now) env.now) body.new.items) }
{
    if sends(sparse, env) {
        put_send(body, at, sent_words(sparse, env).as_slice())
    } else {
        Ok(())
    }
}

// Whether the vertex of an environment sends.
fn sends(sparse: &Sparse, env: &Env) -> bool
    requires names { IsTrue (expr_placed (counts_of env.now) sparse.now.when_test) }
    requires draws { CanDraw env.now }
    ensures { result ≡ (env.now.row.active && is_set (value_of sparse.now.when_test env.now)) }
{
    env.row.active && truth(eval(&sparse.when_test, env))
}

// The words that it sends.
fn sent_words(sparse: &Sparse, env: &Env) -> ArrayVec<i64, 8>
    requires few { length sparse.now.sends.items ≤ 8 }
    requires names { IsTrue
        (list_all (λ d. expr_placed (counts_of env.now) d.value) sparse.now.sends.items) }
    requires draws { CanDraw env.now }
    ensures { result.items ≡ sent_by sparse.now env.now }
{
    let mut words = ArrayVec::new();
    for decl in &sparse.sends {
        words.push(eval(&decl.value, env));
    }
    words
}
