// What own vertices send to one another.
ghost use Rattle.std.specs.Prelude.{IsTrue, ◌≡◌, ◌≤◌, ◌<◌, ◌-◌, length};
ghost use Rattle.std.specs.List.{All, list_all};
ghost use Rattle.vert_base.specs.Neighbours.{bucket, source};
ghost use Rattle.vert_tree.specs.Places.{expr_placed};
ghost use Rattle.vert_eval.specs.Rounds.{sent_by};
ghost use Rattle.vert_eval.specs.Values.{CanDraw, counts_of, value_of};
ghost use Rattle.vert_eval.specs.Words.{is_set};
ghost use Rattle.machine_parts.specs.Counting.{own_counts};
ghost use Rattle.machine_parts.specs.Sending.{AreSendsPlaced, own_sends};
ghost use Rattle.machine_parts.specs.Spans.{IsSpan};
ghost use Rattle.machine_parts.proofs.TotalLaws.{settled};
ghost use Rattle.vertex_work.specs.Pushing.{AreOwnSenders, CanReceive, edges_added, receiving, sent_within};

use crate::push::work_span;
use crate::receivers::Receivers;
use crate::scratch::{Scratch, new_scratch};
use arrayvec::ArrayVec;
use flat_table::Grid;
use machine_parts::{Span, enter, read_row_of};
use slot_merge::Partial;
use vert_eval::{Env, eval, truth};
use vert_tree::Sparse;

// Whether the test of the sparse block is true at the vertex of an environment.
#[inline]
fn passes_test(sparse: &Sparse, env: &Env) -> bool
    requires names { IsTrue (expr_placed (counts_of env.now) sparse.now.when_test) }
    requires draws { CanDraw env.now }
    ensures { result ≡ is_set (value_of sparse.now.when_test env.now) }
{
    truth(eval(&sparse.when_test, env))
}

// The words that the vertex of an environment sends.
fn sent_words(sparse: &Sparse, env: &Env) -> ArrayVec<i64, 8>
    requires few { length sparse.now.sends.items ≤ 8 }
    requires names { IsTrue
        (list_all (λ d. expr_placed (counts_of env.now) d.value) sparse.now.sends.items) }
    requires draws { CanDraw env.now }
    ensures { result.items ≡ sent_by sparse.now env.now }
{
    let mut words = ArrayVec::new();
    for decl in &sparse.sends {
        words.push(eval(&decl.value, env));
    }
    words
}

// Where an own vertex is active and its test is true, the receivers of its edges run the sparse
// body.
fn work_sender(
    receivers: &Receivers,
    sparse: &Sparse,
    span: &Span,
    env: &mut Env,
    scratch: &mut Scratch,
    partials: &mut Grid<Partial>,
)
    requires span { IsSpan source receivers.now.edges.now span.now }
    requires low { receivers.now.start ≤ span.now.vertex.0 }
    requires row { span.now.vertex.0 - receivers.now.start < length receivers.now.rows.now.rows }
    requires degree { span.now.vertex.0 - receivers.now.start
        < length receivers.now.degrees.now }
    requires few { length sparse.now.sends.items ≤ 8 }
    requires names { AreSendsPlaced
        (own_counts receivers.now.rows.now.width env.old) sparse.now }
    requires can { CanReceive receivers.now (length sparse.now.sends.items) env.old partials.old }
    ensures added { partials.new ≡ record partials.old {
      rows = edges_added (receiving receivers.now) env.old
          (λ sender. own_sends sparse.now receivers.now.rows.now.rows receivers.now.degrees.now
          receivers.now.start env.old (span.now.vertex.0 - receivers.now.start))
          (bucket source span.now.vertex.0 receivers.now.edges.now) partials.old.rows;
    } }
    ensures settled { settled env.new ≡ settled env.old }
    ensures can { CanReceive receivers.now (length sparse.now.sends.items) env.new partials.new }
{
    let place = (span.vertex.0 - receivers.start) as usize;
    if !receivers.rows.is_active(place) {
        return;
    }
    read_row_of(receivers.rows, place, env);
    enter(env, span.vertex, &receivers.degrees[place], 0);
    if !passes_test(sparse, env) {
        return;
    }
    env.sends = sent_words(sparse, env);
    work_span(receivers, span, env, scratch, partials);
}

/// Works what own vertices send to one another. It takes no memory.
pub fn work_own(
    receivers: &Receivers,
    sparse: &Sparse,
    senders: &[Span],
    env: &mut Env,
    partials: &mut Grid<Partial>,
)
    requires senders { AreOwnSenders receivers.now.vertices
        (receivers.now.start, receivers.now.end) receivers.now.edges.now senders.now }
    requires few { length sparse.now.sends.items ≤ 8 }
    requires names { AreSendsPlaced
        (own_counts receivers.now.rows.now.width env.old) sparse.now }
    requires can { CanReceive receivers.now (length sparse.now.sends.items) env.old partials.old }
    ensures added { partials.new ≡ record partials.old {
      rows = edges_added (receiving receivers.now) env.old
          (sent_within sparse.now receivers.now env.old) receivers.now.edges.now partials.old.rows;
    } }
    ensures settled { settled env.new ≡ settled env.old }
    ensures can { CanReceive receivers.now (length sparse.now.sends.items) env.new partials.new }
{
    let mut scratch = new_scratch();
    for span in senders {
        work_sender(receivers, sparse, span, env, &mut scratch, partials);
    }
}
