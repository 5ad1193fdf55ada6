// What is pushed over edges: their receivers run the sparse body.
ghost use Rattle.std.specs.Prelude.{◌≡◌, ◌≤◌, ◌<◌, ◌+◌, ◌-◌, ◌++◌, ◌^◌, ℕ, Option, None, Some, true, [], drop, length, map, slice_index_or, slice_set, take};
ghost use Rattle.std.specs.List.{All};
ghost use Rattle.body_shape.specs.Push.{sends_read};
ghost use Rattle.vert_base.specs.Neighbours.{bucket, source};
ghost use Rattle.vert_code.specs.Blocks.{list_of};
ghost use Rattle.vert_code.specs.Valid.{list_names};
ghost use Rattle.vert_code.specs.declared.instr.Block.TheVariants.{SparseBody};
ghost use Rattle.symple_face.specs.CoreSight.{beside};
ghost use Rattle.symple_face.specs.CoreSparse.{key_of};
ghost use Rattle.machine_parts.specs.Spans.{IsSpan, vertex_of};
ghost use Rattle.vertex_work.specs.Received.{IsReceived};
ghost use Rattle.machine_parts.proofs.TotalLaws.{settled};
ghost use Rattle.vertex_work.specs.Pushing.{AreSenders, CanReceive, edge_added, edges_added, received_at, receiving};

use crate::receivers::Receivers;
use crate::scratch::{Scratch, load_emits, new_scratch};
use body_shape::{is_sender, read_sends};
use flat_table::Grid;
use machine_parts::{Span, edges_in, read_row_of};
use slot_merge::{Emits, Partial};
use vert_base::{Edge, Neighbour};
use vert_code::Block;
use vert_eval::Env;
use vert_vm::step_block_over;

// The key under which the receivers of a chunk that ends at `end` take what a vertex sends.
#[inline]
fn key_of(vertices: u32, end: u32, sender: u32) -> u32
    requires sender { sender < vertices }
    requires end { end ≤ vertices }
    requires few { vertices ≤ 2 ^ 24 }
    ensures { result ≡ key_of vertices end sender }
{
    if sender < end {
        sender + vertices - end
    } else {
        sender - end
    }
}

// Goes to the receiver of an edge, whose sender is told by its id and by the edge's weight alone.
// What it sends is there already.
#[inline]
fn receive(receivers: &Receivers, edge: &Edge, env: &mut Env)
    requires { IsReceived receivers.now.start (length receivers.now.degrees.now)
        (length receivers.now.rows.now.rows) receivers.now.vertices edge.now }
    ensures at { env.new
        ≡ received_at (receiving receivers.now) env.old env.old.sends.items edge.now }
    ensures width { length env.new.row.words.items ≡ receivers.now.rows.now.width }
{
    let place = (edge.to.0 - receivers.start) as usize;
    let degree = receivers.degrees[place];
    read_row_of(receivers.rows, place, env);
    env.id = edge.to;
    env.indeg = degree.ins;
    env.outdeg = degree.outs;
    env.next_active = false;
    env.locals.clear();
    env.touched = 0;
    env.other = Neighbour {
        id: edge.from,
        weight: i64::from(edge.weight),
        indeg: 0,
        outdeg: 0,
    };
    env.key = key_of(receivers.vertices, receivers.end, edge.from.0);
}

// Reads the partials of so many slots at a place.
#[inline]
fn load(partials: &Grid<Partial>, place: usize, slots: usize, emits: &mut Emits)
    requires place { place < length partials.now.rows }
    requires few { slots ≤ 8 }
    requires row { slots ≤ length (slice_index_or partials.now.rows place []) }
    ensures { emits.new.slots.items ≡ take slots (slice_index_or partials.now.rows place []) }
{
    let row = partials.row(place);
    load_emits(&row[..slots], emits);
}

// Writes the partials of slots to a place.
#[inline]
fn store(emits: &Emits, place: usize, partials: &mut Grid<Partial>)
    requires place { place < length partials.old.rows }
    requires width { length emits.now.slots.items ≤ partials.old.width }
    requires row { length (slice_index_or partials.old.rows place []) ≡ partials.old.width }
    ensures { partials.new ≡ record partials.old {
      rows = slice_set partials.old.rows place (emits.now.slots.items
          ++ drop (length emits.now.slots.items) (slice_index_or partials.old.rows place []));
    } }
{
    for column in 0..emits.slots.len() {
        partials.put(place, column, emits.slots[column]);
    }
}

// The receiver of an edge runs the sparse body over what is sent.
#[inline]
fn work_edge(
    receivers: &Receivers,
    edge: &Edge,
    env: &mut Env,
    scratch: &mut Scratch,
    partials: &mut Grid<Partial>,
)
    requires received { IsReceived receivers.now.start (length receivers.now.degrees.now)
        (length receivers.now.rows.now.rows) receivers.now.vertices edge.now }
    requires can { CanReceive receivers.now (length env.old.sends.items) env.old partials.old }
    ensures added { partials.new ≡ record partials.old {
      rows = edge_added (receiving receivers.now) env.old edge.now
          (Some env.old.sends.items) partials.old.rows;
    } }
    ensures settled { settled env.new ≡ settled env.old }
    ensures sends { env.new.sends.items ≡ env.old.sends.items }
    ensures can { CanReceive receivers.now (length env.old.sends.items) env.new partials.new }
{
    let place = (edge.to.0 - receivers.start) as usize;
    receive(receivers, edge, env);
    load(partials, place, env.slots.len(), &mut scratch.emits);
    step_block_over(
        receivers.code,
        Block::SparseBody,
        env,
        &mut scratch.emits,
        &mut scratch.stack,
    );
    store(&scratch.emits, place, partials);
}

// The receivers of a vertex's edges run the sparse body over what it sends.
pub(crate) fn work_span(
    receivers: &Receivers,
    span: &Span,
    env: &mut Env,
    scratch: &mut Scratch,
    partials: &mut Grid<Partial>,
)
    requires span { IsSpan source receivers.now.edges.now span.now }
    requires can { CanReceive receivers.now (length env.old.sends.items) env.old partials.old }
    ensures added { partials.new ≡ record partials.old {
      rows = edges_added (receiving receivers.now) env.old (λ sender. Some env.old.sends.items)
          (bucket source span.now.vertex.0 receivers.now.edges.now) partials.old.rows;
    } }
    ensures settled { settled env.new ≡ settled env.old }
    ensures sends { env.new.sends.items ≡ env.old.sends.items }
    ensures can { CanReceive receivers.now (length env.old.sends.items) env.new partials.new }
{
    for edge in edges_in(receivers.edges, span) {
        work_edge(receivers, edge, env, scratch, partials);
    }
}

/// Works what a push tells: of each sender that sends, the receivers of its edges run the sparse
/// body. A sender that sends nothing costs a look at its bit. It takes no memory.
pub fn work_told(
    receivers: &Receivers,
    senders: &[Span],
    body: &[u8],
    words: usize,
    env: &mut Env,
    partials: &mut Grid<Partial>,
)
    requires senders { AreSenders receivers.now.vertices receivers.now.edges.now senders.now }
    requires words { words ≤ 8 }
    requires can { CanReceive receivers.now words env.old partials.old }
    ensures added { partials.new ≡ record partials.old {
      rows = edges_added (receiving receivers.now) env.old
          (λ u. beside None u (map vertex_of senders.now)
          (sends_read words (length senders.now) body.now))
          receivers.now.edges.now partials.old.rows;
    } }
    ensures settled { settled env.new ≡ settled env.old }
    ensures can { CanReceive receivers.now words env.new partials.new }
{
    let count = senders.len();
    let mut scratch = new_scratch();
    let mut earlier = 0;
    'senders: for at in 0..count {
        if is_sender(body, count, at) {
            read_sends(body, count, earlier, words, &mut env.sends);
            work_span(receivers, &senders[at], env, &mut scratch, partials);
            earlier += 1;
        }
    }
}
