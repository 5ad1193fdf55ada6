// The demonstration.
ghost use Rattle.std.specs.Prelude.{◌≡◌, ◌<◌, ◌+◌, ◌++◌, ℕ, List, [], false, length, IfOk, None, OnOk, true};
ghost use Rattle.cluster_run.specs.Faults.{fault_of as event_fault};
ghost use Rattle.command_steps.specs.Orders.{Shown};
ghost use Rattle.command_steps.specs.States.{sink_state};
ghost use Rattle.command_steps.specs.Walks.{HandsOn};
ghost use Rattle.demo_parts.specs.ShownTexts.{shown_text};
ghost use Rattle.schedule_laws.specs.Layout.{table_of, vertices_in};
ghost use Rattle.schedule_laws.specs.ToldRounds.{round_ended};
ghost use Rattle.sha2.specs.Hashers.{Holds256};
ghost use Rattle.sha2.specs.Sha256.{sha256};
ghost use Rattle.symple_face.specs.Cluster.{events_left, finished, step};
ghost use Rattle.symple_run.specs.Played.{line_of, rows_of};
ghost use Rattle.symple_run.specs.RunWalks.{DoesTask};
ghost use Rattle.symple_run.specs.Shows.{reads_in_all};
ghost use Rattle.symple_run.specs.ShowWalks.{HasPlayed, reported};
ghost use Rattle.symple_words.specs.Ranges.{AreMachines};

use array_text::write_header;
use arrayvec::ArrayVec;
use cluster_run::{Cluster, choices_are_in_order};
use command_steps::{Failure, flush};
use delivery_log::plain;
use demo_parts::{TextSink, drawn_edges, write_shown};
use demo_program::demo_program;
use machine_runs::{ends_round, started, vertices, write_line};
use outside::{Sink, SinkFault};
use sha2::{Digest, Sha256};
use std::alloc::Global;
use symple_face::Site;
use vert_base::limits::MACHINES;
use vert_base::{Event, Row, VertexId, Want};

/// What the rounds of a run come to.
#[derive(Drop)]
struct Counts {
    rounds: u64,
    reads: u64,
}

/// Runs the program on the graph of a seed, and puts what its rounds and its table come to.
pub(crate) fn show<S: Site, O: Sink>(
    alloc: Global,
    seed: u64,
    machines: u8,
    out: &mut O,
) -> Result<(), Failure>
    requires { AreMachines machines }
    ensures { DoesTask S.work (Shown seed machines) (sink_state O.held O.faults O.spare out.old)
        (sink_state O.held O.faults O.spare out.new) result }
{
    let typed = demo_program(alloc)?;
    let edges = drawn_edges(alloc, seed)?;
    let mut cluster = started::<S>(alloc, typed, edges, machines, 0)?;
    let counts = play_counted(&mut cluster)?;
    let digest = table_digest(alloc, &cluster)?;
    put_shown(machines, &counts, &digest, out)?;
    Ok(())
}

/// Puts the three lines, and has them handed on.
fn put_shown<O: Sink>(
    machines: u8,
    counts: &Counts,
    digest: &[u8; 32],
    out: &mut O,
) -> Result<(), SinkFault>
    ensures { HandsOn (shown_text machines counts.now.rounds counts.now.reads digest.now)
        (sink_state O.held O.faults O.spare out.old)
        (sink_state O.held O.faults O.spare out.new) result }
{
    write_shown(machines, counts.rounds, counts.reads, digest, out)?;
    flush(out)
}

/// Plays the plain events up to the end, and counts the rounds that are judged.
fn play_counted<S: Site>(cluster: &mut Cluster<S, MACHINES>) -> Result<Counts, Want>
    requires on { cluster.old.ended ≡ false }
    ensures on { OnOk result (cluster.new.ended ≡ false) }
    ensures played { IfOk result (λ counts. HasPlayed S.work cluster.old.world cluster.new.world
        counts.rounds counts.reads) }
{
    let mut counts = Counts {
        rounds: 0,
        reads: 0,
    };
    choices_are_in_order::<S>();
    'events: while let Some(event) = plain(cluster) {
        count_event(cluster, &event, &mut counts)?;
    }
    Ok(counts)
}

/// Plays a possible event, and counts the round that it ends.
fn count_event<S: Site>(
    cluster: &mut Cluster<S, MACHINES>,
    event: &Event,
    counts: &mut Counts,
) -> Result<(), Want>
    requires on { cluster.old.ended ≡ false }
    requires possible { event_fault cluster.old.world event.now ≡ None }
    ensures on { OnOk result (cluster.new.ended ≡ false) }
    ensures world { OnOk result (cluster.new.world ≡ step S.work cluster.old.world event.now) }
    ensures rounds { OnOk result (counts.new.rounds ≡ counts.old.rounds
        + length (round_ended false S.work cluster.old.world event.now)) }
    ensures reads { OnOk result (counts.new.reads ≡ counts.old.reads
        + reads_in_all (round_ended false S.work cluster.old.world event.now)) }
    ensures nearer { OnOk result
        (events_left cluster.new.world < events_left cluster.old.world) }
{
    let tells = ends_round(cluster, event);
    // The event is possible, so nothing but memory can fail.
    match cluster.event(event) {
        Ok(()) => {}
        Err(_) => return Err(Want),
    }
    count_round_if(tells, cluster, counts)?;
    Ok(())
}

/// Counts the round that was judged, if one was. Counts that don't fit 64 bits are no core's.
fn count_round_if<S: Site>(
    judged: bool,
    cluster: &Cluster<S, MACHINES>,
    counts: &mut Counts,
) -> Result<(), Want>
    requires on { cluster.now.ended ≡ false }
    ensures rounds { OnOk result (counts.new.rounds ≡ counts.old.rounds
        + length (reported judged S.work cluster.now.world)) }
    ensures reads { OnOk result (counts.new.reads ≡ counts.old.reads
        + reads_in_all (reported judged S.work cluster.now.world)) }
{
    if !judged {
        return Ok(());
    }
    cluster.tells_reached();
    let report = cluster.site(0).report();
    let Some(rounds) = counts.rounds.checked_add(1) else {
        return Err(Want);
    };
    let Some(reads) = counts.reads.checked_add(report.reads) else {
        return Err(Want);
    };
    counts.rounds = rounds;
    counts.reads = reads;
    Ok(())
}

/// The digest of the table of what the machines hold, which is hashed a line at a time.
fn table_digest<S: Site>(alloc: Global, cluster: &Cluster<S, MACHINES>) -> Result<[u8; 32], Want>
    requires on { cluster.now.ended ≡ false }
    ensures { IfOk result (λ digest. digest ≡ sha256 (table_of S.work cluster.now.world)) }
{
    cluster.tells_reached();
    let mut hasher = Sha256::new();
    let mut text = TextSink::new(alloc);
    match write_header(&cluster.site(0).part().split, &mut text) {
        Ok(()) => {}
        Err(_) => return Err(Want),
    }
    hash_text(&mut text, &mut hasher);
    hash_rows(cluster, &mut text, &mut hasher)?;
    Ok(hasher.finalize())
}

/// Hashes the line of each vertex.
fn hash_rows<S: Site>(
    cluster: &Cluster<S, MACHINES>,
    text: &mut TextSink,
    hasher: &mut Sha256,
) -> Result<(), Want>
    requires on { cluster.now.ended ≡ false }
    requires empty { text.old.bytes ≡ [] }
    ensures { OnOk result ((m : List ℕ) → Holds256 hasher.old m
        → Holds256 hasher.new (m ++ rows_of S.work cluster.now.world)) }
{
    cluster.tells_reached();
    let mut row = Row {
        words: ArrayVec::new(),
        active: false,
    };
    'vertices: for v in 0..vertices(cluster) {
        hash_line(cluster, VertexId(v), &mut row, text, hasher)?;
    }
    Ok(())
}

/// Hashes the line of a vertex.
fn hash_line<S: Site>(
    cluster: &Cluster<S, MACHINES>,
    v: VertexId,
    row: &mut Row,
    text: &mut TextSink,
    hasher: &mut Sha256,
) -> Result<(), Want>
    requires on { cluster.now.ended ≡ false }
    requires there { v.0 < length (vertices_in cluster.now.world) }
    requires empty { text.old.bytes ≡ [] }
    ensures empty { OnOk result (text.new.bytes ≡ []) }
    ensures hashed { OnOk result ((m : List ℕ) → Holds256 hasher.old m
        → Holds256 hasher.new (m ++ line_of S.work cluster.now.world v.0)) }
{
    // A text in memory fails where memory is wanting.
    match write_line(cluster, v, row, text) {
        Ok(()) => {}
        Err(_) => return Err(Want),
    }
    hash_text(text, hasher);
    Ok(())
}

/// Hashes what a text holds, and empties it.
fn hash_text(text: &mut TextSink, hasher: &mut Sha256)
    ensures empty { text.new.bytes ≡ [] }
    ensures hashed { (m : List ℕ) → Holds256 hasher.old m
        → Holds256 hasher.new (m ++ text.old.bytes) }
{
    hasher.update(text.bytes());
    text.clear();
}
