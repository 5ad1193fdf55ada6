// What machine 0 sums over all machines, and what it rules.
ghost use Rattle.std.specs.Prelude.{◌≡◌, ◌≤◌, ◌<◌, ◌+◌, ◌^◌, IfOk, length, map, pos, slice_index_or};
ghost use Rattle.slot_merge.specs.Combine.{combined_of};
ghost use Rattle.body_shape.specs.Tally.{Counted, counted_read};
ghost use Rattle.body_shape.specs.Verdict.{verdict_body};
ghost use Rattle.circulant_plan.specs.Names.{verdict_name};
ghost use Rattle.circulant_plan.specs.Table.{others_of};
ghost use Rattle.vert_base.specs.Letters.{letter_of};
ghost use Rattle.symple_face.specs.CoreJudge.{joined, ruling_by, totals_joined};
ghost use Rattle.symple_face.specs.PartViews.{plain_of};
ghost use Rattle.symple_face.specs.State.{State};
ghost use Rattle.machine_steps.specs.Plain.{counted_of};

use crate::sums::Sums;
use arrayvec::ArrayVec;
use body_shape::{Counts, counts_of, read_words};
use machine_parts::{Setting, enter, new_env, rule, verdict_body};
use std::alloc::Global;
use symple_face::Degree;
use vert_base::{Combine, Message, Name, NameKind, Ruling, VertexId, Want};
use vert_tree::TotalDecl;
use vertex_work::{Ground, clear_rows};

/// Adds what a tally tells.
pub fn join(totals: &[TotalDecl], tally: &[u8], sums: &mut Sums)
    requires few { length totals.now ≤ 4 }
    requires each { length sums.old.totals.items ≡ length totals.now }
    requires active { sums.old.counts.active
        + (counted_read (length totals.now) tally.now).active < 2 ^ 64 }
    requires edges { sums.old.counts.edges
        + (counted_read (length totals.now) tally.now).edges < 2 ^ 64 }
    requires reads { sums.old.counts.reads
        + (counted_read (length totals.now) tally.now).reads < 2 ^ 64 }
    ensures joined { counted_of sums.new ≡ joined totals.now (counted_of sums.old)
        (counted_read (length totals.now) tally.now) }
    ensures each { length sums.new.totals.items ≡ length totals.now }
{
    let told = counts_of(tally);
    sums.counts = Counts {
        active: sums.counts.active + told.active,
        edges: sums.counts.edges + told.edges,
        reads: sums.counts.reads + told.reads,
    };
    let mut words: ArrayVec<i64, 4> = ArrayVec::new();
    read_words(tally, 24, totals.len(), &mut words);
    sums.totals = words_joined(totals, sums.totals.as_slice(), words.as_slice());
}

// Totals with those of one machine more.
fn words_joined(totals: &[TotalDecl], held: &[i64], told: &[i64]) -> ArrayVec<i64, 4>
    requires few { length totals.now ≤ 4 }
    requires held { length held.now ≡ length totals.now }
    requires told { length told.now ≡ length totals.now }
    ensures words { result.items ≡ totals_joined totals.now held.now told.now }
    ensures each { length result.items ≡ length totals.now }
{
    let mut words = ArrayVec::new();
    for (i, total) in totals.iter().enumerate() {
        words.push(joined_at(total.op, held, told, i));
    }
    words
}

// The total at a place.
fn joined_at(op: Combine, held: &[i64], told: &[i64], place: usize) -> i64
    requires held { place < length held.now }
    requires told { place < length told.now }
    ensures { result ≡ combined_of op (slice_index_or held.now place (pos 0))
        (slice_index_or told.now place (pos 0)) }
{
    let word = held[place];
    combined(op, word, told[place])
}

fn combined(op: Combine, held: i64, word: i64) -> i64
    ensures { result ≡ combined_of op held word }
{
    match op {
        Combine::Min => held.min(word),
        Combine::Max => held.max(word),
        Combine::Sum => held.wrapping_add(word),
        Combine::First => held,
    }
}

/// What happens after a round, by the sums over all machines.
pub fn ruled(ground: &Ground, round: u32, sums: &Sums) -> Ruling
    requires round { round ≤ 10000 }
    requires totals { length sums.now.totals.items
        ≡ length ground.now.part.split.value.program.program.totals.items }
    requires active { sums.now.counts.active < 2 ^ 40 }
    requires edges { sums.now.counts.edges < 2 ^ 40 }
    ensures { (s : State) → s.part ≡ plain_of ground.now.part →
        s.split ≡ ground.now.part.split.value →
        result ≡ ruling_by s round (counted_of sums.now) }
{
    let setting = Setting {
        slots: 0,
        ..ground.setting(round)
    };
    let nobody = Degree {
        id: VertexId(0),
        ins: 0,
        outs: 0,
    };
    let _few = ground.few_totals();
    let mut env = new_env(&setting, sums.totals.as_slice());
    clear_rows(&mut env);
    enter(&mut env, VertexId(0), &nobody, 0);
    rule(ground.program(), &env, &sums.counts, ground.part.edges)
}

/// The verdicts on a round, one for each machine but machine 0.
pub fn verdicts(
    alloc: Global,
    machines: u8,
    round: u32,
    ruling: Ruling,
    totals: &[i64],
) -> Result<Vec<Message>, Want>
    requires some { 1 ≤ machines }
    requires few { length totals.now ≤ 4 }
    ensures { IfOk result (λ sent. map letter_of sent.items ≡ map (λ x. record {
      name = x;
      body = verdict_body (record { ruling = ruling; totals = totals.now });
    }) (map (verdict_name round) (others_of machines 0))) }
{
    let mut sent = Vec::with_capacity(alloc, usize::from(machines) - 1)?;
    'machines: for to in 1..machines {
        let name = Name {
            kind: NameKind::Verdict,
            round,
            step: 0,
            half: 0,
            from: 0,
            to,
        };
        sent.push(Message {
            name,
            body: verdict_body(alloc, ruling, totals)?,
        })?;
    }
    Ok(sent)
}
