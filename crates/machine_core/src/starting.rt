// What a machine holds at the begin of a later round.
ghost use Rattle.std.specs.Prelude.{◌≡◌, ◌==◌, ◌≤◌, ◌<◌, [], ◌∷◌, if◌then◌else◌, length, map, vec_capacity, All};
ghost use Rattle.chunk_split.specs.Chunks.{vertices_of};
ghost use Rattle.circulant_plan.specs.Names.{verdict_name};
ghost use Rattle.symple_face.specs.CoreFirst.{body_at_start};
ghost use Rattle.symple_face.specs.Parts.{chunk_vertices};
ghost use Rattle.symple_face.specs.Work.{plain_ahead, plain_start};
ghost use Rattle.vert_eval.specs.Rounds.{row_at};
ghost use Rattle.machine_steps.specs.Plain.{plain_sums};

use arrayvec::ArrayVec;
use body_shape::{Counts, put_verdict};
use double_buffer::Slots;
use machine_parts::Rows;
use machine_steps::Sums;
use symple_face::{Ahead, Start};
use vert_base::limits::MACHINES;
use vert_base::{Message, Name, NameKind, Row, Ruling};
use vertex_work::{Ground, copy_words};

/// Copies the rows of the own vertices out of those of all.
pub(crate) fn copy_rows(ground: &Ground, all: &[Row], rows: &mut Rows)
    requires all { length all.now ≡ vertices_of ground.now.part.cuts }
    requires wide { All (λ row. length row.words.items ≡ rows.old.width) all.now }
    requires count { length rows.old.rows
        ≡ length (chunk_vertices ground.now.part.cuts ground.now.part.at.machine) }
    ensures { rows.new ≡ record rows.old {
      rows = map (row_at all.now)
          (chunk_vertices ground.now.part.cuts ground.now.part.at.machine);
    } }
{
    let before = ground.start() as usize;
    'places: for place in 0..rows.len() {
        rows.write(place, &all[before + place]);
    }
}

/// At machine 0 the numbers of a start, in the place of what was judged.
pub(crate) fn judge_start(machine: u8, start: &Start, judged: &mut Sums)
    requires { length start.now.totals.items ≤ 4 }
    ensures { plain_sums judged.new ≡ (if machine == 0 then record {
      active = start.now.active;
      edges = start.now.edges;
      totals = start.now.totals.items;
    } else plain_sums judged.old) }
{
    if machine != 0 {
        return;
    }
    judged.counts = Counts {
        active: start.active,
        edges: start.edges,
        reads: 0,
    };
    copy_words(&start.totals, &mut judged.totals);
}

/// At another machine than 0 the verdict of a start, written into a body that has room for it.
pub(crate) fn hold_start(machine: u8, start: &Start, mut body: Vec<u8>, held: &mut Slots<MACHINES>)
    requires few { length start.now.totals.items ≤ 4 }
    requires empty { body.items ≡ [] }
    requires bytes { 33 ≤ vec_capacity body }
    requires none { held.old.letters ≡ [] }
    requires machine { machine < held.old.machines }
    ensures { held.new ≡ record held.old {
      letters = if machine == 0 then [] else record {
        name = verdict_name start.now.round machine;
        body = body_at_start (plain_start start.now);
      } ∷ [];
    } }
{
    if machine == 0 {
        return;
    }
    if put_verdict(&mut body, start.ruling, &start.totals).is_ok() {
        let name = Name {
            kind: NameKind::Verdict,
            round: start.round,
            step: 0,
            half: 0,
            from: 0,
            to: machine,
        };
        held.put(Message { name, body });
    }
}

/// What machine 0 tells of a round that begins.
pub(crate) fn ahead_of(round: u32, ruling: Ruling, judged: &Sums) -> Ahead
    ensures { plain_ahead result ≡ record {
      round = round;
      ruling = ruling;
      active = judged.now.counts.active;
      edges = judged.now.counts.edges;
      totals = judged.now.totals.items;
    } }
{
    let mut totals = ArrayVec::new();
    copy_words(judged.totals.as_slice(), &mut totals);
    Ahead {
        round,
        ruling,
        active: judged.counts.active,
        edges: judged.counts.edges,
        totals,
    }
}
