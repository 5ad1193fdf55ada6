// What a machine does at each spot.
ghost use Rattle.std.specs.Prelude.{◌≡◌, ◌≤◌, ◌<◌, ◌+◌, ◌*◌, ◌++◌, [], length, map, vec_capacity, vec_len, OnErr, OnOk};
ghost use Rattle.body_shape.specs.Tally.{tally_body};
ghost use Rattle.circulant_plan.specs.Names.{tally_name};
ghost use Rattle.circulant_plan.specs.Table.{tally_gives};
ghost use Rattle.vert_base.specs.Letters.{letter_of};
ghost use Rattle.symple_face.specs.CoreJudge.{counted};
ghost use Rattle.symple_face.specs.CoreSight.{field_count};
ghost use Rattle.symple_face.specs.PartViews.{plain_of};
ghost use Rattle.symple_face.specs.Parts.{chunk_vertices};

use crate::counting::counted;
use body_shape::put_tally;
use machine_parts::Rows;
use vert_base::{Message, Name, NameKind, Want};
use vertex_work::Ground;

/// Puts messages at the end of others.
pub fn hand(out: &mut Vec<Message>, mut sent: Vec<Message>) -> Result<(), Want>
    ensures handed { OnOk result (map letter_of out.new.items
        ≡ map letter_of out.old.items ++ map letter_of sent.items) }
    ensures same { OnErr result (out.new.items ≡ out.old.items) }
{
    out.append(&mut sent)?;
    Ok(())
}

/// The name of the tally of a machine.
pub fn tally_name(round: u32, from: u8) -> Name
    ensures { result ≡ tally_name round from }
{
    Name {
        kind: NameKind::Tally,
        round,
        step: 0,
        half: 0,
        from,
        to: 0,
    }
}

/// Puts the tally of a round at the end of messages, where there is room. Machine 0 keeps its counts
/// to itself.
pub fn send_tally(
    ground: &Ground,
    rows: &Rows,
    reads: u64,
    round: u32,
    mut body: Vec<u8>,
    out: &mut Vec<Message>,
)
    requires count { length rows.now.rows
        ≡ length (chunk_vertices ground.now.part.cuts ground.now.part.at.machine) }
    requires width { rows.now.width ≡ field_count ground.now.part.split.value }
    requires round { round ≤ 10000 }
    requires empty { body.items ≡ [] }
    requires bytes { 56 ≤ vec_capacity body }
    requires room { vec_len out.old < vec_capacity out.old }
    ensures { map letter_of out.new.items ≡ map letter_of out.old.items ++ map (λ x. record {
      name = x;
      body = tally_body (record (counted (plain_of ground.now.part) ground.now.part.split.value
          rows.now.rows [] round) { reads = reads });
    }) (tally_gives ground.now.part.at.machine round) }
{
    let from = ground.machine();
    if from == 0 {
        return;
    }
    let _few = ground.few_totals();
    let sums = counted(ground, rows, reads, round);
    if put_tally(&mut body, &sums.counts, sums.totals.as_slice()).is_ok() {
        let name = tally_name(round, from);
        out.push_reserved(Message { name, body });
    }
}
