// What a machine counts of its own vertices.
ghost use Rattle.std.specs.Prelude.{◌≡◌, ◌≤◌, ◌<◌, ◌^◌, [], length, map, sum};
ghost use Rattle.symple_face.specs.CoreJudge.{counted};
ghost use Rattle.symple_face.specs.CoreSight.{field_count};
ghost use Rattle.symple_face.specs.PartViews.{plain_of};
ghost use Rattle.symple_face.specs.Parts.{chunk_vertices};
ghost use Rattle.machine_steps.specs.Counts.{AreCounts, lists_read};
ghost use Rattle.machine_steps.specs.Plain.{counted_of};

use crate::sums::Sums;
use body_shape::Counts;
use machine_parts::{Rows, Setting, active_rows, edges_ahead, new_env, own_totals};
use vertex_work::Ground;

/// The counts and totals of own rows after a round, beside how many members were read in it. It
/// goes through the own vertices.
pub fn counted(ground: &Ground, rows: &Rows, reads: u64, round: u32) -> Sums
    requires count { length rows.now.rows
        ≡ length (chunk_vertices ground.now.part.cuts ground.now.part.at.machine) }
    requires width { rows.now.width ≡ field_count ground.now.part.split.value }
    requires round { round ≤ 10000 }
    ensures counted { counted_of result ≡ record (counted (plain_of ground.now.part)
        ground.now.part.split.value rows.now.rows [] round) { reads = reads } }
    ensures each { length result.totals.items
        ≡ length ground.now.part.split.value.program.program.totals.items }
{
    let setting = Setting {
        slots: 0,
        ..ground.setting(round)
    };
    let mut env = new_env(&setting, &[]);
    let degrees = ground.degrees(ground.machine());
    let totals = &ground.program().totals;
    let _own = ground.own_count();
    Sums {
        counts: Counts {
            active: active_rows(rows),
            edges: edges_ahead(rows, degrees),
            reads,
        },
        totals: own_totals(totals, rows, degrees, ground.start(), &mut env),
    }
}

/// How many members were read of all targets.
pub fn reads_of(ground: &Ground, counts: &[u32]) -> u64
    requires { AreCounts (plain_of ground.now.part) counts.now }
    ensures { result ≡ sum (map length (lists_read (plain_of ground.now.part) counts.now)) }
{
    let _own = ground.own_count();
    sum_of(counts)
}

// The sum of counts.
fn sum_of(counts: &[u32]) -> u64
    requires { length counts.now < 2 ^ 32 }
    ensures { result ≡ sum counts.now }
{
    let mut sum = 0;
    for count in counts {
        sum += u64::from(*count);
    }
    sum
}
