// What machine 0 sums over all machines.
ghost use Rattle.std.specs.Prelude.{◌≡◌, if◌then◌else◌, nat_le};

use crate::machine::Core;
use machine_steps::{Sums, counted, held_body, join, reads_of, ruled, tally_name};
use symple_face::Report;
use vert_base::Ruling;

impl Core {
    ghost use Rattle.std.specs.Prelude.{◌≡◌, length};
    ghost use Rattle.circulant_plan.specs.declared.spot.Spot.TheVariants.{Judge};
    ghost use Rattle.symple_face.specs.CoreJudge.{judge_go, ruling_by, sums_at};
    ghost use Rattle.machine_core.specs.CoreState.{core_state};
    ghost use Rattle.machine_steps.specs.Plain.{counted_of};

    /// The sums over all machines after a round, of the own counts and the tallies taken.
    pub(crate) fn sums(&self, round: u32) -> Sums
        requires { self.now.spot ≡ Judge round }
        ensures sums { counted_of result ≡ sums_at (core_state self.now) round }
        ensures each { length result.totals.items
            ≡ length self.now.ground.part.split.value.program.program.totals.items }
    {
        let reads = reads_of(&self.ground, &self.reads);
        let mut sums = counted(&self.ground, &self.rows, reads, round);
        let totals = &self.ground.program().totals;
        let _few = self.ground.few_totals();
        'machines: for from in 1..self.ground.machines() {
            let tally = held_body(&self.held, &tally_name(round, from));
            join(totals, tally, &mut sums);
        }
        sums
    }

    /// The ruling for the round behind that of the spot.
    pub(crate) fn ruling_by(&self, round: u32, sums: &Sums) -> Ruling
        requires at { self.now.spot ≡ Judge round }
        requires sums { counted_of sums.now ≡ sums_at (core_state self.now) round }
        requires each { length sums.now.totals.items
            ≡ length self.now.ground.part.split.value.program.program.totals.items }
        ensures { result ≡ ruling_by (core_state self.now) round
            (sums_at (core_state self.now) round) }
    {
        ruled(&self.ground, round, sums)
    }

    /// Judges. The spot stays.
    pub(crate) fn judge_round(&mut self, round: u32, sums: Sums, ruling: Ruling)
        requires at { self.old.spot ≡ Judge round }
        requires sums { counted_of sums ≡ sums_at (core_state self.old) round }
        requires each { length sums.totals.items
            ≡ length self.old.ground.part.split.value.program.program.totals.items }
        requires ruling { ruling ≡ ruling_by (core_state self.old) round
            (sums_at (core_state self.old) round) }
        ensures state { core_state self.new ≡ judge_go (core_state self.old) round }
        ensures each { length self.new.judged.totals.items
            ≡ length self.new.ground.part.split.value.program.program.totals.items }
    {
        self.report = report_after(
            round,
            self.ruling,
            &self.judged,
            sums.counts.reads,
            self.report,
        );
        self.ruling = ruling;
        self.judged = sums;
    }
}

// The report of a round, with the numbers that the judge before had summed. Of round 0 there is
// none.
fn report_after(round: u32, ruling: Ruling, judged: &Sums, reads: u64, before: Report) -> Report
    ensures { result ≡ (if nat_le 1 round then record {
      round = round;
      ruling = ruling;
      active = judged.now.counts.active;
      edges = judged.now.counts.edges;
      reads = reads;
    } else before) }
{
    if 1 <= round {
        Report {
            round,
            ruling,
            active: judged.counts.active,
            edges: judged.counts.edges,
            reads,
        }
    } else {
        before
    }
}
