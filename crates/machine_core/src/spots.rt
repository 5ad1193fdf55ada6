// What a machine does at each spot.
use crate::machine::Core;
use circulant_plan::Spot;
use machine_steps::{Sums, begin_messages, hand, reads_of, send_tally, verdicts};
use vert_base::{Message, Ruling, Want};

impl Core {
    ghost use Rattle.std.specs.Prelude.{◌≡◌, ◌++◌, length, map, IfOk, OnErr, OnOk};
    ghost use Rattle.symple_face.specs.CoreJudge.{ruling_by, sums_at};
    ghost use Rattle.machine_steps.specs.Plain.{counted_of};
    ghost use Rattle.circulant_plan.specs.declared.spot.Spot.TheVariants.{Tell, Judge, Begin, Close};
    ghost use Rattle.vert_base.specs.Letters.{letter_of};
    ghost use Rattle.symple_face.specs.declared.action.Action.TheVariants.{Ready};
    ghost use Rattle.symple_face.specs.CoreWork.{core_go, core_sent};
    ghost use Rattle.symple_face.specs.State.{action_of};
    ghost use Rattle.machine_core.specs.CoreState.{core_state};

    /// Counts before the first round.
    pub(crate) fn act_tell(&mut self, out: &mut Vec<Message>) -> Result<(), Want>
        requires ready { action_of (core_state self.old) ≡ Ready }
        requires at { self.old.spot ≡ Tell }
        ensures state { OnOk result (core_state self.new ≡ core_go (core_state self.old)) }
        ensures sent { OnOk result (map letter_of out.new.items
            ≡ map letter_of out.old.items ++ core_sent (core_state self.old)) }
        ensures same_state { OnErr result (core_state self.new ≡ core_state self.old) }
        ensures same_out { OnErr result (out.new.items ≡ out.old.items) }
    {
        let body = Vec::with_capacity(self.alloc, 56)?;
        out.reserve(1)?;
        send_tally(&self.ground, &self.rows, 0, 0, body, out);
        self.move_on();
        Ok(())
    }

    /// Sums over all machines, and rules.
    pub(crate) fn act_judge(&mut self, round: u32, out: &mut Vec<Message>) -> Result<(), Want>
        requires ready { action_of (core_state self.old) ≡ Ready }
        requires at { self.old.spot ≡ Judge round }
        ensures state { OnOk result (core_state self.new ≡ core_go (core_state self.old)) }
        ensures sent { OnOk result (map letter_of out.new.items
            ≡ map letter_of out.old.items ++ core_sent (core_state self.old)) }
        ensures same_state { OnErr result (core_state self.new ≡ core_state self.old) }
        ensures same_out { OnErr result (out.new.items ≡ out.old.items) }
    {
        let sums = self.sums(round);
        let ruling = self.ruling_by(round, &sums);
        let sent = self.verdicts(round, ruling, &sums)?;
        hand(out, sent)?;
        self.judge_round(round, sums, ruling);
        self.move_on();
        Ok(())
    }

    // The verdicts of a judge.
    fn verdicts(&self, round: u32, ruling: Ruling, sums: &Sums) -> Result<Vec<Message>, Want>
        requires at { self.now.spot ≡ Judge round }
        requires sums { counted_of sums.now ≡ sums_at (core_state self.now) round }
        requires each { length sums.now.totals.items
            ≡ length self.now.ground.part.split.value.program.program.totals.items }
        requires ruling { ruling ≡ ruling_by (core_state self.now) round
            (sums_at (core_state self.now) round) }
        ensures { IfOk result (λ sent. map letter_of sent.items ≡ core_sent (core_state self.now)) }
    {
        let _few = self.ground.few_totals();
        let machines = self.ground.machines();
        let totals = sums.totals.as_slice();
        let sent = verdicts(self.alloc, machines, round + 1, ruling, totals)?;
        Ok(sent)
    }

    /// Begins a round: tells rows or sends, and works what was pushed.
    pub(crate) fn act_begin(&mut self, round: u32, out: &mut Vec<Message>) -> Result<(), Want>
        requires ready { action_of (core_state self.old) ≡ Ready }
        requires at { self.old.spot ≡ Begin round }
        ensures state { OnOk result (core_state self.new ≡ core_go (core_state self.old)) }
        ensures sent { OnOk result (map letter_of out.new.items
            ≡ map letter_of out.old.items ++ core_sent (core_state self.old)) }
        ensures same_state { OnErr result (core_state self.new ≡ core_state self.old) }
        ensures same_out { OnErr result (out.new.items ≡ out.old.items) }
    {
        let totals = self.totals();
        let sent = begin_messages(
            self.alloc,
            &self.ground,
            totals.as_slice(),
            &self.rows,
            self.ruling,
            round,
        )?;
        hand(out, sent)?;
        self.begin_round();
        self.move_on();
        Ok(())
    }

    /// Closes a round, and counts its own vertices.
    pub(crate) fn act_close(&mut self, dense: bool, out: &mut Vec<Message>) -> Result<(), Want>
        requires ready { action_of (core_state self.old) ≡ Ready }
        requires at { self.old.spot ≡ Close self.old.round dense }
        ensures state { OnOk result (core_state self.new ≡ core_go (core_state self.old)) }
        ensures sent { OnOk result (map letter_of out.new.items
            ≡ map letter_of out.old.items ++ core_sent (core_state self.old)) }
        ensures same_state { OnErr result (core_state self.new ≡ core_state self.old) }
        ensures same_out { OnErr result (out.new.items ≡ out.old.items) }
    {
        let body = Vec::with_capacity(self.alloc, 56)?;
        out.reserve(1)?;
        self.close_round(dense);
        let reads = reads_of(&self.ground, &self.reads);
        send_tally(&self.ground, &self.rows, reads, self.round, body, out);
        self.move_on();
        Ok(())
    }

    /// Performs the action of its spot.
    pub(crate) fn act(&mut self, out: &mut Vec<Message>) -> Result<(), Want>
        requires { action_of (core_state self.old) ≡ Ready }
        ensures state { OnOk result (core_state self.new ≡ core_go (core_state self.old)) }
        ensures sent { OnOk result (map letter_of out.new.items
            ≡ map letter_of out.old.items ++ core_sent (core_state self.old)) }
        ensures same_state { OnErr result (core_state self.new ≡ core_state self.old) }
        ensures same_out { OnErr result (out.new.items ≡ out.old.items) }
    {
        match self.spot {
            Spot::Tell => self.act_tell(out),
            Spot::Judge { round } => self.act_judge(round, out),
            Spot::Begin { round } => self.act_begin(round, out),
            Spot::Scan { round, step, half } => self.act_scan(round, step, half, out),
            Spot::Close { round: _, dense } => self.act_close(dense, out),
            Spot::Over => unreachable!(),
        }
    }
}
