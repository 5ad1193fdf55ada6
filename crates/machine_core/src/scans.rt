// What a machine does in a scan of a half.
use crate::machine::Core;
use machine_steps::{
    HalfScan, drop_needed, half_messages, hand, held_body, needed_bytes, note_counts, refresh_to,
    scan_half, scan_own,
};
use vert_base::{Message, Want};

impl Core {
    ghost use Rattle.std.specs.Prelude.{◌≡◌, ◌<◌, ◌+◌, ◌++◌, [], map, OnErr, OnOk};
    ghost use Rattle.circulant_plan.specs.declared.spot.Spot.TheVariants.{Scan};
    ghost use Rattle.vert_base.specs.Letters.{letter_of};
    ghost use Rattle.symple_face.specs.declared.action.Action.TheVariants.{Ready};
    ghost use Rattle.symple_face.specs.CoreDense.{scan_dep, scan_kept, scan_read, scan_update};
    ghost use Rattle.symple_face.specs.CoreWork.{core_go, core_sent};
    ghost use Rattle.symple_face.specs.State.{action_of};
    ghost use Rattle.machine_core.specs.CoreState.{core_state};
    ghost use Rattle.machine_steps.specs.Halves.{IsHalfScan};

    // Notes what was read in a scan of a half of another chunk, where it stays. It takes no memory.
    fn note_half(&mut self, round: u32, step: u8, half: u8, counts: &[u32])
        requires at { self.old.spot ≡ Scan round step half }
        requires scanned { IsHalfScan (core_state self.old) round step half
            (scan_dep (core_state self.old) round step half)
            (scan_update (core_state self.old) round step half) counts.now }
        ensures { core_state self.new ≡ scan_read (core_state self.old) round step half }
    {
        note_counts(&mut self.reading, &self.ground, step, half, counts);
        drop_needed(&self.ground, &mut self.held, round, step, half);
    }

    // Scans a half of another chunk.
    fn scan_other(
        &mut self,
        round: u32,
        step: u8,
        half: u8,
        out: &mut Vec<Message>,
    ) -> Result<(), Want>
        requires ready { action_of (core_state self.old) ≡ Ready }
        requires at { self.old.spot ≡ Scan round step half }
        requires other { step + 1 < self.old.ground.part.at.machines }
        ensures state { OnOk result (core_state self.new ≡ core_go (core_state self.old)) }
        ensures sent { OnOk result (map letter_of out.new.items
            ≡ map letter_of out.old.items ++ core_sent (core_state self.old)) }
        ensures same_state { OnErr result (core_state self.new ≡ core_state self.old) }
        ensures same_out { OnErr result (out.new.items ≡ out.old.items) }
    {
        let totals = self.totals();
        let scan = scan_half(
            self.alloc,
            &self.ground,
            totals.as_slice(),
            &self.rows,
            held_body(&self.held, &refresh_to(&self.ground, round, step)),
            needed_bytes(&self.ground, &self.held, round, step, half),
            round,
            step,
            half,
        )?;
        let HalfScan {
            states,
            update,
            counts,
        } = scan;
        let sent = half_messages(self.alloc, &self.ground, round, step, half, update, states)?;
        hand(out, sent)?;
        self.note_half(round, step, half, &counts);
        self.move_on();
        Ok(())
    }

    // Scans a half of its own chunk, where it stays.
    fn keep_half(&mut self, round: u32, step: u8, half: u8) -> Result<(), Want>
        requires at { self.old.spot ≡ Scan round step half }
        requires last { step + 1 ≡ self.old.ground.part.at.machines }
        ensures state { OnOk result (core_state self.new
            ≡ scan_kept (core_state self.old) round step half) }
        ensures same_state { OnErr result (core_state self.new ≡ core_state self.old) }
    {
        let totals = self.totals();
        scan_own(
            self.alloc,
            &self.ground,
            totals.as_slice(),
            &self.rows,
            needed_bytes(&self.ground, &self.held, round, step, half),
            round,
            half,
            &mut self.partials,
            &mut self.ring,
            &mut self.reading,
        )?;
        drop_needed(&self.ground, &mut self.held, round, step, half);
        Ok(())
    }

    // Scans a half of its own chunk. It sends nothing.
    fn scan_last(&mut self, round: u32, step: u8, half: u8) -> Result<(), Want>
        requires ready { action_of (core_state self.old) ≡ Ready }
        requires at { self.old.spot ≡ Scan round step half }
        requires last { step + 1 ≡ self.old.ground.part.at.machines }
        ensures state { OnOk result (core_state self.new ≡ core_go (core_state self.old)) }
        ensures sent { core_sent (core_state self.old) ≡ [] }
        ensures same_state { OnErr result (core_state self.new ≡ core_state self.old) }
    {
        self.keep_half(round, step, half)?;
        self.move_on();
        Ok(())
    }

    /// Scans a half.
    pub(crate) fn act_scan(
        &mut self,
        round: u32,
        step: u8,
        half: u8,
        out: &mut Vec<Message>,
    ) -> Result<(), Want>
        requires ready { action_of (core_state self.old) ≡ Ready }
        requires at { self.old.spot ≡ Scan round step half }
        ensures state { OnOk result (core_state self.new ≡ core_go (core_state self.old)) }
        ensures sent { OnOk result (map letter_of out.new.items
            ≡ map letter_of out.old.items ++ core_sent (core_state self.old)) }
        ensures same_state { OnErr result (core_state self.new ≡ core_state self.old) }
        ensures same_out { OnErr result (out.new.items ≡ out.old.items) }
    {
        if step + 1 < self.ground.machines() {
            self.scan_other(round, step, half, out)
        } else {
            self.scan_last(round, step, half)
        }
    }
}
