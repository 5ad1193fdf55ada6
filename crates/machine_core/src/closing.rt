// What the close of a round leaves of a machine.
use crate::machine::Core;
use machine_steps::{close_rows, turn_counts};

impl Core {
    ghost use Rattle.std.specs.Prelude.{◌≡◌, ◌==◌, length, true};
    ghost use Rattle.circulant_plan.specs.declared.spot.Spot.TheVariants.{Close};
    ghost use Rattle.symple_face.specs.CoreClose.{close_go};
    ghost use Rattle.symple_face.specs.CoreSight.{total_count};
    ghost use Rattle.machine_core.specs.CoreState.{core_state};

    /// Closes the round of its spot, where it stays. It takes no memory.
    pub(crate) fn close_round(&mut self, dense: bool)
        requires spot { self.old.spot ≡ Close self.old.round dense }
        requires totals { (self.old.ground.part.at.machine == 0) ≡ true
            → length self.old.judged.totals.items ≡ total_count self.old.ground.part.split.value }
        ensures state { core_state self.new ≡ close_go (core_state self.old) self.old.round dense }
        ensures ground { self.new.ground ≡ self.old.ground }
        ensures held { self.new.held ≡ self.old.held }
    {
        let totals = self.totals();
        close_rows(
            &self.ground,
            totals.as_slice(),
            self.round,
            dense,
            &mut self.rows,
            &mut self.partials,
            &mut self.ring,
        );
        turn_counts(&mut self.reading, &mut self.reads);
    }
}
