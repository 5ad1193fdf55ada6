// What the begin of a round leaves of a machine, and how it takes pushes.
use crate::machine::Core;
use machine_steps::{begin_partials, drop_pushes};

impl Core {
    ghost use Rattle.std.specs.Prelude.{◌≡◌, ◌==◌, ◌≤◌, length, true};
    ghost use Rattle.circulant_plan.specs.declared.spot.Spot.TheVariants.{Begin};
    ghost use Rattle.symple_face.specs.CoreSight.{total_count};
    ghost use Rattle.symple_face.specs.CoreSparse.{begin_go};
    ghost use Rattle.machine_core.specs.CoreState.{core_state};

    /// Works the sends with which the round of its spot begins, where it stays. It takes no memory.
    pub(crate) fn begin_round(&mut self)
        requires spot { self.old.spot ≡ Begin self.old.round }
        requires low { self.old.round ≤ 10000 }
        requires some { 1 ≤ self.old.round }
        ensures { core_state self.new ≡ begin_go (core_state self.old) self.old.round }
    {
        let totals = self.totals();
        begin_partials(
            &self.ground,
            totals.as_slice(),
            &self.rows,
            self.ruling,
            &self.held,
            self.round,
            &mut self.partials,
        );
        drop_pushes(&self.ground, &mut self.held, self.round);
    }
}
