// How a machine goes on to its next spot.
use crate::machine::Core;
use crate::standing::{keep_at, next_spot, round_of, round_ruled};

impl Core {
    ghost use Rattle.std.specs.Prelude.{◌≡◌, ℕ, length};
    ghost use Rattle.circulant_plan.specs.declared.spot.Spot.TheVariants.{Judge};
    ghost use Rattle.symple_face.specs.CoreSight.{total_count};
    ghost use Rattle.work_laws.specs.Sound.{core_sound};
    ghost use Rattle.machine_core.specs.CoreState.{core_state};
    ghost use Rattle.machine_steps.specs.Going.{onward};

    /// Goes on by the ruling that it knows. At the begin of a round it lets go of what it held of the
    /// one before.
    pub(crate) fn move_on(&mut self)
        requires sound { ∥ core_sound (onward (core_state self.old)) ∥₁ }
        requires judged { (r : ℕ) → self.old.spot ≡ Judge r → length self.old.judged.totals.items
            ≡ total_count self.old.ground.part.split.value }
        ensures { core_state self.new ≡ onward (core_state self.old) }
    {
        let ring = self.ground.ring();
        let next = next_spot(&ring, self.ground.machine(), &self.spot, self.ruling);
        let last = round_ruled(&ring, self.round, &self.spot);
        self.round = round_of(last, &next);
        keep_at(&next, &mut self.held);
        self.spot = next;
    }
}
