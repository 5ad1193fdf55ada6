// How a machine takes a message.
ghost use Rattle.std.specs.Prelude.{◌≡◌, ℕ, false};
ghost use Rattle.circulant_plan.specs.declared.spot.Spot.TheVariants.{Tell};
ghost use Rattle.circulant_plan.specs.Skeleton.{is_over};
ghost use Rattle.circulant_plan.specs.Standing.{ruled_standing};

use crate::machine::Core;
use body_shape::ruling_of;
use circulant_plan::Spot;
use machine_steps::work_push;
use vert_base::{Message, NameKind, Ruling};
use vertex_work::add_update;

impl Core {
    ghost use Rattle.std.specs.Prelude.{◌≡◌, true};
    ghost use Rattle.vert_base.specs.Letters.{letter_of};
    ghost use Rattle.symple_face.specs.CoreSight.{known};
    ghost use Rattle.symple_face.specs.CoreWork.{core_take, kept};
    ghost use Rattle.symple_face.specs.State.{IsTakeable};
    ghost use Rattle.machine_core.specs.CoreState.{core_state};

    // Keeps a message as it is.
    fn keep(&mut self, msg: Message)
        requires takes { IsTakeable (core_state self.old) (letter_of msg) }
        requires same { core_take (core_state self.old) (letter_of msg)
            ≡ kept (core_state self.old) (letter_of msg) }
        ensures { core_state self.new ≡ core_take (core_state self.old) (letter_of msg) }
    {
        self.held.put(msg);
    }

    // Adds an update to the partials. Its body isn't kept.
    fn merge(&mut self, msg: &Message)
        requires takes { IsTakeable (core_state self.old) (letter_of msg.now) }
        requires kind { msg.now.name.kind ≡ NameKind.Update }
        ensures { core_state self.new ≡ core_take (core_state self.old) (letter_of msg.now) }
    {
        add_update(&self.ground, &msg.name, &msg.body, &mut self.partials);
        self.held.mark(&msg.name);
    }

    // Learns what was ruled.
    fn learn(&mut self, msg: Message)
        requires takes { IsTakeable (core_state self.old) (letter_of msg) }
        requires kind { msg.name.kind ≡ NameKind.Verdict }
        ensures { core_state self.new ≡ core_take (core_state self.old) (letter_of msg) }
    {
        self.ruling = ruling_of(&msg.body);
        self.spot = spot_ruled(self.ruling, self.spot);
        self.held.put(msg);
    }

    // Works what a push tells, by the totals that it knows. Its body isn't kept.
    fn work_known(&mut self, msg: &Message)
        requires takes { IsTakeable (core_state self.old) (letter_of msg.now) }
        requires kind { msg.now.name.kind ≡ NameKind.Push }
        requires knows { known (core_state self.old) ≡ true }
        ensures { core_state self.new ≡ core_take (core_state self.old) (letter_of msg.now) }
    {
        let totals = self.totals();
        work_push(
            &self.ground,
            totals.as_slice(),
            &self.rows,
            msg.name.round,
            msg.name.from,
            &msg.body,
            &mut self.partials,
        );
        self.held.mark(&msg.name);
    }

    // Works a push at once where the totals of its round are known, else it keeps it.
    fn work(&mut self, msg: Message)
        requires takes { IsTakeable (core_state self.old) (letter_of msg) }
        requires kind { msg.name.kind ≡ NameKind.Push }
        ensures { core_state self.new ≡ core_take (core_state self.old) (letter_of msg) }
    {
        if self.knows() {
            self.work_known(&msg);
        } else {
            self.keep(msg);
        }
    }

    /// Takes a message. It takes no memory.
    pub(crate) fn take_one(&mut self, msg: Message)
        requires { IsTakeable (core_state self.old) (letter_of msg) }
        ensures { core_state self.new ≡ core_take (core_state self.old) (letter_of msg) }
    {
        match msg.name.kind {
            NameKind::Refresh => self.keep(msg),
            NameKind::Dep => self.keep(msg),
            NameKind::Update => self.merge(&msg),
            NameKind::Push => self.work(msg),
            NameKind::Tally => self.keep(msg),
            NameKind::Verdict => self.learn(msg),
        }
    }
}

// Where a machine stands once the ruling of its round is known.
fn spot_ruled(ruling: Ruling, spot: Spot) -> Spot
    ensures stands { (round : ℕ) → ruled_standing ruling (record { spot = spot; round = round })
        ≡ record { spot = result; round = round } }
    ensures on { is_over result ≡ false → is_over spot ≡ false }
    ensures first { result ≡ Tell → spot ≡ Tell }
{
    match ruling {
        Ruling::Stop => Spot::Over,
        Ruling::Dense | Ruling::Sparse => spot,
    }
}
