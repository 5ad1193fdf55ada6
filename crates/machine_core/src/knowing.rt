// What a machine knows of the round.

use crate::machine::Core;
use arrayvec::ArrayVec;
use body_shape::read_words;
use circulant_plan::Spot;
use machine_parts::first_missing;
use machine_steps::held_body;
use symple_face::Action;
use vert_base::{Name, NameKind};
use vertex_work::copy_words;

impl Core {
    ghost use Rattle.std.specs.Prelude.{◌≡◌};
    ghost use Rattle.circulant_plan.specs.Names.{verdict_name};
    ghost use Rattle.symple_face.specs.CoreSight.{known, known_totals};
    ghost use Rattle.symple_face.specs.State.{action_of};
    ghost use Rattle.machine_core.specs.CoreState.{core_state};

    // The verdict of the round of the spot.
    fn verdict_of_round(&self) -> Name
        ensures { result ≡ verdict_name self.now.round self.now.ground.part.at.machine }
    {
        Name {
            kind: NameKind::Verdict,
            round: self.round,
            step: 0,
            half: 0,
            from: 0,
            to: self.ground.machine(),
        }
    }

    /// Whether it knows the totals of the round of its spot.
    pub(crate) fn knows(&self) -> bool
        ensures { result ≡ known (core_state self.now) }
    {
        if self.ground.machine() == 0 {
            1 <= self.round
        } else {
            self.held.has(&self.verdict_of_round())
        }
    }

    /// These totals, zeros where they aren't known.
    pub(crate) fn totals(&self) -> ArrayVec<i64, 4>
        ensures { result.items ≡ known_totals (core_state self.now) }
    {
        let mut words = ArrayVec::new();
        if self.ground.machine() == 0 {
            copy_words(self.judged.totals.as_slice(), &mut words);
        } else {
            let body = held_body(&self.held, &self.verdict_of_round());
            read_words(body, 1, self.ground.program().totals.len(), &mut words);
        }
        words
    }

    /// What it can do next.
    pub(crate) fn next_action(&self) -> Action
        ensures { result ≡ action_of (core_state self.now) }
    {
        if let Spot::Over = self.spot {
            return Action::Over;
        }
        match first_missing(
            &self.ground.ring(),
            self.ground.machine(),
            &self.spot,
            &self.held,
        ) {
            None => Action::Ready,
            Some(name) => Action::Waits(name),
        }
    }
}
