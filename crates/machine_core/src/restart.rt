// A core can begin at a later round.
ghost use Rattle.work_laws.proofs.Whole.{core_restarts};

use crate::machine::Core;
use crate::starting::{ahead_of, copy_rows, hold_start, judge_start};
use circulant_plan::Spot;
use std::mem;
use symple_face::{Ahead, Restart, Start};

impl Core {
    ghost use Rattle.std.specs.Prelude.{◌≡◌, option_map};
    ghost use Rattle.symple_face.specs.CoreFirst.{core_ahead, core_first, core_restarted};
    ghost use Rattle.symple_face.specs.Restarts.{IsStart};
    ghost use Rattle.symple_face.specs.Work.{plain_ahead, plain_start};
    ghost use Rattle.machine_core.specs.CoreState.{core_state};

    // Puts a machine that was just made to the begin of a round. It takes no memory.
    fn begin_at(&mut self, start: &Start)
        requires made { let s = core_state self.old in s ≡ core_first s.part s.split }
        requires start { let s = core_state self.old in
            IsStart s.part s.split (plain_start start.now) }
        ensures { let s = core_state self.old in
            core_state self.new ≡ core_restarted s.part s.split (plain_start start.now) }
    {
        let machine = self.ground.machine();
        let body = mem::replace(&mut self.verdict, Vec::new(self.alloc));
        copy_rows(&self.ground, &start.rows, &mut self.rows);
        judge_start(machine, start, &mut self.judged);
        hold_start(machine, start, body, &mut self.held);
        self.ruling = start.ruling;
        self.round = start.round;
        self.spot = Spot::Begin { round: start.round };
    }

    // What machine 0 tells where a round begins.
    fn told_ahead(&self) -> Option<Ahead>
        ensures { option_map plain_ahead result ≡ core_ahead (core_state self.now) }
    {
        if self.ground.machine() != 0 {
            return None;
        }
        match self.spot {
            Spot::Begin { round } => Some(ahead_of(round, self.ruling, &self.judged)),
            Spot::Tell
            | Spot::Judge { round: _ }
            | Spot::Scan {
                round: _,
                step: _,
                half: _,
            }
            | Spot::Close { round: _, dense: _ }
            | Spot::Over => None,
        }
    }
}

impl Restart for Core {
    fn restart(&mut self, start: &Start) {
        self.begin_at(start);
    }

    fn ahead(&self) -> Option<Ahead> {
        self.told_ahead()
    }

    ghost restart_lawful = { core_restarts };
}
