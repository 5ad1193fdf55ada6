// A core is a machine of a run.
ghost use Rattle.std.specs.Prelude.{refl};
ghost use Rattle.symple_face.specs.CoreWork.{core_work};
ghost use Rattle.work_laws.proofs.Whole.{core_lawful};
ghost use Rattle.work_laws.specs.Sound.{core_sound};
ghost use Rattle.machine_core.specs.CoreState.{core_state};

use crate::machine::Core;
use circulant_plan::Spot;
use machine_steps::sources_read;
use std::alloc::Global;
use symple_face::{Action, Part, Report, Site};
use vert_base::{Message, Row, VertexId, Want};

impl Site for Core {
    ghost state = { core_state };

    ghost work = { core_work };

    ghost sound = { core_sound };

    ghost is_core = { Unit {0} };

    fn make(alloc: Global, part: Part) -> Result<Core, Want> {
        Core::first(alloc, part)
    }

    fn part(&self) -> &Part {
        &self.ground.part
    }

    fn spot(&self) -> Spot {
        self.spot
    }

    fn action(&self) -> Action {
        self.next_action()
    }

    fn go(&mut self, out: &mut Vec<Message>) -> Result<(), Want> {
        self.act(out)
    }

    fn take(&mut self, msg: Message) {
        self.take_one(msg);
    }

    fn row(&self, v: VertexId, into: &mut Row) {
        let place = (v.0 - self.ground.start()) as usize;
        self.rows.read(place, into);
    }

    fn reads(&self, v: VertexId) -> &[VertexId] {
        sources_read(&self.ground, &self.reads, v)
    }

    fn report(&self) -> Report {
        self.report
    }

    ghost lawful = { core_lawful };

    ghost core = { λ _. refl };
}
