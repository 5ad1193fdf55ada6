ghost use Rattle.std.specs.Prelude.{◌≡◌};
ghost use Rattle.vert_tree.specs.Kinds.{kinds_of};
ghost use Rattle.lying_site.specs.Lies.{lying_row, lying_work};
ghost use Rattle.lying_site.specs.LieLaws.{lies_lawful, lies_restart};

use circulant_plan::Spot;
use instrument::Split;
use std::alloc::Global;
use symple_face::{Action, Ahead, Part, Report, Restart, Site, Start};
use vert_base::{Message, Row, ValueType, VertexId, Want};
use vert_eval::put;

/// A machine as the one that it holds, but with 77 for the first field in each row, where that field is a
/// number. It keeps all that every kind of machine keeps, and isn't a core.
#[derive(Drop)]
pub struct Lying<S: Site> {
    inner: S,
}

// Puts the lie into a row.
fn lie(split: &Split, row: &mut Row)
    ensures { row.new ≡ lying_row (kinds_of split.now.program.program.fields.items) row.old }
{
    if row.words.is_empty() {
        return;
    }
    match split.program.program.fields.first() {
        Some(decl) => match decl.kind {
            ValueType::Int => put(&mut row.words, 0, 77),
            ValueType::Bool => {}
        },
        None => {}
    }
}

impl<S: Site> Site for Lying<S> {
    ghost state = { λ l. S.state l.inner };

    ghost work = { lying_work S.work };

    ghost sound = { S.sound };

    ghost is_core = { ⊥ };

    fn make(alloc: Global, part: Part) -> Result<Lying<S>, Want> {
        let inner = S::make(alloc, part)?;
        Ok(Lying { inner })
    }

    fn part(&self) -> &Part {
        self.inner.part()
    }

    fn spot(&self) -> Spot {
        self.inner.spot()
    }

    fn action(&self) -> Action {
        self.inner.action()
    }

    fn go(&mut self, out: &mut Vec<Message>) -> Result<(), Want> {
        self.inner.go(out)
    }

    fn take(&mut self, msg: Message) {
        self.inner.take(msg);
    }

    fn row(&self, v: VertexId, into: &mut Row) {
        self.inner.row(v, into);
        lie(&self.inner.part().split, into);
    }

    fn reads(&self, v: VertexId) -> &[VertexId] {
        self.inner.reads(v)
    }

    fn report(&self) -> Report {
        self.inner.report()
    }

    ghost lawful = { lies_lawful S.work S.sound S.lawful };

    ghost core = { λ never. absurd never };
}

impl<S: Restart> Restart for Lying<S> {
    fn restart(&mut self, start: &Start) {
        self.inner.restart(start);
    }

    fn ahead(&self) -> Option<Ahead> {
        self.inner.ahead()
    }

    ghost restart_lawful = { lies_restart S.work S.sound S.restart_lawful };
}
