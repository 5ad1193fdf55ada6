// A machine is made.
ghost use Rattle.std.specs.Prelude.{◌≡◌};
ghost use Rattle.vert_base.specs.declared.value.Ruling.TheVariants.{Stop};
ghost use Rattle.symple_face.specs.CoreFirst.{no_sums};
ghost use Rattle.machine_steps.specs.Plain.{plain_sums};

use crate::machine::Core;
use crate::making::{blank_tables, make_ground};
use arrayvec::ArrayVec;
use body_shape::Counts;
use circulant_plan::Spot;
use double_buffer::Slots;
use machine_steps::Sums;
use std::alloc::Global;
use symple_face::{Part, Report};
use vert_base::{Ruling, Want};

impl Core {
    ghost use Rattle.std.specs.Prelude.{◌≡◌, IfOk};
    ghost use Rattle.symple_face.specs.CoreFirst.{core_first};
    ghost use Rattle.symple_face.specs.PartViews.{plain_of};
    ghost use Rattle.machine_core.specs.CoreState.{core_state};

    /// The machine of a part before its first action. All memory that it ever keeps is taken here,
    /// but for the bodies of messages.
    pub(crate) fn first(alloc: Global, part: Part) -> Result<Core, Want>
        ensures { IfOk result (λ core. core_state core
            ≡ core_first (plain_of part) part.split.value) }
    {
        let ground = make_ground(alloc, part)?;
        let blank = blank_tables(alloc, &ground)?;
        let held = Slots::make(alloc, ground.machines())?;
        let verdict = Vec::with_capacity(alloc, 33)?;
        Ok(Core {
            alloc,
            ground,
            spot: Spot::Tell,
            round: 0,
            ruling: Ruling::Stop,
            held,
            rows: blank.rows,
            partials: blank.partials,
            ring: blank.ring,
            reading: blank.reading,
            reads: blank.reads,
            judged: sums_before(),
            report: report_before(),
            verdict,
        })
    }
}

// What was judged before the first round.
fn sums_before() -> Sums
    ensures { plain_sums result ≡ no_sums }
{
    Sums {
        counts: Counts {
            active: 0,
            edges: 0,
            reads: 0,
        },
        totals: ArrayVec::new(),
    }
}

// What is told before the first round.
fn report_before() -> Report
    ensures { result ≡ record { round = 0; ruling = Stop; active = 0; edges = 0; reads = 0 } }
{
    Report {
        round: 0,
        ruling: Ruling::Stop,
        active: 0,
        edges: 0,
        reads: 0,
    }
}
