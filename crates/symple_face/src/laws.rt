ghost use Rattle.symple_face.specs.Planned.{PlansByTable};

/// The law of the messages that have a shape, which its clause says. It does nothing.
pub fn planned_by_table()
    ensures { PlansByTable }
{}
