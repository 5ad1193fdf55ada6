ghost use Rattle.symple_face.specs.PartsOf.{ShapesAgree};
ghost use Rattle.mirror_table.specs.Laws.{DegreesAscend, PushesHoldEach, ScansHoldEach};

/// The law of the edges of all parts, which its clauses say. It does nothing.
pub fn edges_once()
    ensures scans { ScansHoldEach }
    ensures pushes { PushesHoldEach }
{}

/// The law of the order of degrees, which its clause says. It does nothing.
pub fn degrees_ascend()
    ensures { DegreesAscend }
{}

/// The law of the forms of messages, which its clause says. It does nothing.
pub fn shapes_agree()
    ensures { ShapesAgree }
{}
