ghost use Rattle.machine_parts.specs.Seen.{OwnEdgesAreSeen, OwnIsSeen, OwnTotalIsSeen};
ghost use Rattle.machine_parts.specs.Spans.{SpansRise, TargetsAreTold};

/// The law that an environment entered at an own vertex is the one that a machine sees there, and
/// that what is counted of own vertices is what it sees of them. It does nothing.
pub fn own_vertices()
    ensures seen { OwnIsSeen }
    ensures total { OwnTotalIsSeen }
    ensures edges { OwnEdgesAreSeen }
{}

/// The law that spans stand by ascending vertex, and that the targets in a chunk are the vertices
/// whose rows its machine tells. It does nothing.
pub fn rising_spans()
    ensures rise { SpansRise }
    ensures told { TargetsAreTold }
{}
