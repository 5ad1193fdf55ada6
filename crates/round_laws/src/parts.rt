ghost use Rattle.round_laws.specs.Chunks.{EachHasAChunk, EndsReach, NoneHasTwo};
ghost use Rattle.round_laws.specs.Keys.{KeysBelow, KeysRise};
ghost use Rattle.round_laws.specs.Members.{PushMembers, ScanMembers, ScansReadInTurn, StepsMembers};
ghost use Rattle.round_laws.specs.Planned.{PlannedCanBeTaken};
ghost use Rattle.round_laws.specs.Sums.{ChunksCover, CountsByChunks, StepsAreMachines};
ghost use Rattle.round_laws.specs.Sums.{SumsByChunks, SumsByMachines, TotalsByChunks};
ghost use Rattle.round_laws.specs.Vertices.{KnowsOwn, KnowsWorked, PushedMeet, RefreshedMeet};

/// The law that each vertex lies in one chunk, and that the chunks are those of the ring. It does nothing.
pub fn one_chunk()
    ensures reach { EndsReach }
    ensures some { EachHasAChunk }
    ensures one { NoneHasTwo }
{}

/// The law of the edges into a vertex, as the parts of the machines hold them. It does nothing.
pub fn member_edges()
    ensures scan { ScanMembers }
    ensures push { PushMembers }
    ensures steps { StepsMembers }
    ensures turn { ScansReadInTurn }
{}

/// The law of the vertices that messages between two machines speak of. It does nothing.
pub fn met_vertices()
    ensures refreshed { RefreshedMeet }
    ensures pushed { PushedMeet }
{}

/// The law of the vertices whose degrees a machine knows. It does nothing.
pub fn known_degrees()
    ensures own { KnowsOwn }
    ensures worked { KnowsWorked }
{}

/// The law of the keys under which a sparse round combines the words of a vertex. It does nothing.
pub fn sparse_keys()
    ensures below { KeysBelow }
    ensures rise { KeysRise }
{}

/// The law that what is summed chunk by chunk, or machine by machine, is the sum over all vertices. It does nothing.
pub fn chunk_sums()
    ensures cover { ChunksCover }
    ensures sums { SumsByChunks }
    ensures counts { CountsByChunks }
    ensures totals { TotalsByChunks }
    ensures steps { StepsAreMachines }
    ensures machines { SumsByMachines }
{}

/// The law that a machine's buffer has a place for each message that the plan sends to it. It does nothing.
pub fn planned_can_take()
    ensures { PlannedCanBeTaken }
{}
