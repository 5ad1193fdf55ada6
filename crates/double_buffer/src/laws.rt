ghost use Rattle.vert_base.specs.Letters.{PlacedIsFound, TakenIsGone};
ghost use Rattle.double_buffer.specs.Laws.{NeedsCanBeTaken, StaysOfRound};

/// The laws of the messages held, which its clauses say: they are a finite map by name, and a
/// machine can take each message that it needs. It does nothing.
pub fn by_name()
    ensures put { PlacedIsFound }
    ensures lifted { TakenIsGone }
    ensures needs { NeedsCanBeTaken }
    ensures round { StaysOfRound }
{}
