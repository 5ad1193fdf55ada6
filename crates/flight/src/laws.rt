ghost use Rattle.vert_base.specs.Letters.{NamesAreTheirNumbers, PlacedIsFound, TakenIsGone};

/// The laws of messages by name, which its clauses say. It does nothing.
pub fn by_name()
    ensures names { NamesAreTheirNumbers }
    ensures sent { PlacedIsFound }
    ensures picked { TakenIsGone }
{}
