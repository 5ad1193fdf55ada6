ghost use Rattle.std.specs.Prelude.{ℕ, List};
ghost use Rattle.program_reader.specs.Laws.{AcceptedIsUnrefused, HasOneRefusal, IsDecided, IsSaid, SaidIsAccepted, SaysNoneRefused, SaysOneTree};

/// The laws of what texts say, which its clauses say. It does nothing.
pub fn accepted_once()
    ensures tree { (text : List ℕ) → SaysOneTree text }
    ensures refusal { (text : List ℕ) → HasOneRefusal text }
    ensures never_both { (text : List ℕ) → SaysNoneRefused text }
    ensures said { (text : List ℕ) → SaidIsAccepted text }
    ensures accepted { (text : List ℕ) → IsSaid text }
    ensures unrefused { (text : List ℕ) → AcceptedIsUnrefused text }
    ensures decided { (text : List ℕ) → IsDecided text }
{}
