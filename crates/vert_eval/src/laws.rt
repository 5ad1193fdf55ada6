ghost use Rattle.std.specs.Prelude.{List};
ghost use Rattle.vert_tree.specs.declared.statement.Stmt.{Stmt};
ghost use Rattle.vert_eval.specs.Rounds.{Scene};
ghost use Rattle.vert_eval.specs.Splits.{SplitsInTwo, SplitsInParts};

/// The law of split loops, which its clauses say. It does nothing.
pub fn split_loops()
    ensures two { (s : Scene) → (body : List Stmt) → SplitsInTwo s body }
    ensures parts { (s : Scene) → (body : List Stmt) → SplitsInParts s body }
{}
