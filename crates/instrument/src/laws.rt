ghost use Rattle.vert_tree.specs.declared.program.Dense.{Dense};
ghost use Rattle.vert_tree.specs.declared.program.Program.{Program};
ghost use Rattle.vert_eval.specs.declared.environment.Env.{Env};
ghost use Rattle.vert_eval.specs.Rounds.{Scene};
ghost use Rattle.instrument.specs.Continued.{BeginsWithOwn, ComesTogether, Ends, GivesEachWord, GivesOn, GoesOn, IsSplit, LeavesNeutral, LetsStay};

/// The law of split loops, which its clauses say. It does nothing.
pub fn segments_are_the_loop()
    ensures goes_on { (p : Program) (d : Dense) (s : Scene) (env : Env) → IsSplit p d env →
        GoesOn s d env }
    ensures ends { (d : Dense) (s : Scene) (env : Env) → Ends s d env }
    ensures begins { (d : Dense) (env : Env) → BeginsWithOwn d env }
    ensures gives { (d : Dense) → GivesOn d }
    ensures words { (d : Dense) → GivesEachWord d }
    ensures neutral { (d : Dense) (s : Scene) (env : Env) → LeavesNeutral s d env }
    ensures stays { (p : Program) (d : Dense) (s : Scene) (env : Env) → IsSplit p d env →
        LetsStay s d env }
    ensures together { (p : Program) (d : Dense) (s : Scene) (env : Env) → IsSplit p d env →
        ComesTogether s d env }
{}
