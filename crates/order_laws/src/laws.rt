ghost use Rattle.std.specs.Prelude.{List};
ghost use Rattle.vert_tree.specs.declared.statement.Stmt.{Stmt};
ghost use Rattle.vert_eval.specs.SourceRun.{Job};
ghost use Rattle.order_laws.specs.Agreement.{FlipsPairs, FlipsTwo, LoopAgrees};
ghost use Rattle.order_laws.specs.OrderFree.{IsOrderFree, RunsAlike, ResumesAlike};

/// The law of programs that don't depend on the order of neighbours, for whole runs and for runs that
/// go on at a round, as its clauses say. It does nothing.
pub fn order_free_runs()
    ensures runs { (job : Job) → IsOrderFree job.program → RunsAlike job }
    ensures resumes { (job : Job) → IsOrderFree job.program → ResumesAlike job }
{}

/// The law of loops that agree: two members alone, or two in front of others, may change places, and
/// so all may. It does nothing.
pub fn order_free_loops()
    ensures flips { (body : List Stmt) → FlipsTwo body → LoopAgrees body }
    ensures pairs { (body : List Stmt) → FlipsPairs body → LoopAgrees body }
{}
