ghost use Rattle.std.specs.Prelude.{IsTrue, List};
ghost use Rattle.vert_tree.specs.declared.program.Program.{Program};
ghost use Rattle.vert_tree.specs.declared.statement.Stmt.{Stmt};
ghost use Rattle.vert_tree.specs.Typed.{is_typed};
ghost use Rattle.carry_analysis.specs.declared.classes.Class.{Class};
ghost use Rattle.vert_eval.specs.SourceRun.{Job};
ghost use Rattle.order_laws.specs.OrderFree.{IsOrderFree, ResumesAlike, RunsAlike};
ghost use Rattle.order_free.specs.Forms.{FormsApart};
ghost use Rattle.order_free.specs.Free.{freedom_of, is_free};

use order_laws::order_free_runs;

/// The law of the programs of which one of the first four answers is given: over every two lists of
/// ends of chunks their runs are alike but for the reads, and so are those that go on at a round. The
/// forms of loops don't overlap, so the order in which they are tried doesn't matter. It
/// does nothing.
pub fn order_free_programs()
    ensures apart { (classes : List Class) → (body : List Stmt) → FormsApart classes body }
    ensures conditions { (p : Program) → IsTrue (is_typed p) → IsTrue (is_free (freedom_of p)) →
        IsOrderFree p }
    ensures runs { (job : Job) → IsTrue (is_typed job.program) →
        IsTrue (is_free (freedom_of job.program)) → RunsAlike job }
    ensures resumes { (job : Job) → IsTrue (is_typed job.program) →
        IsTrue (is_free (freedom_of job.program)) → ResumesAlike job }
{
    order_free_runs();
}
