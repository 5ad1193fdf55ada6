// What happens after a round.
ghost use Rattle.std.specs.Prelude.{◌≡◌, ◌≤◌, ◌<◌, ◌+◌, ◌^◌, if◌then◌else◌};
ghost use Rattle.mode_switch.specs.Ruling.{ruling_of};
ghost use Rattle.vert_eval.specs.SourceRun.{stops};
ghost use Rattle.vert_eval.specs.Values.{CanDraw};
ghost use Rattle.machine_parts.specs.Judging.{IsStopPlaced};

use body_shape::Counts;
use mode_switch::ruling;
use vert_base::Ruling;
use vert_eval::{Env, eval, truth};
use vert_tree::{Expr, Program};

/// The ruling for the round behind that of an environment, which has the totals of all vertices, by
/// the sums over all machines and the number of all edges.
pub fn rule(program: &Program, env: &Env, sums: &Counts, edges: u32) -> Ruling
    requires names { IsStopPlaced program.now.stop env.now }
    requires draws { CanDraw env.now }
    requires limit { program.now.limit ≤ 10000 }
    requires active { sums.now.active < 2 ^ 40 }
    requires ahead { sums.now.edges < 2 ^ 40 }
    ensures { result ≡ (if stops program.now.stop env.now
        then Ruling.Stop
        else ruling_of sums.now.active sums.now.edges edges (env.now.round + 1)
        program.now.limit program.now.mode) }
{
    if stops(&program.stop, env) {
        return Ruling::Stop;
    }
    ruling(
        sums.active,
        sums.edges,
        u64::from(edges),
        env.round + 1,
        program.limit as u32,
        program.mode,
    )
}

// Whether the stop test is there and true.
fn stops(test: &Option<Expr>, env: &Env) -> bool
    requires names { IsStopPlaced test.now env.now }
    requires draws { CanDraw env.now }
    ensures { result ≡ stops test.now env.now }
{
    match test {
        Some(test) => truth(eval(test, env)),
        None => false,
    }
}
