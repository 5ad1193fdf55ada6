ghost use Rattle.std.specs.Prelude.{IsTrue, ◌≡◌, ◌≤◌, ◌<◌, [], length, map};
ghost use Rattle.std.specs.List.{list_all};
ghost use Rattle.vert_base.specs.declared.limits.TheConstants.{ROUNDS};
ghost use Rattle.vert_tree.specs.Places.{expr_placed, row_counts, stop_counts};
ghost use Rattle.slot_merge.specs.Combine.{combined_of, neutral};
ghost use Rattle.vert_eval.specs.Rounds.{env_at};
ghost use Rattle.vert_eval.specs.Words.{is_set};
ghost use Rattle.vert_eval.specs.Values.{CanDraw, counts_of, value_of};
ghost use Rattle.vert_eval.specs.SourceRun.{scene_of, stops_after, total_after, totals_after};
ghost use Rattle.plain_run.specs.Jobs.{HasRows, job_of};

use super::job::Job;
use super::scene::{Scene, blank_env, enter_vertex};
use super::start::holds;
use arrayvec::ArrayVec;
use vert_base::{Combine, Row};
use vert_eval::{Env, eval};
use vert_tree::{Expr, TotalDecl};

fn first_word(op: Combine) -> i64
    ensures { result ≡ neutral op }
{
    match op {
        Combine::Min => i64::MAX,
        Combine::Max => i64::MIN,
        Combine::Sum => 0,
        Combine::First => 0,
    }
}

fn combined(op: Combine, held: i64, word: i64) -> i64
    ensures { result ≡ combined_of op held word }
{
    match op {
        Combine::Min => held.min(word),
        Combine::Max => held.max(word),
        Combine::Sum => held.wrapping_add(word),
        Combine::First => held,
    }
}

fn with_value(op: Combine, held: i64, value: &Expr, env: &Env) -> i64
    requires names { IsTrue (expr_placed (counts_of env.now) value.now) }
    requires draws { CanDraw env.now }
    ensures { result ≡ combined_of op held (value_of value.now env.now) }
{
    combined(op, held, eval(value, env))
}

/// A total over all vertices of the rows after a round.
fn total_after(job: &Job, round: u32, rows: &[Row], total: &TotalDecl) -> i64
    requires round { round ≤ ROUNDS }
    requires rows { HasRows job.now rows.now }
    requires names { IsTrue (expr_placed (row_counts job.now.program.now.program) total.now.value) }
    ensures { result ≡ total_after (job_of job.now) round rows.now total.now }
{
    let scene = Scene {
        program: job.program,
        graph: job.graph,
        draws: job.draws,
        round,
        rows,
        totals: &[],
    };
    let mut env = blank_env();
    let mut word = first_word(total.op);
    for v in 0..job.graph.vertices() {
        enter_vertex(&scene, v, &mut env);
        word = with_value(total.op, word, &total.value, &env);
    }
    word
}

fn total_words(job: &Job, round: u32, rows: &[Row], totals: &[TotalDecl]) -> ArrayVec<i64, 4>
    requires room { length totals.now ≤ 4 }
    requires round { round ≤ ROUNDS }
    requires rows { HasRows job.now rows.now }
    requires names { IsTrue (list_all (λ t. expr_placed
        (row_counts job.now.program.now.program) t.value) totals.now) }
    ensures { result.items ≡ map (total_after (job_of job.now) round rows.now) totals.now }
{
    let mut words = ArrayVec::new();
    for total in totals {
        words.push(total_after(job, round, rows, total));
    }
    words
}

/// The totals of the rows after a round.
pub(crate) fn totals_after(job: &Job, round: u32, rows: &[Row]) -> ArrayVec<i64, 4>
    requires round { round ≤ ROUNDS }
    requires rows { HasRows job.now rows.now }
    ensures { result.items ≡ totals_after (job_of job.now) round rows.now }
{
    total_words(job, round, rows, &job.program.program.totals)
}

fn test_after(job: &Job, round: u32, totals: &[i64], test: &Expr) -> bool
    requires some { 0 < job.now.graph.now.vertices }
    requires round { round ≤ ROUNDS }
    requires totals { length totals.now ≡ length job.now.program.now.program.totals.items }
    requires names { IsTrue (expr_placed (stop_counts job.now.program.now.program) test.now) }
    ensures { result ≡ is_set (value_of test.now
        (env_at (scene_of (job_of job.now) round [] totals.now) 0 [])) }
{
    let scene = Scene {
        program: job.program,
        graph: job.graph,
        draws: job.draws,
        round,
        rows: &[],
        totals,
    };
    let mut env = blank_env();
    enter_vertex(&scene, 0, &mut env);
    holds(test, &env)
}

/// Whether the stop test holds after a round, where there is a vertex.
pub(crate) fn stops_after(job: &Job, round: u32, totals: &[i64]) -> bool
    requires some { 0 < job.now.graph.now.vertices }
    requires round { round ≤ ROUNDS }
    requires totals { length totals.now ≡ length job.now.program.now.program.totals.items }
    ensures { result ≡ stops_after (job_of job.now) round totals.now }
{
    match &job.program.program.stop {
        None => false,
        Some(test) => test_after(job, round, totals, test),
    }
}
