ghost use Rattle.std.specs.Prelude.{◌≡◌, ◌≤◌, IfOk, length, map};
ghost use Rattle.vert_base.specs.declared.limits.TheConstants.{ROUNDS, VERTICES};
ghost use Rattle.chunk_split.specs.Chunks.{vertices_of};
ghost use Rattle.vert_eval.specs.SourceRun.{next_standing, played_at, resumed_run, source_run};
ghost use Rattle.plain_run.specs.Jobs.{IsStanding, job_of, standing_of, table_job};
ghost use Rattle.plain_run.specs.Told.{rounds_told, told_of, told_played};
ghost use Rattle.plain_run.specs.Views.{AreWide};

use super::graph::Graph;
use super::job::{Job, Standing, limit_of};
use super::round::round;
use super::scene::Scene;
use super::standing::standing_after;
use super::start::first_rows;
use chunk_split::Cuts;
use graph_table::Table;
use std::alloc::{AllocError, Global};
use vert_base::limits::MACHINES;
use vert_base::{Row, Ruling, VertexId, Want};
use vert_tree::Typed;

/// A round that took place. `read` is how many sources were read, and `reads` has for each vertex
/// those that its loop read, in order, where they are kept.
#[derive(Drop)]
pub struct PlayedRound {
    pub round: u32,
    pub ruling: Ruling,
    pub active: u64,
    pub edges: u64,
    pub read: u64,
    pub reads: Vec<Vec<VertexId>>,
}

/// What a run gives: the rows after the last round, and the rounds that took place.
#[derive(Drop)]
pub struct PlainRun {
    pub rows: Vec<Row>,
    pub rounds: Vec<PlayedRound>,
}

/// What is told of one round, and what stands after it.
#[derive(Drop)]
struct Step {
    played: PlayedRound,
    next: Standing,
}

/// The round before which this stands.
fn play(alloc: Global, job: &Job, number: u32, standing: &Standing) -> Result<Step, AllocError>
    requires number { number ≤ ROUNDS }
    requires standing { IsStanding job.now standing.now }
    ensures told { IfOk result (λ step. told_of step.played
        ≡ told_played job.now.kept (played_at (job_of job.now) number (standing_of standing.now))) }
    ensures next { IfOk result (λ step. standing_of step.next
        ≡ next_standing (job_of job.now) number (standing_of standing.now)) }
    ensures stands { IfOk result (λ step. IsStanding job.now step.next) }
{
    let scene = Scene {
        program: job.program,
        graph: job.graph,
        draws: job.draws,
        round: number,
        rows: &standing.rows,
        totals: &standing.totals,
    };
    let outcome = round(alloc, &scene, standing.ruling, job.kept)?;
    let played = PlayedRound {
        round: number,
        ruling: standing.ruling,
        active: standing.active,
        edges: standing.edges,
        read: outcome.read,
        reads: outcome.reads,
    };
    let next = standing_after(job, number, outcome.rows);
    Ok(Step { played, next })
}

/// The rounds from the first one on.
fn run_from(alloc: Global, job: &Job, first: Standing) -> Result<PlainRun, AllocError>
    requires { IsStanding job.now first }
    ensures rows { IfOk result (λ run. run.rows.items ≡
        (resumed_run (job_of job.now) 1 (standing_of first)).last.rows) }
    ensures rounds { IfOk result (λ run. map told_of run.rounds.items
        ≡ rounds_told job.now.kept (resumed_run (job_of job.now) 1 (standing_of first))) }
    ensures each { IfOk result (λ run. length run.rows.items ≡ job.now.graph.now.vertices) }
    ensures wide { IfOk result (λ run.
        AreWide (length job.now.program.now.program.fields.items) run.rows.items) }
{
    let mut standing = first;
    let mut rounds = Vec::new(alloc);
    for number in 1..limit_of(job.program) + 1 {
        match standing.ruling {
            Ruling::Stop => {
                return Ok(PlainRun {
                    rows: standing.rows,
                    rounds,
                });
            }
            _ => {}
        }
        let step = play(alloc, job, number, &standing)?;
        rounds.push(step.played)?;
        standing = step.next;
    }
    Ok(PlainRun {
        rows: standing.rows,
        rounds,
    })
}

fn run_job(alloc: Global, job: &Job) -> Result<PlainRun, AllocError>
    ensures rows { IfOk result (λ run. run.rows.items ≡ (source_run (job_of job.now)).last.rows) }
    ensures rounds { IfOk result (λ run. map told_of run.rounds.items ≡ rounds_told job.now.kept
        (source_run (job_of job.now))) }
    ensures each { IfOk result (λ run. length run.rows.items ≡ job.now.graph.now.vertices) }
    ensures wide { IfOk result (λ run.
        AreWide (length job.now.program.now.program.fields.items) run.rows.items) }
{
    let rows = first_rows(alloc, job)?;
    run_from(alloc, job, standing_after(job, 0, rows))
}

/// The run of a program over the edges of a table by one machine, which holds all vertices and
/// reads the edges into each in the order that the ends of the chunks give. The only error is want
/// of memory.
///
/// What each vertex read is kept only where it is asked for.
pub fn run_plainly(
    alloc: Global,
    program: &Typed,
    table: &Table,
    cuts: &Cuts<MACHINES>,
    draws: u64,
    kept: bool,
) -> Result<PlainRun, Want>
    requires { vertices_of cuts.now ≡ table.now.vertices }
    ensures rows { IfOk result (λ run. run.rows.items
        ≡ (source_run (table_job program.now.program table.now cuts.now draws)).last.rows) }
    ensures rounds { IfOk result (λ run. map told_of run.rounds.items ≡ rounds_told kept
        (source_run (table_job program.now.program table.now cuts.now draws))) }
    ensures each { IfOk result (λ run. length run.rows.items ≡ table.now.vertices) }
    ensures few { IfOk result (λ run. length run.rows.items ≤ VERTICES) }
    ensures wide { IfOk result (λ run.
        AreWide (length program.now.program.fields.items) run.rows.items) }
{
    let _vertices = table.vertices();
    let graph = Graph { table, cuts };
    let job = Job {
        program,
        graph: &graph,
        draws,
        kept,
    };
    Ok(run_job(alloc, &job)?)
}
