ghost use Rattle.std.specs.Prelude.{◌≡◌, ◌≤◌, ◌+◌, if◌then◌else◌, length};
ghost use Rattle.vert_base.specs.declared.limits.TheConstants.{ROUNDS};
ghost use Rattle.vert_base.specs.declared.value.Ruling.TheVariants.{Stop};
ghost use Rattle.mode_switch.specs.Ruling.{ruling_of};
ghost use Rattle.vert_eval.specs.SourceRun.{active_edges, active_vertices, standing_after, stops_after};
ghost use Rattle.plain_run.specs.Jobs.{HasRows, IsStanding, job_of, standing_of};

use super::graph::Graph;
use super::job::{Job, Standing, limit_of};
use super::totals::{stops_after, totals_after};
use mode_switch::ruling;
use vert_base::{Row, Ruling};

fn active_vertices(rows: &[Row]) -> u64
    ensures { result ≡ active_vertices rows.now }
{
    rows.iter().filter(|row| row.active).count() as u64
}

/// How many edges leave the active vertices.
fn active_edges(graph: &Graph, rows: &[Row]) -> u64
    requires { length rows.now ≡ graph.now.vertices }
    ensures edges { result ≡ active_edges graph.now rows.now }
    ensures few { result ≤ length graph.now.edges }
{
    let _edges = graph.edges();
    let mut edges = 0u64;
    for v in 0..graph.vertices() {
        if rows[v as usize].active {
            edges += u64::from(graph.outdegree(v));
        }
    }
    edges
}

/// Whether and in which mode a round follows, given how many vertices are active and how many edges
/// leave them.
fn ruling_after(job: &Job, round: u32, active: u64, edges: u64, totals: &[i64]) -> Ruling
    requires round { round ≤ ROUNDS }
    requires active { active ≤ job.now.graph.now.vertices }
    requires edges { edges ≤ length job.now.graph.now.edges }
    requires totals { length totals.now ≡ length job.now.program.now.program.totals.items }
    ensures { result ≡ (if stops_after (job_of job.now) round totals.now then Stop
        else ruling_of active edges (length job.now.graph.now.edges) (round + 1)
        job.now.program.now.program.limit job.now.program.now.program.mode) }
{
    let _vertices = job.graph.vertices();
    if active == 0 {
        return Ruling::Stop;
    }
    if stops_after(job, round, totals) {
        return Ruling::Stop;
    }
    ruling(
        active,
        edges,
        u64::from(job.graph.edges()),
        round + 1,
        limit_of(job.program),
        job.program.program.mode,
    )
}

/// What stands after a round, given its rows.
pub(crate) fn standing_after(job: &Job, round: u32, rows: Vec<Row>) -> Standing
    requires round { round ≤ ROUNDS }
    requires rows { HasRows job.now rows.items }
    ensures standing { standing_of result ≡ standing_after (job_of job.now) round rows.items }
    ensures stands { IsStanding job.now result }
{
    let totals = totals_after(job, round, &rows);
    let active = active_vertices(&rows);
    let edges = active_edges(job.graph, &rows);
    let ruling = ruling_after(job, round, active, edges, &totals);
    Standing {
        rows,
        totals,
        ruling,
        active,
        edges,
    }
}
