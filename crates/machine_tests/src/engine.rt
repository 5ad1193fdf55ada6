//! Runs rounds by code: bodies as stack code over feeds, all other expressions by their trees.

use super::steps::{step, value, walk};
use super::views::{add, blank_emits, env_at, members_at, row_copy};
use arrayvec::ArrayVec;
use edge_reader::Edges;
use plain_run::{PlainRun, PlayedRound};
use slot_merge::{Emits, Partial};
use std::alloc::{AllocError, Global};
use std::process::Abort;
use vert_base::{Neighbour, Row, Ruling, VertexId};
use vert_code::{Block, Code};
use vert_eval::{Env, truth};
use vert_tree::{Dense, Program, Sparse};

/// What a run works on.
#[derive(Drop)]
pub(crate) struct Job<'a> {
    pub program: &'a Program,
    pub code: &'a Code,
    pub edges: &'a Edges,
    pub ends: &'a [u32],
    pub draws: u64,
}

/// What stands when a round begins.
#[derive(Drop)]
pub(crate) struct Scene<'a> {
    pub job: &'a Job<'a>,
    pub round: u32,
    pub rows: &'a [Row],
    pub totals: &'a [i64],
}

/// The rows after a round, and the reads at each vertex.
#[derive(Drop)]
struct Outcome {
    rows: Vec<Row>,
    reads: Vec<Vec<VertexId>>,
}

fn bare_env(rt: &impl Abort, scene: &Scene, v: u32) -> Env {
    env_at(rt, scene, v, &blank_emits(rt, scene.job.program))
}

/// The ids of the first so many members.
fn first_ids(
    alloc: Global,
    members: &[(Neighbour, Row)],
    count: usize,
) -> Result<Vec<VertexId>, AllocError> {
    let mut ids = Vec::new(alloc);
    for member in members.iter().take(count) {
        ids.push(member.0.id)?;
    }
    Ok(ids)
}

/// A dense round at a vertex: what was read.
fn emit_dense(
    rt: &impl Abort,
    alloc: Global,
    scene: &Scene,
    dense: &Dense,
    v: u32,
    emits: &mut Emits,
) -> Result<Vec<VertexId>, AllocError> {
    let mut env = bare_env(rt, scene, v);
    if !truth(value(rt, &dense.when_test, &env)) {
        return Ok(Vec::new(alloc));
    }
    for decl in &dense.lets {
        let word = value(rt, &decl.value, &env);
        add(rt, &mut env.locals, word);
    }
    let members = members_at(rt, alloc, scene, v)?;
    let mut ids = first_ids(alloc, &members, members.len())?;
    let (_, read) = walk(rt, scene.job.code, members, &mut env, emits);
    ids.truncate(read);
    step(rt, scene.job.code, Block::Tail, &mut env, emits);
    Ok(ids)
}

/// Runs the sparse body at a vertex, over what one member sends it.
fn receive(
    rt: &impl Abort,
    scene: &Scene,
    sparse: &Sparse,
    v: u32,
    member: (Neighbour, Row),
    emits: &mut Emits,
) {
    let sender = bare_env(rt, scene, member.0.id.0);
    if !sender.row.active || !truth(value(rt, &sparse.when_test, &sender)) {
        return;
    }
    let mut env = bare_env(rt, scene, v);
    for decl in &sparse.sends {
        add(rt, &mut env.sends, value(rt, &decl.value, &sender));
    }
    let (neighbour, row) = member;
    env.other = neighbour;
    env.other_row = row;
    step(rt, scene.job.code, Block::SparseBody, &mut env, emits);
}

/// Lets a vertex emit in a round: what was read.
fn emit_at(
    rt: &impl Abort,
    alloc: Global,
    scene: &Scene,
    ruling: Ruling,
    v: u32,
    emits: &mut Emits,
) -> Result<Vec<VertexId>, AllocError> {
    match ruling {
        Ruling::Stop => {}
        Ruling::Dense => {
            if let Some(dense) = &scene.job.program.dense {
                return emit_dense(rt, alloc, scene, dense, v, emits);
            }
        }
        Ruling::Sparse => {
            if let Some(sparse) = &scene.job.program.sparse {
                for member in members_at(rt, alloc, scene, v)? {
                    receive(rt, scene, sparse, v, member, emits);
                }
            }
        }
    }
    Ok(Vec::new(alloc))
}

/// The row of a vertex after the update block.
fn updated(rt: &impl Abort, scene: &Scene, v: u32, emits: &Emits) -> Row {
    let mut env = env_at(rt, scene, v, emits);
    let mut none = blank_emits(rt, scene.job.program);
    step(rt, scene.job.code, Block::UpdateBody, &mut env, &mut none);
    Row {
        words: env.row.words,
        active: env.next_active,
    }
}

fn play(
    rt: &impl Abort,
    alloc: Global,
    scene: &Scene,
    ruling: Ruling,
) -> Result<Outcome, AllocError> {
    let mut rows = Vec::new(alloc);
    let mut reads = Vec::new(alloc);
    for v in 0..scene.job.edges.vertices {
        let mut emits = blank_emits(rt, scene.job.program);
        reads.push(emit_at(rt, alloc, scene, ruling, v, &mut emits)?)?;
        rows.push(updated(rt, scene, v, &emits))?;
    }
    Ok(Outcome { rows, reads })
}

fn first_row(rt: &impl Abort, scene: &Scene, v: u32) -> Row {
    let mut env = bare_env(rt, scene, v);
    let mut words = ArrayVec::new();
    for field in &scene.job.program.fields {
        add(rt, &mut words, value(rt, &field.value, &env));
    }
    env.row.words = words;
    env.other_row = row_copy(rt, &env.row);
    let active = truth(value(rt, &scene.job.program.start, &env));
    Row {
        words: env.row.words,
        active,
    }
}

fn first_rows(rt: &impl Abort, alloc: Global, job: &Job) -> Result<Vec<Row>, AllocError> {
    let scene = Scene {
        job,
        round: 0,
        rows: &[],
        totals: &[],
    };
    let mut rows = Vec::new(alloc);
    for v in 0..job.edges.vertices {
        rows.push(first_row(rt, &scene, v))?;
    }
    Ok(rows)
}

/// The totals of the rows after a round.
fn totals_after(rt: &impl Abort, job: &Job, round: u32, rows: &[Row]) -> ArrayVec<i64, 4> {
    let scene = Scene {
        job,
        round,
        rows,
        totals: &[],
    };
    let mut totals = ArrayVec::new();
    for total in &job.program.totals {
        let mut partial = Partial::new(total.op);
        for v in 0..job.edges.vertices {
            partial.add(0, value(rt, &total.value, &bare_env(rt, &scene, v)));
        }
        add(rt, &mut totals, partial.value.unwrap_or(0));
    }
    totals
}

/// Whether the stop test holds after a round.
fn stops_after(rt: &impl Abort, job: &Job, round: u32, totals: &[i64]) -> bool {
    let scene = Scene {
        job,
        round,
        rows: &[],
        totals,
    };
    match &job.program.stop {
        Some(test) => truth(value(rt, test, &bare_env(rt, &scene, 0))),
        None => false,
    }
}

/// The same rounds as those told of a run, with the same rulings, by code.
pub(crate) fn run_by_code(
    rt: &impl Abort,
    alloc: Global,
    job: Job,
    told: &PlainRun,
) -> Result<PlainRun, AllocError> {
    let mut rows = first_rows(rt, alloc, &job)?;
    let mut totals = totals_after(rt, &job, 0, &rows);
    let mut rounds = Vec::new(alloc);
    for played in &told.rounds {
        assert!(rt; !stops_after(rt, &job, played.round.saturating_sub(1), &totals));
        let scene = Scene {
            job: &job,
            round: played.round,
            rows: &rows,
            totals: &totals,
        };
        let outcome = play(rt, alloc, &scene, played.ruling)?;
        rows = outcome.rows;
        totals = totals_after(rt, &job, played.round, &rows);
        rounds.push(PlayedRound {
            round: played.round,
            ruling: played.ruling,
            active: played.active,
            edges: played.edges,
            read: played.read,
            reads: outcome.reads,
        })?;
    }
    Ok(PlainRun { rows, rounds })
}
