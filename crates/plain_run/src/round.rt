//! One round: what each vertex gathers, and its row after the update.
ghost use Rattle.std.specs.Prelude.{◌≡◌, ◌<◌, ◌≤◌, ◌++◌, ◌∷◌, [], IfOk, if◌then◌else◌, length, map, take};
ghost use Rattle.vert_base.specs.Neighbours.{source};
ghost use Rattle.slot_merge.specs.Combine.{slot_values};
ghost use Rattle.slot_merge.specs.Partials.{empty_partial, with_emissions};
ghost use Rattle.vert_eval.specs.Rounds.{env_at, gathered, reads_of, rows_after, slot_ops, updated};
ghost use Rattle.plain_run.specs.Lists.{id_lists_of, ids_of};
ghost use Rattle.plain_run.specs.Told.{kept_reads, read_in};
ghost use Rattle.plain_run.specs.Views.{AreWide, IsReady, members_at, members_in, program_of, scene_of};

use super::dense::run_dense;
use super::graph::Members;
use super::run::run_body;
use super::scene::{Scene, blank_env, copy_row, enter_bare, enter_vertex};
use super::slots::{clear_emits, put_values};
use super::sparse::run_sparse;
use arrayvec::ArrayVec;
use slot_merge::Emits;
use std::alloc::{AllocError, Global};
use vert_base::{Edge, Row, Ruling, VertexId};
use vert_eval::Env;

/// What a round gives: the rows after it, how many sources were read, and where they are kept,
/// those that each vertex read, in order.
#[derive(Drop)]
pub(crate) struct Outcome {
    pub rows: Vec<Row>,
    pub read: u64,
    pub reads: Vec<Vec<VertexId>>,
}

/// What the vertices of a round work with, one after another: an environment of their own, one of a
/// sender, and the partials of the slots.
#[derive(Drop)]
struct Desk {
    env: Env,
    sender: Env,
    emits: Emits,
}

fn blank_desk() -> Desk {
    Desk {
        env: blank_env(),
        sender: blank_env(),
        emits: Emits {
            slots: ArrayVec::new(),
        },
    }
}

/// Lets a vertex emit: how many members its loop read.
fn emit_at(scene: &Scene, ruling: Ruling, v: u32, desk: &mut Desk) -> usize
    requires ready { IsReady scene.now }
    requires inside { v < scene.now.graph.now.vertices }
    requires partials { length desk.old.emits.slots.items ≡ length
        (program_of scene.now).slots.items }
    ensures emits { desk.new.emits.slots.items ≡ with_emissions 0 desk.old.emits.slots.items
        (gathered (program_of scene.now) ruling (scene_of scene.now) v).emitted }
    ensures within { result ≤ length (members_at scene.now v) }
    ensures reads { map source (take result (members_at scene.now v))
        ≡ (gathered (program_of scene.now) ruling (scene_of scene.now) v).reads }
{
    match ruling {
        Ruling::Stop => 0,
        Ruling::Dense => match &scene.program.program.dense {
            Some(dense) => {
                enter_bare(scene, v, &mut desk.env);
                run_dense(scene, dense, v, &mut desk.env, &mut desk.emits)
            }
            None => 0,
        },
        Ruling::Sparse => match &scene.program.program.sparse {
            Some(sparse) => {
                run_sparse(
                    scene,
                    sparse,
                    v,
                    &mut desk.sender,
                    &mut desk.env,
                    &mut desk.emits,
                );
                0
            }
            None => 0,
        },
    }
}

/// Gathers what a vertex emits in the partials: how many members its loop read.
fn gather(scene: &Scene, ruling: Ruling, v: u32, desk: &mut Desk) -> usize
    requires ready { IsReady scene.now }
    requires inside { v < scene.now.graph.now.vertices }
    ensures values { map (λ p. p.value) desk.new.emits.slots.items ≡ slot_values 0
        (slot_ops (program_of scene.now))
        (gathered (program_of scene.now) ruling (scene_of scene.now) v).emitted }
    ensures within { result ≤ length (members_at scene.now v) }
    ensures reads { map source (take result (members_at scene.now v))
        ≡ (gathered (program_of scene.now) ruling (scene_of scene.now) v).reads }
{
    clear_emits(&scene.program.program.slots, &mut desk.emits);
    emit_at(scene, ruling, v, desk)
}

/// The row of a vertex after the update block, whose flag is the one last assigned.
fn updated_row(scene: &Scene, v: u32, desk: &mut Desk) -> Row
    requires ready { IsReady scene.now }
    requires inside { v < scene.now.graph.now.vertices }
    requires slots { length desk.old.emits.slots.items ≡ length (program_of scene.now).slots.items }
    ensures row { result ≡ updated (program_of scene.now).update.items
        (env_at (scene_of scene.now) v (map (λ p. p.value) desk.old.emits.slots.items)) }
    ensures wide { length result.words.items ≡ length (program_of scene.now).fields.items }
{
    enter_vertex(scene, v, &mut desk.env);
    put_values(&desk.emits, &mut desk.env.slots);
    run_body(
        &scene.program.program.update,
        &mut desk.env,
        &mut desk.emits,
    );
    let mut row = Row {
        words: ArrayVec::new(),
        active: false,
    };
    copy_row(&desk.env.row, &mut row);
    row.active = desk.env.next_active;
    row
}

fn push_sources(edges: &[Edge], ids: &mut Vec<VertexId>) -> Result<(), AllocError>
    ensures { IfOk result (λ _. ids_of ids.new.items
        ≡ ids_of ids.old.items ++ map source edges.now) }
{
    for edge in edges {
        ids.push(edge.from)?;
    }
    Ok(())
}

/// The sources of the members that were read, in order.
fn sources(alloc: Global, members: &Members, read: usize) -> Result<Vec<VertexId>, AllocError>
    requires { read ≤ length (members_in members.now) }
    ensures { IfOk result (λ ids. ids_of ids.items ≡ map source
        (take read (members_in members.now))) }
{
    let mut ids = Vec::with_capacity(alloc, read)?;
    let first = members.first.len();
    if read <= first {
        push_sources(&members.first[..read], &mut ids)?;
        return Ok(ids);
    }
    push_sources(members.first, &mut ids)?;
    push_sources(&members.rest[..read - first], &mut ids)?;
    Ok(ids)
}

/// Keeps what a vertex read, where it is asked for.
fn keep(
    alloc: Global,
    kept: bool,
    members: &Members,
    read: usize,
    reads: &mut Vec<Vec<VertexId>>,
) -> Result<(), AllocError>
    requires { read ≤ length (members_in members.now) }
    ensures { IfOk result (λ _. id_lists_of reads.new ≡ (if kept
        then id_lists_of reads.old ++ map source (take read (members_in members.now)) ∷ []
        else id_lists_of reads.old)) }
{
    if kept {
        reads.push(sources(alloc, members, read)?)?;
    }
    Ok(())
}

/// Plays one round. What each vertex read is kept where it is asked for.
pub(crate) fn round(
    alloc: Global,
    scene: &Scene,
    ruling: Ruling,
    kept: bool,
) -> Result<Outcome, AllocError>
    requires { IsReady scene.now }
    ensures rows { IfOk result (λ outcome. outcome.rows.items ≡ rows_after
        (program_of scene.now) ruling (scene_of scene.now)) }
    ensures read { IfOk result (λ outcome. outcome.read ≡ read_in
        (reads_of (program_of scene.now) ruling (scene_of scene.now))) }
    ensures reads { IfOk result (λ outcome. id_lists_of outcome.reads
        ≡ kept_reads kept (reads_of (program_of scene.now) ruling (scene_of scene.now))) }
    ensures wide { IfOk result (λ outcome. AreWide
        (length (program_of scene.now).fields.items) outcome.rows.items) }
{
    let vertices = scene.graph.vertices();
    let mut rows = Vec::with_capacity(alloc, vertices as usize)?;
    let mut reads = Vec::new(alloc);
    let mut read = 0u64;
    let mut desk = blank_desk();
    for v in 0..vertices {
        let members = scene.graph.members_of(v);
        let count = gather(scene, ruling, v, &mut desk);
        read += count as u64;
        keep(alloc, kept, &members, count, &mut reads)?;
        rows.push(updated_row(scene, v, &mut desk))?;
    }
    Ok(Outcome { rows, read, reads })
}
