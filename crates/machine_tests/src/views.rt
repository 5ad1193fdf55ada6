//! Environments of vertices, and the neighbours that a feed gives.

use super::engine::Scene;
use arrayvec::ArrayVec;
use slot_merge::{Emits, Partial};
use std::alloc::{AllocError, Global};
use std::process::Abort;
use vert_base::{Edge, Neighbour, Row, VertexId};
use vert_eval::Env;
use vert_tree::Program;

/// One more item, for which there is room.
pub(crate) fn add<T: Drop, const CAP: usize>(
    rt: &impl Abort,
    items: &mut ArrayVec<T, CAP>,
    item: T,
) {
    assert!(rt; items.len() < CAP);
    items.push(item);
}

pub(crate) fn row_copy(rt: &impl Abort, row: &Row) -> Row {
    let mut words = ArrayVec::new();
    for word in row.words.as_slice() {
        add(rt, &mut words, *word);
    }
    Row {
        words,
        active: row.active,
    }
}

/// The row of a vertex, which is empty where the scene has none.
fn row_of(rt: &impl Abort, scene: &Scene, v: u32) -> Row {
    match scene.rows.get(v as usize) {
        Some(row) => row_copy(rt, row),
        None => Row {
            words: ArrayVec::new(),
            active: false,
        },
    }
}

fn neighbour(edges: &[Edge], u: u32, weight: i64) -> Neighbour {
    let mut indeg = 0u32;
    let mut outdeg = 0u32;
    for edge in edges {
        if edge.to.0 == u {
            indeg = indeg.saturating_add(1);
        }
        if edge.from.0 == u {
            outdeg = outdeg.saturating_add(1);
        }
    }
    Neighbour {
        id: VertexId(u),
        weight,
        indeg,
        outdeg,
    }
}

/// The partials of slots to which nothing was emitted.
pub(crate) fn blank_emits(rt: &impl Abort, program: &Program) -> Emits {
    let mut slots = ArrayVec::new();
    for slot in &program.slots {
        add(rt, &mut slots, Partial::new(slot.op));
    }
    Emits { slots }
}

/// The environment of a vertex, whose slots have these values.
pub(crate) fn env_at(rt: &impl Abort, scene: &Scene, v: u32, emits: &Emits) -> Env {
    let vertex = neighbour(&scene.job.edges.list, v, 0);
    let mut slots = ArrayVec::new();
    for partial in emits.slots.as_slice() {
        add(rt, &mut slots, partial.value);
    }
    let mut totals = ArrayVec::new();
    for total in scene.totals {
        add(rt, &mut totals, *total);
    }
    Env {
        id: VertexId(v),
        n: scene.job.edges.vertices,
        round: scene.round,
        indeg: vertex.indeg,
        outdeg: vertex.outdeg,
        draws: scene.job.draws,
        row: row_of(rt, scene, v),
        next_active: false,
        locals: ArrayVec::new(),
        touched: 0,
        other: vertex,
        other_row: row_of(rt, scene, v),
        sends: ArrayVec::new(),
        slots,
        totals,
        key: 0,
    }
}

/// The end of the chunk that holds a vertex.
fn turn_of(ends: &[u32], v: u32) -> u32 {
    for end in ends {
        if v < *end {
            return *end;
        }
    }
    0
}

/// Puts the edges from u to v behind the members that there are, in file order.
fn add_members(
    rt: &impl Abort,
    scene: &Scene,
    u: u32,
    v: u32,
    members: &mut Vec<(Neighbour, Row)>,
) -> Result<(), AllocError> {
    for edge in &scene.job.edges.list {
        if edge.from.0 == u && edge.to.0 == v {
            let other = neighbour(&scene.job.edges.list, u, i64::from(edge.weight));
            members.push((other, row_of(rt, scene, u)))?;
        }
    }
    Ok(())
}

/// The neighbours of a vertex: those from the end of its chunk on by ascending id, then the others.
pub(crate) fn members_at(
    rt: &impl Abort,
    alloc: Global,
    scene: &Scene,
    v: u32,
) -> Result<Vec<(Neighbour, Row)>, AllocError> {
    let turn = turn_of(scene.job.ends, v);
    let mut members = Vec::new(alloc);
    for u in turn..scene.job.edges.vertices {
        add_members(rt, scene, u, v, &mut members)?;
    }
    for u in 0..turn {
        add_members(rt, scene, u, v, &mut members)?;
    }
    Ok(members)
}
