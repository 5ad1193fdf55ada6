// What a scan of a half goes over.
ghost use Rattle.std.specs.Prelude.{◌≡◌, ◌≢◌, ◌≤◌, ◌<◌, ◌+◌, true, is_some, length, slice_index, IfOk, All};
ghost use Rattle.std.specs.List.Sorted.{IsNonDecreasingBy};
ghost use Rattle.vert_base.specs.Ends.{start_of};
ghost use Rattle.chunk_split.specs.Chunks.{vertices_of};
ghost use Rattle.circulant_plan.specs.Ring.{chunk_of};
ghost use Rattle.dep_layout.specs.Judgement.{FitsRing};
ghost use Rattle.symple_face.specs.Parts.{chunk_vertices};
ghost use Rattle.symple_face.specs.PartViews.{plain_of};
ghost use Rattle.symple_face.specs.Plans.{loop_carry};
ghost use Rattle.symple_face.specs.Shapes.{half_in, words_in};
ghost use Rattle.machine_parts.specs.Spans.{vertex_of};
ghost use Rattle.machine_steps.specs.Halves.{AreMirrors, AreReceived, IsPlace};
ghost use Rattle.vertex_work.specs.Known.{AreDegreesOf};

use crate::reading::place_of;
use crate::scan::Mirrors;
use circulant_plan::half;
use machine_parts::{RingHalf, Rows, Span};
use std::alloc::Global;
use vert_base::Want;
use vertex_work::{Ground, LoopCode, OwnVertices};

/// The loop of the program, which has a dense block, and its code.
pub(crate) fn loop_of(ground: &Ground) -> LoopCode
    requires { is_some ground.now.part.split.value.program.program.dense ≡ true }
    ensures { result.split.now ≡ ground.now.part.split.value }
{
    let split = ground.split();
    let Some(dense) = &split.program.program.dense else {
        unreachable!()
    };
    let Some(parts) = &split.dense else {
        unreachable!()
    };
    LoopCode {
        code: &ground.code,
        split,
        dense,
        parts,
    }
}

/// The own vertices with these rows.
pub(crate) fn own_of<'a>(ground: &'a Ground, rows: &'a Rows) -> OwnVertices<'a>
    requires count { length rows.now.rows
        ≡ length (chunk_vertices ground.now.part.cuts ground.now.part.at.machine) }
    requires wide { All (λ r. length r.words.items ≡ rows.now.width) rows.now.rows }
    ensures rows { result.rows.now ≡ rows.now }
    ensures start { result.start ≡ start_of ground.now.part.cuts ground.now.part.at.machine }
    ensures edges { result.edges.now ≡ ground.now.part.scan.items }
    ensures degrees { AreDegreesOf (plain_of ground.now.part)
        (chunk_vertices ground.now.part.cuts ground.now.part.at.machine) result.degrees.now }
{
    let _machines = ground.machines();
    OwnVertices {
        rows,
        degrees: ground.degrees(ground.machine()),
        start: ground.start(),
        edges: &ground.part.scan,
    }
}

/// The chunk of a step.
pub(crate) fn chunk_at(ground: &Ground, step: u8) -> u8
    requires { step < ground.now.part.at.machines }
    ensures chunk { result ≡ chunk_of ground.now.part.at.machine step ground.now.part.at.machines }
    ensures below { result < ground.now.part.at.machines }
    ensures other { step + 1 < ground.now.part.at.machines
        → result ≢ ground.now.part.at.machine }
    ensures own { step + 1 ≡ ground.now.part.at.machines → result ≡ ground.now.part.at.machine }
{
    let machines = ground.machines();
    (ground.machine() + machines - 1 - step) % machines
}

/// The first vertex of a half of a chunk, and the one behind its last.
pub(crate) fn half_of(ground: &Ground, chunk: u8, number: u8) -> (u32, u32)
    requires chunk { chunk < ground.now.part.at.machines }
    requires number { number ≤ 1 }
    ensures half { result ≡ half_in ground.now.part.cuts chunk number }
    ensures rises { result.0 ≤ result.1 }
    ensures first { start_of ground.now.part.cuts chunk ≤ result.0 }
    ensures last { result.1 ≤ slice_index ground.now.part.cuts chunk }
    ensures most { result.1 ≤ vertices_of ground.now.part.cuts }
{
    let _machines = ground.machines();
    half(
        ground.part.cuts.start(chunk),
        ground.part.cuts.end(chunk),
        number,
    )
}

/// Where the spans of the vertices from the first to the second of two begin, and the place behind
/// the last.
pub(crate) fn places(spans: &[Span], range: (u32, u32)) -> (usize, usize)
    requires rises { IsNonDecreasingBy vertex_of spans.now }
    requires range { range.0 ≤ range.1 }
    ensures first { IsPlace range.0 spans.now result.0 }
    ensures last { IsPlace range.1 spans.now result.1 }
    ensures order { result.0 ≤ result.1 }
{
    (place_of(spans, range.0), place_of(spans, range.1))
}

/// The vertices of another chunk, from the first to the second of two, that have members here.
/// Their rows stand in a refresh. It halves the targets four times.
pub(crate) fn mirrors_of<'a>(
    ground: &'a Ground,
    chunk: u8,
    range: (u32, u32),
    refresh: &'a [u8],
) -> Mirrors<'a>
    requires chunk { chunk < ground.now.part.at.machines }
    requires other { chunk ≢ ground.now.part.at.machine }
    requires first { start_of ground.now.part.cuts chunk ≤ range.0 }
    requires rises { range.0 ≤ range.1 }
    requires last { range.1 ≤ slice_index ground.now.part.cuts chunk }
    ensures mirrors { AreMirrors (plain_of ground.now.part) chunk range result.spans.now
        result.degrees.now result.first }
    ensures refresh { result.refresh.now ≡ refresh.now }
{
    let _machines = ground.machines();
    let targets: &[Span] = &ground.groups.targets;
    let of_chunk = places(
        targets,
        (ground.part.cuts.start(chunk), ground.part.cuts.end(chunk)),
    );
    let of_half = places(targets, range);
    let first = of_half.0 - of_chunk.0;
    let (_, known) = ground.degrees(chunk).split_at(first);
    let (degrees, _) = known.split_at(of_half.1 - of_half.0);
    Mirrors {
        spans: &targets[of_half.0..of_half.1],
        degrees,
        refresh,
        first,
    }
}

// How many words the loop of a vertex hands on.
fn carried_words(body: &LoopCode) -> usize
    ensures words { result ≡ words_in (loop_carry body.now.split.now.dense) }
    ensures few { result ≤ 8 }
{
    match &body.parts.carry {
        Some(carry) => usize::from(carry.words),
        None => 0,
    }
}

/// The states received of so many vertices: those that a body spells, and not started where it has
/// no byte.
pub(crate) fn received(
    alloc: Global,
    body: &LoopCode,
    size: u32,
    dep: &[u8],
) -> Result<RingHalf, Want>
    requires fits { 0 < length dep.now
        → FitsRing (words_in (loop_carry body.now.split.now.dense)) size 0 dep.now }
    ensures width { IfOk result (λ half. half.width
        ≡ words_in (loop_carry body.now.split.now.dense)) }
    ensures states { IfOk result (λ half.
        AreReceived body.now.split.now size dep.now half.states) }
{
    let width = carried_words(body);
    if dep.is_empty() {
        RingHalf::fresh(alloc, width, size as usize)
    } else {
        RingHalf::read(alloc, width, size, 0, dep)
    }
}
