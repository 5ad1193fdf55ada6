// A scan of the vertices of a half that have members with the machine.
ghost use Rattle.std.specs.Prelude.{◌≡◌, ◌≤◌, ◌<◌, ◌+◌, ◌++◌, ◌-◌, ◌^◌, All, None, length, map, replicate, slice_index_or, OnOk};
ghost use Rattle.vert_base.specs.Neighbours.{bucket, target};
ghost use Rattle.body_shape.specs.Update.{update_body};
ghost use Rattle.symple_face.specs.CoreScan.{is_broken};
ghost use Rattle.symple_face.specs.CoreSight.{none, program_of};
ghost use Rattle.symple_face.specs.CoreTakes.{slot_count};
ghost use Rattle.symple_face.specs.Plans.{loop_carry};
ghost use Rattle.symple_face.specs.Shapes.{reduced_in, words_in};
ghost use Rattle.symple_face.specs.Sight.{Sight};
ghost use Rattle.machine_parts.proofs.SpanLaws.{no_span};
ghost use Rattle.machine_parts.proofs.UpdateLaws.{merged};
ghost use Rattle.machine_parts.specs.Flat.{state_at};
ghost use Rattle.machine_parts.specs.Seen.{ShowsOwn};
ghost use Rattle.machine_parts.specs.Spans.{IsSpan, vertex_of};
ghost use Rattle.vertex_work.specs.Scanning.{AreFew, AreScanned, HavePlaces, IsOfRound, ShowsMirrors, scanned_over, scans};
ghost use Rattle.vertex_work.specs.Stepping.{IsVisited, SameRound};

use arrayvec::ArrayVec;
use body_shape::{put_sent, read_row};
use dep_layout::Mark;
use flat_table::Grid;
use machine_parts::{RingHalf, Span, edges_in, enter, read_row_of};
use slot_merge::Partial;
use symple_face::Degree;
use vert_base::Want;
use vertex_work::{LoopCode, OwnVertices, Visit, add_sent, scan_vertex};

/// Vertices of another chunk that have members here. Their rows stand in a refresh, of which
/// `first` rows stand before them.
#[derive(Drop)]
pub(crate) struct Mirrors<'a> {
    pub spans: &'a [Span],
    pub degrees: &'a [Degree],
    pub refresh: &'a [u8],
    pub first: usize,
    ghost each: { length degrees.now ≡ length spans.now },
    ghost few: { first + length spans.now < 2 ^ 32 },
}

/// The key under which a scan emits, and the first vertex of its half.
#[derive(Clone, Copy, Debug)]
pub(crate) struct Step {
    pub key: u32,
    pub start: u32,
}

// So many words none of which is there.
fn put_none(count: usize, words: &mut ArrayVec<Option<i64>, 8>)
    requires { count ≤ 8 }
    ensures { words.new.items ≡ replicate count None }
{
    words.clear();
    'words: for _ in 0..count {
        words.push(None);
    }
}

// Passes over a vertex: nothing is sent of it.
fn pass_over(body: &LoopCode, visit: &mut Visit)
    ensures values { visit.new.values.items ≡ replicate (slot_count body.now.split.now) None }
    ensures operands { visit.new.operands.items
        ≡ replicate (length (reduced_in body.now.split.now.dense)) None }
    ensures env { visit.new.env ≡ visit.old.env }
{
    put_none(body.split.program.program.slots.len(), &mut visit.values);
    put_none(body.parts.reduced.len(), &mut visit.operands);
}

// Whether the loop of the vertex at a place broke before.
#[inline]
fn is_broken(half: &RingHalf, place: usize) -> bool
    requires { place < length half.now.states }
    ensures { result ≡ is_broken (state_at half.now.states place).mark }
{
    match half.mark(place) {
        Mark::Fresh | Mark::Running => false,
        Mark::Broken => true,
    }
}

/// Goes to one of these vertices and scans it: how many members it reads. Where the loop broke
/// before, its row isn't looked at.
fn scan_mirror(
    body: &LoopCode,
    own: &OwnVertices,
    mirrors: &Mirrors,
    at: usize,
    visit: &mut Visit,
    half: &mut RingHalf,
    step: Step,
) -> u32
    requires at { at < length mirrors.now.spans.now }
    requires fields { own.now.rows.now.width
        ≡ length (program_of body.now.split.now).fields.items }
    requires round { IsOfRound (program_of body.now.split.now) visit.old.env }
    requires spans { All (IsSpan target own.now.edges.now) mirrors.now.spans.now }
    requires placed { HavePlaces step.start (length half.old.states) mirrors.now.spans.now }
    requires few { step.start + length half.old.states ≤ 2 ^ 24 }
    requires width { half.old.width ≡ words_in (loop_carry body.now.split.now.dense) }
    ensures visited { (g : Sight)
        → ShowsOwn g own.now.rows.now.rows own.now.degrees.now own.now.start
        (none body.now.split.now) visit.old.env
        → ShowsMirrors g (map vertex_of mirrors.now.spans.now) mirrors.now.degrees.now
        own.now.rows.now.width mirrors.now.first mirrors.now.refresh.now
        → let v = vertex_of (slice_index_or mirrors.now.spans.now at no_span) in
        IsVisited (scanned_over body.now.split.now body.now.dense.now g step.key own.now.edges.now v
        (state_at half.old.states (v - step.start))) (bucket target v own.now.edges.now)
        (v - step.start) half.old half.new
        (record { values = visit.new.values.items; operands = visit.new.operands.items })
        result }
    ensures within { let v = vertex_of (slice_index_or mirrors.now.spans.now at no_span) in
        result ≤ length (bucket target v own.now.edges.now) }
    ensures same { SameRound visit.old.env visit.new.env }
    ensures words { half.new.width ≡ half.old.width }
    ensures states { length half.new.states ≡ length half.old.states }
{
    let span = mirrors.spans[at];
    let slot = (span.vertex.0 - step.start) as usize;
    if is_broken(half, slot) {
        pass_over(body, visit);
        return 0;
    }
    let place = mirrors.first + at;
    let fields = own.rows.width();
    read_row(mirrors.refresh, fields, place, &mut visit.env.row);
    read_row(mirrors.refresh, fields, place, &mut visit.env.other_row);
    enter(&mut visit.env, span.vertex, &mirrors.degrees[at], step.key);
    let members = edges_in(own.edges, &span);
    scan_vertex(body, own, members, visit, half, slot)
}

/// Scans vertices of another chunk one after another. What is sent of each stands at the end of the
/// update, and how many members of it were read in its place among the counts.
pub(crate) fn tell_mirrors(
    body: &LoopCode,
    own: &OwnVertices,
    mirrors: &Mirrors,
    step: Step,
    visit: &mut Visit,
    half: &mut RingHalf,
    counts: &mut [u32],
    update: &mut Vec<u8>,
) -> Result<(), Want>
    requires fields { own.now.rows.now.width
        ≡ length (program_of body.now.split.now).fields.items }
    requires round { IsOfRound (program_of body.now.split.now) visit.old.env }
    requires spans { All (IsSpan target own.now.edges.now) mirrors.now.spans.now }
    requires placed { HavePlaces step.start (length half.old.states) mirrors.now.spans.now }
    requires few { step.start + length half.old.states ≤ 2 ^ 24 }
    requires width { half.old.width ≡ words_in (loop_carry body.now.split.now.dense) }
    requires counts { length counts.old ≡ length mirrors.now.spans.now }
    ensures scanned { OnOk result ((g : Sight)
        → ShowsOwn g own.now.rows.now.rows own.now.degrees.now own.now.start
        (none body.now.split.now) visit.old.env
        → ShowsMirrors g (map vertex_of mirrors.now.spans.now) mirrors.now.degrees.now
        own.now.rows.now.width mirrors.now.first mirrors.now.refresh.now
        → AreScanned (scanned_over body.now.split.now body.now.dense.now g step.key
        own.now.edges.now) own.now.edges.now step.start (map vertex_of mirrors.now.spans.now)
        half.old half.new counts.new) }
    ensures told { OnOk result ((g : Sight)
        → ShowsOwn g own.now.rows.now.rows own.now.degrees.now own.now.start
        (none body.now.split.now) visit.old.env
        → ShowsMirrors g (map vertex_of mirrors.now.spans.now) mirrors.now.degrees.now
        own.now.rows.now.width mirrors.now.first mirrors.now.refresh.now
        → update.new.items ≡ update.old.items ++ update_body (map (λ x. x.sent)
        (scans (scanned_over body.now.split.now body.now.dense.now g step.key own.now.edges.now)
        step.start (map vertex_of mirrors.now.spans.now) half.old.states))) }
    ensures within { OnOk result (AreFew own.now.edges.now mirrors.now.spans.now counts.new) }
{
    'mirrors: for at in 0..mirrors.spans.len() {
        let count = scan_mirror(body, own, mirrors, at, visit, half, step);
        counts[at] = count;
        put_sent(update, visit.values.as_slice(), visit.operands.as_slice())?;
    }
    Ok(())
}

/// Goes to an own vertex and scans it: how many members it reads. Where the loop broke before, its
/// row isn't looked at.
fn scan_own_vertex(
    body: &LoopCode,
    own: &OwnVertices,
    span: &Span,
    visit: &mut Visit,
    half: &mut RingHalf,
    step: Step,
) -> u32
    requires fields { own.now.rows.now.width
        ≡ length (program_of body.now.split.now).fields.items }
    requires round { IsOfRound (program_of body.now.split.now) visit.old.env }
    requires span { IsSpan target own.now.edges.now span.now }
    requires own { own.now.start ≤ vertex_of span.now }
    requires row { vertex_of span.now - own.now.start < length own.now.rows.now.rows }
    requires start { step.start ≤ vertex_of span.now }
    requires place { vertex_of span.now - step.start < length half.old.states }
    requires few { step.start + length half.old.states ≤ 2 ^ 24 }
    requires width { half.old.width ≡ words_in (loop_carry body.now.split.now.dense) }
    ensures visited { (g : Sight)
        → ShowsOwn g own.now.rows.now.rows own.now.degrees.now own.now.start
        (none body.now.split.now) visit.old.env
        → let v = vertex_of span.now in
        IsVisited (scanned_over body.now.split.now body.now.dense.now g step.key own.now.edges.now v
        (state_at half.old.states (v - step.start))) (bucket target v own.now.edges.now)
        (v - step.start) half.old half.new
        (record { values = visit.new.values.items; operands = visit.new.operands.items })
        result }
    ensures within { result ≤ length (bucket target (vertex_of span.now) own.now.edges.now) }
    ensures same { SameRound visit.old.env visit.new.env }
    ensures words { half.new.width ≡ half.old.width }
    ensures states { length half.new.states ≡ length half.old.states }
    ensures values { length visit.new.values.items ≡ slot_count body.now.split.now }
    ensures operands { length visit.new.operands.items
        ≡ length (reduced_in body.now.split.now.dense) }
{
    let slot = (span.vertex.0 - step.start) as usize;
    if is_broken(half, slot) {
        pass_over(body, visit);
        return 0;
    }
    let place = (span.vertex.0 - own.start) as usize;
    read_row_of(own.rows, place, &mut visit.env);
    enter(&mut visit.env, span.vertex, &own.degrees[place], step.key);
    let members = edges_in(own.edges, span);
    scan_vertex(body, own, members, visit, half, slot)
}

/// Scans own vertices one after another. What would be sent of each is added to its partials, and
/// how many members of it were read stands in its place among the counts.
pub(crate) fn keep_own(
    body: &LoopCode,
    own: &OwnVertices,
    spans: &[Span],
    step: Step,
    visit: &mut Visit,
    half: &mut RingHalf,
    counts: &mut [u32],
    partials: &mut Grid<Partial>,
)
    requires fields { own.now.rows.now.width
        ≡ length (program_of body.now.split.now).fields.items }
    requires round { IsOfRound (program_of body.now.split.now) visit.old.env }
    requires spans { All (IsSpan target own.now.edges.now) spans.now }
    requires own { HavePlaces own.now.start (length own.now.rows.now.rows) spans.now }
    requires placed { HavePlaces step.start (length half.old.states) spans.now }
    requires few { step.start + length half.old.states ≤ 2 ^ 24 }
    requires width { half.old.width ≡ words_in (loop_carry body.now.split.now.dense) }
    requires counts { length counts.old ≡ length spans.now }
    requires partials { length partials.old.rows ≡ length own.now.rows.now.rows }
    requires cells { partials.old.width ≡ slot_count body.now.split.now
        + length (reduced_in body.now.split.now.dense) }
    requires each { All (λ ps. length ps ≡ partials.old.width) partials.old.rows }
    ensures scanned { (g : Sight)
        → ShowsOwn g own.now.rows.now.rows own.now.degrees.now own.now.start
        (none body.now.split.now) visit.old.env
        → AreScanned (scanned_over body.now.split.now body.now.dense.now g step.key
        own.now.edges.now) own.now.edges.now step.start (map vertex_of spans.now) half.old
        half.new counts.new }
    ensures kept { (g : Sight)
        → ShowsOwn g own.now.rows.now.rows own.now.degrees.now own.now.start
        (none body.now.split.now) visit.old.env
        → partials.new.rows ≡ merged own.now.start step.key (map vertex_of spans.now)
        (map (λ x. x.sent) (scans (scanned_over body.now.split.now body.now.dense.now g step.key
        own.now.edges.now) step.start (map vertex_of spans.now) half.old.states))
        partials.old.rows }
    ensures within { AreFew own.now.edges.now spans.now counts.new }
    ensures words { half.new.width ≡ half.old.width }
    ensures states { length half.new.states ≡ length half.old.states }
    ensures width { partials.new.width ≡ partials.old.width }
    ensures rows { length partials.new.rows ≡ length partials.old.rows }
    ensures each { All (λ ps. length ps ≡ partials.old.width) partials.new.rows }
{
    'spans: for at in 0..spans.len() {
        let span = spans[at];
        let count = scan_own_vertex(body, own, &span, visit, half, step);
        counts[at] = count;
        let place = (span.vertex.0 - own.start) as usize;
        add_sent(
            partials,
            place,
            step.key,
            visit.values.as_slice(),
            visit.operands.as_slice(),
        );
    }
}
