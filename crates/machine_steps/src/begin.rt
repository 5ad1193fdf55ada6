// The begin of a round: what own vertices send is worked, and what was pushed.
ghost use Rattle.std.specs.Prelude.{◌≡◌, ◌≢◌, ◌≤◌, ◌<◌, ◌-◌, ℕ, length, map};
ghost use Rattle.std.specs.List.{range_with_len};
ghost use Rattle.vert_tree.specs.Places.{sends_in};
ghost use Rattle.symple_face.specs.CoreSight.{program_of};
ghost use Rattle.symple_face.specs.CoreSparse.{all_worked, begin_go, kept_sends, own_first, sends_from, told_sends, worked};
ghost use Rattle.symple_face.specs.PartViews.{plain_of};
ghost use Rattle.symple_face.specs.State.{State};
ghost use Rattle.machine_steps.specs.Beginning.{CanWork, ShowsTo};
ghost use Rattle.machine_parts.proofs.TotalLaws.{settled};
ghost use Rattle.vertex_work.specs.Shown.{Shows};
ghost use Rattle.machine_steps.specs.Working.{AreOwnPartials, AreOwnRows, HasNumbers, spans_in};

use crate::held::held_body;
use crate::pushes::push_name;
use double_buffer::Slots;
use flat_table::Grid;
use machine_parts::{Rows, Span, new_env, spans_within};
use slot_merge::Partial;
use vert_base::Ruling;
use vert_base::limits::MACHINES;
use vert_eval::Env;
use vertex_work::{Ground, Receivers, work_own, work_told};

// The spans of those vertices of a chunk that send to own ones.
fn senders_of(ground: &Ground, chunk: u8) -> &[Span]
    requires { chunk < length ground.now.part.cuts }
    ensures { result.now ≡ spans_in ground.now.part.cuts chunk ground.now.groups.senders.items }
{
    let cuts = &ground.part.cuts;
    spans_within(&ground.groups.senders, cuts.start(chunk), cuts.end(chunk))
}

// How many words a vertex sends.
fn sent_count(ground: &Ground) -> usize
    ensures count { result
        ≡ length (sends_in (program_of ground.now.part.split.value).sparse) }
    ensures few { result ≤ 8 }
{
    match &ground.program().sparse {
        Some(sparse) => sparse.sends.len(),
        None => 0,
    }
}

// The environment with which a round's receivers begin.
pub(crate) fn numbered_env(ground: &Ground, totals: &[i64], round: u32) -> Env
    requires { length totals.now ≤ 4 }
    ensures { HasNumbers (plain_of ground.now.part) ground.now.part.split.value round totals.now
        result }
{
    new_env(&ground.setting(round), totals)
}

// Works what the push of another machine tells.
fn work_chunk(
    ground: &Ground,
    receivers: &Receivers,
    from: u8,
    body: &[u8],
    env: &mut Env,
    partials: &mut Grid<Partial>,
)
    requires from { from < ground.now.part.at.machines }
    requires other { from ≢ ground.now.part.at.machine }
    requires can { CanWork ground.now receivers.now env.old partials.old }
    ensures worked { (s : State) → ShowsTo ground.now receivers.now env.old s → partials.new.rows
        ≡ worked s env.old.round (told_sends s from body.now) s.part.push partials.old.rows }
    ensures width { partials.new.width ≡ partials.old.width }
    ensures settled { settled env.new ≡ settled env.old }
    ensures can { CanWork ground.now receivers.now env.new partials.new }
{
    let senders = senders_of(ground, from);
    work_told(receivers, senders, body, sent_count(ground), env, partials);
}

/// Works what the push of another machine tells. It takes no memory.
pub fn work_push(
    ground: &Ground,
    totals: &[i64],
    rows: &Rows,
    round: u32,
    from: u8,
    body: &[u8],
    partials: &mut Grid<Partial>,
)
    requires from { from < ground.now.part.at.machines }
    requires other { from ≢ ground.now.part.at.machine }
    requires rows { AreOwnRows (plain_of ground.now.part) ground.now.part.split.value totals.now
        rows.now }
    requires partials { AreOwnPartials (plain_of ground.now.part) ground.now.part.split.value
        partials.old }
    requires round { round ≤ 10000 }
    ensures worked { (s : State) → Shows (plain_of ground.now.part) ground.now.part.split.value
        totals.now rows.now.rows s → partials.new.rows
        ≡ worked s round (told_sends s from body.now) s.part.push partials.old.rows }
    ensures width { partials.new.width ≡ partials.old.width }
    ensures partials { AreOwnPartials (plain_of ground.now.part) ground.now.part.split.value
        partials.new }
{
    let receivers = Receivers::of(ground, rows);
    let mut env = numbered_env(ground, totals, round);
    work_chunk(ground, &receivers, from, body, &mut env, partials);
}

// Works what own vertices send to one another.
fn work_all_own(ground: &Ground, receivers: &Receivers, env: &mut Env, partials: &mut Grid<Partial>)
    requires { CanWork ground.now receivers.now env.old partials.old }
    ensures worked { (s : State) → ShowsTo ground.now receivers.now env.old s → partials.new.rows
        ≡ worked s env.old.round (sends_from s env.old.round) s.part.push partials.old.rows }
    ensures width { partials.new.width ≡ partials.old.width }
    ensures settled { settled env.new ≡ settled env.old }
    ensures can { CanWork ground.now receivers.now env.new partials.new }
{
    match &ground.program().sparse {
        None => {}
        Some(sparse) => {
            let senders = senders_of(ground, ground.machine());
            work_own(receivers, sparse, senders, env, partials);
        }
    }
}

// Does so in a sparse round.
fn work_own_by(
    ground: &Ground,
    receivers: &Receivers,
    ruling: Ruling,
    env: &mut Env,
    partials: &mut Grid<Partial>,
)
    requires { CanWork ground.now receivers.now env.old partials.old }
    ensures worked { (s : State) → ShowsTo ground.now receivers.now env.old s → partials.new.rows
        ≡ all_worked s env.old.round (own_first ruling (sends_from s env.old.round))
        partials.old.rows }
    ensures width { partials.new.width ≡ partials.old.width }
    ensures settled { settled env.new ≡ settled env.old }
    ensures can { CanWork ground.now receivers.now env.new partials.new }
{
    match ruling {
        Ruling::Stop => {}
        Ruling::Dense => {}
        Ruling::Sparse => work_all_own(ground, receivers, env, partials),
    }
}

// Works the push of another machine where it was kept. Of one that was worked before no byte is
// held.
fn work_kept(
    ground: &Ground,
    receivers: &Receivers,
    held: &Slots<MACHINES>,
    from: u8,
    env: &mut Env,
    partials: &mut Grid<Partial>,
)
    requires from { from < ground.now.part.at.machines }
    requires other { from ≢ ground.now.part.at.machine }
    requires can { CanWork ground.now receivers.now env.old partials.old }
    ensures worked { (s : State) → ShowsTo ground.now receivers.now env.old s
        → s.held ≡ held.now.letters → partials.new.rows
        ≡ worked s env.old.round (kept_sends s env.old.round from) s.part.push partials.old.rows }
    ensures width { partials.new.width ≡ partials.old.width }
    ensures settled { settled env.new ≡ settled env.old }
    ensures can { CanWork ground.now receivers.now env.new partials.new }
{
    let body = held_body(held, &push_name(ground, from, env.round));
    if body.is_empty() {
        return;
    }
    work_chunk(ground, receivers, from, body, env, partials);
}

// Does so for the machines from one on and before another one.
fn work_all_kept(
    ground: &Ground,
    receivers: &Receivers,
    held: &Slots<MACHINES>,
    first: u8,
    end: u8,
    env: &mut Env,
    partials: &mut Grid<Partial>,
)
    requires rises { first ≤ end }
    requires within { end ≤ ground.now.part.at.machines }
    requires others { (k : ℕ) → first ≤ k → k < end → k ≢ ground.now.part.at.machine }
    requires can { CanWork ground.now receivers.now env.old partials.old }
    ensures worked { (s : State) → ShowsTo ground.now receivers.now env.old s
        → s.held ≡ held.now.letters → partials.new.rows
        ≡ all_worked s env.old.round (map (kept_sends s env.old.round)
        (range_with_len first (end - first))) partials.old.rows }
    ensures width { partials.new.width ≡ partials.old.width }
    ensures settled { settled env.new ≡ settled env.old }
    ensures can { CanWork ground.now receivers.now env.new partials.new }
{
    'machines: for from in first..end {
        work_kept(ground, receivers, held, from, env, partials);
    }
}

/// Works what a round begins with: in a sparse round what own vertices send to one another, then
/// the pushes that were kept. It takes no memory.
pub fn begin_partials(
    ground: &Ground,
    totals: &[i64],
    rows: &Rows,
    ruling: Ruling,
    held: &Slots<MACHINES>,
    round: u32,
    partials: &mut Grid<Partial>,
)
    requires rows { AreOwnRows (plain_of ground.now.part) ground.now.part.split.value totals.now
        rows.now }
    requires partials { AreOwnPartials (plain_of ground.now.part) ground.now.part.split.value
        partials.old }
    requires round { round ≤ 10000 }
    ensures worked { (s : State) → Shows (plain_of ground.now.part) ground.now.part.split.value
        totals.now rows.now.rows s → s.held ≡ held.now.letters → s.ruling ≡ ruling
        → s.partials ≡ partials.old.rows → partials.new.rows ≡ (begin_go s round).partials }
    ensures width { partials.new.width ≡ partials.old.width }
    ensures partials { AreOwnPartials (plain_of ground.now.part) ground.now.part.split.value
        partials.new }
{
    let machine = ground.machine();
    let receivers = Receivers::of(ground, rows);
    let mut env = numbered_env(ground, totals, round);
    work_own_by(ground, &receivers, ruling, &mut env, partials);
    work_all_kept(ground, &receivers, held, 0, machine, &mut env, partials);
    let machines = ground.machines();
    work_all_kept(
        ground,
        &receivers,
        held,
        machine + 1,
        machines,
        &mut env,
        partials,
    );
}
