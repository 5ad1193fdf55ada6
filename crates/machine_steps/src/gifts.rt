// What a machine sends at the begin of a round.
ghost use Rattle.std.specs.Prelude.{◌≡◌, ◌≢◌, ◌≤◌, ◌<◌, ◌+◌, ◌^◌, None, length, map, replicate, slice_index, IfOk};
ghost use Rattle.vert_base.specs.Letters.{letter_of};
ghost use Rattle.circulant_plan.specs.declared.spot.Spot.TheVariants.{Begin};
ghost use Rattle.circulant_plan.specs.Table.{others_of};
ghost use Rattle.body_shape.specs.Push.{push_body};
ghost use Rattle.symple_face.specs.CoreWork.{core_sent, push_sent, refresh_sent};
ghost use Rattle.symple_face.specs.PartViews.{plain_of};
ghost use Rattle.symple_face.specs.State.{State};
ghost use Rattle.machine_steps.specs.Gifts.{gift};
ghost use Rattle.vertex_work.specs.Shown.{Shows};
ghost use Rattle.machine_steps.specs.Working.{AreOwnRows};

use crate::begin::numbered_env;
use body_shape::put_no_sends;
use machine_parts::{Rows, push_body, refresh_body};
use std::alloc::Global;
use vert_base::{Message, Name, NameKind, Ruling, Want};
use vertex_work::{Ground, Receivers, list_at};

// The rows of the vertices that a machine mirrors.
fn refresh_bytes(
    alloc: Global,
    ground: &Ground,
    totals: &[i64],
    rows: &Rows,
    to: u8,
) -> Result<Vec<u8>, Want>
    requires to { to < ground.now.part.at.machines }
    requires other { to ≢ ground.now.part.at.machine }
    requires rows { AreOwnRows (plain_of ground.now.part) ground.now.part.split.value totals.now
        rows.now }
    ensures { IfOk result (λ body. (s : State) → Shows (plain_of ground.now.part)
        ground.now.part.split.value totals.now rows.now.rows s → body.items ≡ refresh_sent s to) }
{
    let list = list_at(&ground.part.refresh_to, to);
    refresh_body(alloc, list, rows, ground.start())
}

// A push of so many vertices, none of which sends.
fn no_sends(alloc: Global, count: usize) -> Result<Vec<u8>, Want>
    requires { count < 2 ^ 32 }
    ensures { IfOk result (λ body. body.items ≡ push_body (replicate count None)) }
{
    let mut body = Vec::new(alloc);
    put_no_sends(&mut body, count)?;
    Ok(body)
}

// What the vertices with an edge into the chunk of a machine send.
fn push_bytes(
    alloc: Global,
    ground: &Ground,
    totals: &[i64],
    rows: &Rows,
    round: u32,
    to: u8,
) -> Result<Vec<u8>, Want>
    requires to { to < ground.now.part.at.machines }
    requires other { to ≢ ground.now.part.at.machine }
    requires rows { AreOwnRows (plain_of ground.now.part) ground.now.part.split.value totals.now
        rows.now }
    requires round { round ≤ 10000 }
    ensures { IfOk result (λ body. (s : State) → Shows (plain_of ground.now.part)
        ground.now.part.split.value totals.now rows.now.rows s
        → body.items ≡ push_sent s round to) }
{
    let list = list_at(&ground.part.push_to, to);
    match &ground.program().sparse {
        None => no_sends(alloc, list.len()),
        Some(sparse) => {
            let own = Receivers::of(ground, rows);
            let mut env = numbered_env(ground, totals, round);
            push_body(
                alloc,
                sparse,
                list,
                own.rows,
                own.degrees,
                own.start,
                &mut env,
            )
        }
    }
}

// The name of a message of a kind to a machine.
fn name_to(ground: &Ground, kind: NameKind, round: u32, to: u8) -> Name
    ensures { result ≡ record {
      kind = kind;
      round = round;
      step = 0;
      half = 0;
      from = ground.now.part.at.machine;
      to = to;
    } }
{
    Name {
        kind,
        round,
        step: 0,
        half: 0,
        from: ground.machine(),
        to,
    }
}

// The message to a machine: rows in a dense round, else sends.
fn begin_message(
    alloc: Global,
    ground: &Ground,
    totals: &[i64],
    rows: &Rows,
    dense: bool,
    round: u32,
    to: u8,
) -> Result<Message, Want>
    requires to { to < ground.now.part.at.machines }
    requires other { to ≢ ground.now.part.at.machine }
    requires rows { AreOwnRows (plain_of ground.now.part) ground.now.part.split.value totals.now
        rows.now }
    requires round { round ≤ 10000 }
    ensures { IfOk result (λ message. (s : State) → Shows (plain_of ground.now.part)
        ground.now.part.split.value totals.now rows.now.rows s
        → letter_of message ≡ gift s round dense to) }
{
    if dense {
        let body = refresh_bytes(alloc, ground, totals, rows, to)?;
        let name = name_to(ground, NameKind::Refresh, round, to);
        Ok(Message { name, body })
    } else {
        let body = push_bytes(alloc, ground, totals, rows, round, to)?;
        let name = name_to(ground, NameKind::Push, round, to);
        Ok(Message { name, body })
    }
}

// The k-th of the other machines.
fn other(ground: &Ground, k: u8) -> u8
    requires { k + 1 < ground.now.part.at.machines }
    ensures at { result
        ≡ slice_index (others_of ground.now.part.at.machines ground.now.part.at.machine) k }
    ensures below { result < ground.now.part.at.machines }
    ensures apart { result ≢ ground.now.part.at.machine }
{
    if k < ground.machine() { k } else { k + 1 }
}

// The messages to all other machines.
fn messages(
    alloc: Global,
    ground: &Ground,
    totals: &[i64],
    rows: &Rows,
    dense: bool,
    round: u32,
) -> Result<Vec<Message>, Want>
    requires rows { AreOwnRows (plain_of ground.now.part) ground.now.part.split.value totals.now
        rows.now }
    requires round { round ≤ 10000 }
    ensures { IfOk result (λ out. (s : State) → Shows (plain_of ground.now.part)
        ground.now.part.split.value totals.now rows.now.rows s → map letter_of out.items
        ≡ map (gift s round dense)
        (others_of ground.now.part.at.machines ground.now.part.at.machine)) }
{
    let count = ground.machines() - 1;
    let mut out = Vec::with_capacity(alloc, usize::from(count))?;
    'messages: for k in 0..count {
        let to = other(ground, k);
        let message = begin_message(alloc, ground, totals, rows, dense, round, to)?;
        out.push(message)?;
    }
    Ok(out)
}

/// What a machine sends at the begin of a round, in the order of the plan. All memory is taken
/// here.
pub fn begin_messages(
    alloc: Global,
    ground: &Ground,
    totals: &[i64],
    rows: &Rows,
    ruling: Ruling,
    round: u32,
) -> Result<Vec<Message>, Want>
    requires rows { AreOwnRows (plain_of ground.now.part) ground.now.part.split.value totals.now
        rows.now }
    requires round { round ≤ 10000 }
    ensures { IfOk result (λ out. (s : State) → Shows (plain_of ground.now.part)
        ground.now.part.split.value totals.now rows.now.rows s → s.at.spot ≡ Begin round
        → s.ruling ≡ ruling → map letter_of out.items ≡ core_sent s) }
{
    match ruling {
        Ruling::Stop => Ok(Vec::new(alloc)),
        Ruling::Dense => messages(alloc, ground, totals, rows, true, round),
        Ruling::Sparse => messages(alloc, ground, totals, rows, false, round),
    }
}
