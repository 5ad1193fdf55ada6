// Which messages a machine sends and takes in a program, of all rounds.
ghost use Rattle.std.specs.Prelude.{◌≡◌, ◌<◌};
ghost use Rattle.circulant_plan.specs.Ring.{after_machine, chunk_of};
ghost use Rattle.symple_face.specs.Plans.{blocks_of, concerns, goes_by_plan, is_half, is_in_range, is_planned, is_whole, loop_carry, ring_of, serves};

use carry_analysis::Carry;
use circulant_plan::Ring;
use instrument::Split;
use vert_base::{Name, NameKind};

// What the loop of the program hands on.
pub(crate) fn carry(split: &Split) -> Option<Carry>
    ensures { result ≡ loop_carry split.now.dense }
{
    match &split.dense {
        Some(dense) => dense.carry,
        None => None,
    }
}

pub(crate) fn ring(split: &Split, machines: u8) -> Ring
    ensures { result ≡ ring_of split.now machines }
{
    Ring {
        machines,
        carry: carry(split).is_some(),
    }
}

// The chunk that machine `m` works on in a step.
pub(crate) fn chunk(m: u8, step: u8, machines: u8) -> u8
    requires machine { m < machines }
    requires step { step < machines }
    ensures { result ≡ chunk_of m step machines }
{
    ((u16::from(m) + u16::from(machines) - 1 - u16::from(step)) % u16::from(machines)) as u8
}

fn after(m: u8, machines: u8) -> u8
    requires { m < machines }
    ensures { result ≡ after_machine m machines }
{
    ((u16::from(m) + 1) % u16::from(machines)) as u8
}

fn concerns(machines: u8, machine: u8, name: &Name) -> bool
    ensures value { result ≡ concerns machines machine name.now }
{
    name.from < machines
        && name.to < machines
        && name.from != name.to
        && (name.from == machine || name.to == machine)
}

fn is_whole(name: &Name) -> bool
    ensures { result ≡ is_whole name.now }
{
    name.step == 0 && name.half == 0
}

fn is_half(machines: u8, name: &Name) -> bool
    ensures { result ≡ is_half machines name.now }
{
    name.step < machines.saturating_sub(1) && name.half <= 1
}

fn goes_by_plan(ring: &Ring, name: &Name) -> bool
    requires { name.now.from < ring.now.machines }
    ensures { result ≡ goes_by_plan ring.now name.now.kind name.now }
{
    match name.kind {
        NameKind::Refresh | NameKind::Push => is_whole(name),
        NameKind::Dep => is_half(ring.machines, name)
            && ring.carry
            && name.to == after(name.from, ring.machines),
        NameKind::Update => is_half(ring.machines, name)
            && name.to == chunk(name.from, name.step, ring.machines),
        NameKind::Tally => is_whole(name) && name.to == 0,
        NameKind::Verdict => is_whole(name) && name.from == 0,
    }
}

fn serves(split: &Split, kind: NameKind) -> bool
    ensures { result ≡ serves (blocks_of split.now) kind }
{
    match kind {
        NameKind::Refresh | NameKind::Dep | NameKind::Update => split
            .program
            .program
            .dense
            .is_some(),
        NameKind::Push => split.program.program.sparse.is_some(),
        NameKind::Tally | NameKind::Verdict => true,
    }
}

fn is_in_range(limit: u64, name: &Name) -> bool
    ensures { result ≡ is_in_range limit name.now.kind name.now.round }
{
    let round = u64::from(name.round);
    match name.kind {
        NameKind::Refresh | NameKind::Dep | NameKind::Update | NameKind::Push => 1 <= round
            && round <= limit,
        NameKind::Tally => round <= limit,
        NameKind::Verdict => 1 <= round && round - 1 <= limit,
    }
}

// The machine sends or takes a message of this name, in some run of the program.
pub(crate) fn is_planned(split: &Split, machines: u8, machine: u8, name: &Name) -> bool
    ensures { result ≡ is_planned split.now machines machine name.now }
{
    concerns(machines, machine, name)
        && goes_by_plan(&ring(split, machines), name)
        && serves(split, name.kind)
        && is_in_range(split.program.program.limit, name)
}
