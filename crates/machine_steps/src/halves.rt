// What a scan of a half needs of the messages held, and what it sends.
ghost use Rattle.std.specs.Prelude.{◌≡◌, ◌≤◌, ◌<◌, ◌+◌, ◌-◌, ◌&&◌, map, nat_lt, IfOk};
ghost use Rattle.vert_base.specs.Letters.{letter_of};
ghost use Rattle.circulant_plan.specs.Names.{dep_name, refresh_name};
ghost use Rattle.circulant_plan.specs.Ring.{after_machine, before_machine, chunk_of};
ghost use Rattle.double_buffer.specs.Held.{AreOfRound};
ghost use Rattle.symple_face.specs.CoreTakes.{emptied};
ghost use Rattle.symple_face.specs.Plans.{ring_of};
ghost use Rattle.symple_face.specs.State.{State};
ghost use Rattle.machine_steps.specs.Going.{half_sent, needed_of};
ghost use Rattle.machine_steps.specs.Halves.{needed_body};

use crate::half::chunk_at;
use crate::held::{drop_body, held_body};
use double_buffer::Slots;
use std::alloc::Global;
use vert_base::limits::MACHINES;
use vert_base::{Message, Name, NameKind, Want};
use vertex_work::Ground;

/// The name of the rows of the chunk of a step.
pub fn refresh_to(ground: &Ground, round: u32, step: u8) -> Name
    requires { step < ground.now.part.at.machines }
    ensures { result ≡ refresh_name round
        (chunk_of ground.now.part.at.machine step ground.now.part.at.machines)
        ground.now.part.at.machine }
{
    Name {
        kind: NameKind::Refresh,
        round,
        step: 0,
        half: 0,
        from: chunk_at(ground, step),
        to: ground.machine(),
    }
}

// The name of the loop states of a half behind a step, from the machine before.
fn dep_to(ground: &Ground, round: u32, step: u8, half: u8) -> Name
    ensures { result ≡ dep_name round step half
        (before_machine ground.now.part.at.machine ground.now.part.at.machines)
        ground.now.part.at.machine }
{
    let machines = ground.machines();
    Name {
        kind: NameKind::Dep,
        round,
        step,
        half,
        from: (ground.machine() + machines - 1) % machines,
        to: ground.machine(),
    }
}

// Whether a step needs loop states.
fn follows(ground: &Ground, step: u8) -> bool
    ensures { result ≡ ((ring_of ground.now.part.split.value ground.now.part.at.machines).carry
        && nat_lt 0 step) }
{
    let ring = ground.ring();
    ring.carry && 0 < step
}

/// The body of the loop states that a scan needs, without a byte where it needs none.
pub fn needed_bytes<'a>(
    ground: &Ground,
    held: &'a Slots<MACHINES>,
    round: u32,
    step: u8,
    half: u8,
) -> &'a [u8]
    ensures { (s : State) → s.held ≡ held.now.letters → needed_body s
        (needed_of ground.now.part.split.value ground.now.part.at.machines
        ground.now.part.at.machine round step half) ≡ result.now }
{
    if follows(ground, step) {
        held_body(held, &dep_to(ground, round, step - 1, half))
    } else {
        &[]
    }
}

/// Drops the body of the loop states that a scan needs. It takes no memory.
pub fn drop_needed(ground: &Ground, held: &mut Slots<MACHINES>, round: u32, step: u8, half: u8)
    requires step { step < ground.now.part.at.machines }
    requires half { half ≤ 1 }
    requires machines { held.old.machines ≡ ground.now.part.at.machines }
    requires together { AreOfRound round ground.now.part.at.machine held.old.letters }
    ensures { held.new ≡ record held.old {
      letters = emptied (needed_of ground.now.part.split.value ground.now.part.at.machines
          ground.now.part.at.machine round step half) held.old.letters;
    } }
{
    if follows(ground, step) {
        drop_body(held, &dep_to(ground, round, step - 1, half));
    }
}

/// The messages of a scan of a half of another chunk, in the order of the plan.
pub fn half_messages(
    alloc: Global,
    ground: &Ground,
    round: u32,
    step: u8,
    half: u8,
    update: Vec<u8>,
    states: Vec<u8>,
) -> Result<Vec<Message>, Want>
    requires step { step < ground.now.part.at.machines }
    ensures { IfOk result (λ out. map letter_of out.items
        ≡ half_sent ground.now.part.split.value ground.now.part.at.machines
        ground.now.part.at.machine round step half update.items states.items) }
{
    let mut out = Vec::with_capacity(alloc, 2)?;
    let ring = ground.ring();
    let from = ground.machine();
    let name = Name {
        kind: NameKind::Update,
        round,
        step,
        half,
        from,
        to: chunk_at(ground, step),
    };
    out.push(Message { name, body: update })?;
    if ring.carry {
        let name = Name {
            kind: NameKind::Dep,
            round,
            step,
            half,
            from,
            to: (from + 1) % ring.machines,
        };
        out.push(Message { name, body: states })?;
    }
    Ok(out)
}
