// The pushes that a machine holds.
ghost use Rattle.std.specs.Prelude.{◌≡◌, ◌≢◌, ◌≤◌, ◌<◌, ◌-◌, ℕ, map};
ghost use Rattle.std.specs.List.{range_with_len};
ghost use Rattle.circulant_plan.specs.Names.{push_name};
ghost use Rattle.circulant_plan.specs.Table.{others_of};
ghost use Rattle.double_buffer.specs.Held.{AreOfRound};
ghost use Rattle.symple_face.specs.CoreTakes.{emptied};

use crate::held::drop_body;
use double_buffer::Slots;
use vert_base::limits::MACHINES;
use vert_base::{Name, NameKind};
use vertex_work::Ground;

/// The name of a push to this machine.
pub(crate) fn push_name(ground: &Ground, from: u8, round: u32) -> Name
    ensures { result ≡ push_name round from ground.now.part.at.machine }
{
    Name {
        kind: NameKind::Push,
        round,
        step: 0,
        half: 0,
        from,
        to: ground.machine(),
    }
}

// Drops the bodies of the pushes of some machines, from one on and before another one.
fn drop_some(ground: &Ground, held: &mut Slots<MACHINES>, round: u32, first: u8, end: u8)
    requires rises { first ≤ end }
    requires within { end ≤ ground.now.part.at.machines }
    requires others { (k : ℕ) → first ≤ k → k < end → k ≢ ground.now.part.at.machine }
    requires machines { held.old.machines ≡ ground.now.part.at.machines }
    requires together { AreOfRound round ground.now.part.at.machine held.old.letters }
    ensures dropped { held.new ≡ record held.old {
      letters = emptied (map (λ k. push_name round k ground.now.part.at.machine)
          (range_with_len first (end - first))) held.old.letters;
    } }
    ensures together { AreOfRound round ground.now.part.at.machine held.new.letters }
{
    'machines: for from in first..end {
        drop_body(held, &push_name(ground, from, round));
    }
}

/// Drops the bodies of the pushes of a round, and keeps their names. It takes no memory.
pub fn drop_pushes(ground: &Ground, held: &mut Slots<MACHINES>, round: u32)
    requires machines { held.old.machines ≡ ground.now.part.at.machines }
    requires together { AreOfRound round ground.now.part.at.machine held.old.letters }
    ensures dropped { held.new ≡ record held.old {
      letters = emptied (map (λ k. push_name round k ground.now.part.at.machine)
          (others_of ground.now.part.at.machines ground.now.part.at.machine)) held.old.letters;
    } }
    ensures together { AreOfRound round ground.now.part.at.machine held.new.letters }
{
    let machine = ground.machine();
    drop_some(ground, held, round, 0, machine);
    let machines = ground.machines();
    drop_some(ground, held, round, machine + 1, machines);
}
