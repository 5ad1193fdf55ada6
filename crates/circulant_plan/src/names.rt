ghost use Rattle.std.specs.Prelude.{◌≡◌, ◌<◌, slice_get};
ghost use Rattle.circulant_plan.specs.Ring.{after_machine, before_machine, chunk_of};
ghost use Rattle.circulant_plan.specs.Table.{others_of};

use vert_base::{Name, NameKind};

/// The name of a message of a kind without step and half.
pub(crate) fn of_round(kind: NameKind, round: u32, from: u8, to: u8) -> Name
    ensures { result ≡ record {
      kind = kind;
      round = round;
      step = 0;
      half = 0;
      from = from;
      to = to;
    } }
{
    Name {
        kind,
        round,
        step: 0,
        half: 0,
        from,
        to,
    }
}

/// The k-th machine other than `m`.
pub(crate) fn other(machines: u8, m: u8, k: u32) -> Option<u8>
    requires { m < machines }
    ensures { result ≡ slice_get (others_of machines m) k }
{
    if k < u32::from(m) {
        return Some(k as u8);
    }
    if k < u32::from(machines - 1) {
        return Some(k as u8 + 1);
    }
    None
}

/// The chunk that machine `m` works on in a step.
pub(crate) fn chunk(m: u8, step: u8, machines: u8) -> u8
    requires machine { m < machines }
    requires step { step < machines }
    ensures { result ≡ chunk_of m step machines }
{
    ((u16::from(m) + u16::from(machines) - 1 - u16::from(step)) % u16::from(machines)) as u8
}

/// The machine to which `m` sends a loop state.
pub(crate) fn after(m: u8, machines: u8) -> u8
    requires { m < machines }
    ensures { result ≡ after_machine m machines }
{
    ((u16::from(m) + 1) % u16::from(machines)) as u8
}

/// The machine from which `m` gets a loop state.
pub(crate) fn before(m: u8, machines: u8) -> u8
    requires { m < machines }
    ensures { result ≡ before_machine m machines }
{
    ((u16::from(m) + u16::from(machines) - 1) % u16::from(machines)) as u8
}
