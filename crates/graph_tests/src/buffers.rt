//! Messages under way, and those that a machine holds in a round.

ghost use Rattle.std.specs.Prelude.{◌≡◌, ◌+◌, ◌*◌, ◌<◌, ◌≤◌};
ghost use Rattle.circulant_plan.specs.Spots.{IsSpotOf};
ghost use Rattle.circulant_plan.specs.Standing.{round_of};
ghost use Rattle.double_buffer.specs.Held.{AreOfRound};

use super::names::name_at;
use circulant_plan::{Ring, Spot, need};
use double_buffer::Slots;
use flight::Flight;
use sample_programs::Cells;
use std::alloc::{AllocError, Global};
use std::process::Abort;
use std::test::Fail;
use vert_base::{Message, Name};

/// Messages in the order of their names.
static NAMES: &str = "\
refresh | 3 | 1 | 0 | 0 | 0
update | 2 | 1 | 0 | 2 | 0
update | 2 | 1 | 1 | 0 | 0
update | 2 | 1 | 1 | 3 | 0
tally | 1 | 1 | 0 | 1 | 0";

fn put(flight: &mut Flight, msg: Message) -> bool {
    if flight.count() >= 100 {
        return false;
    }
    match flight.peek(&msg.name) {
        Some(_) => return false,
        None => {}
    }
    flight.send(msg).is_ok()
}

fn names_in_order(alloc: Global) -> Result<Vec<Name>, Fail> {
    let mut names = Vec::new(alloc);
    for line in NAMES.lines() {
        names.push(name_at(&mut Cells::new(line))?)?;
    }
    Ok(names)
}

/// Sends the messages in another order: the body of each tells its place among the names.
fn send_all(rt: &impl Abort, alloc: Global, names: &[Name]) -> Result<Flight, Fail> {
    let mut flight = Flight::new(alloc);
    for at in [3u8, 0, 4, 2, 1] {
        let name = *names.get(usize::from(at)).ok_or("no name")?;
        let body = Vec::from_slice(alloc, &[at, 7])?;
        assert!(rt; put(&mut flight, Message { name, body }));
    }
    Ok(flight)
}

/// The first byte of the body of a name, where it is under way.
fn first_byte(flight: &Flight, name: &Name) -> Option<u8> {
    match flight.peek(name) {
        Some(msg) => msg.body.first().copied(),
        None => None,
    }
}

#[test]
fn messages_under_way(rt: HostRuntime) -> Result<(), Fail> {
    flight::by_name();
    let names = names_in_order(rt.alloc())?;
    let mut flight = send_all(&rt, rt.alloc(), &names)?;
    assert_eq!(rt; flight.count(), 5);
    assert_eq!(rt; flight.first(), names.first().copied());
    for at in 0..5u8 {
        let name = *names.get(usize::from(at)).ok_or("no name")?;
        assert_eq!(rt; flight.nth(u32::from(at)), Some(name));
        assert_eq!(rt; first_byte(&flight, &name), Some(at));
    }
    assert_eq!(rt; flight.nth(5), None);
    for at in [2usize, 0, 4, 1, 3] {
        let name = *names.get(at).ok_or("no name")?;
        let msg = flight.pick(&name).ok_or("no message")?;
        assert_eq!(rt; msg.name, name);
        assert!(rt; flight.pick(&name).is_none());
        assert!(rt; flight.peek(&name).is_none());
    }
    assert_eq!(rt; flight.count(), 0);
    assert_eq!(rt; flight.first(), None);
    Ok(())
}

const ROUND: u32 = 5;

/// The spots of a round, of dense and sparse mode.
fn spot_at(ring: &Ring, at: u32) -> Spot
    requires { at < 2 * ring.now.machines + 4 }
    ensures spot { IsSpotOf ring.now result }
    ensures round { round_of 0 result ≡ 5 }
{
    let round = ROUND;
    match at {
        0 => Spot::Judge { round },
        1 => Spot::Begin { round },
        2 => Spot::Close { round, dense: true },
        3 => Spot::Close {
            round,
            dense: false,
        },
        _ => Spot::Scan {
            round,
            step: ((at - 4) / 2).min(255) as u8,
            half: (at % 2) as u8,
        },
    }
}

/// Puts or marks the k-th message that machine `m` needs at a spot, where it isn't held yet.
fn put_need(
    alloc: Global,
    slots: &mut Slots<64>,
    ring: &Ring,
    m: u8,
    spot: &Spot,
    k: u32,
    marked: bool,
) -> Result<bool, AllocError>
    requires machine { m < ring.now.machines }
    requires machines { slots.old.machines ≡ ring.now.machines }
    requires spot { IsSpotOf ring.now spot.now }
    requires round { round_of 0 spot.now ≡ 5 }
    requires held { AreOfRound 5 m slots.old.letters }
    ensures machines { slots.new.machines ≡ ring.now.machines }
    ensures held { AreOfRound 5 m slots.new.letters }
{
    let Some(name) = need(ring, m, spot, k) else {
        return Ok(false);
    };
    if slots.has(&name) {
        return Ok(false);
    }
    if marked {
        slots.mark(&name);
        return Ok(true);
    }
    let body = Vec::from_slice(alloc, &[name.from, name.step, name.half])?;
    slots.put(Message { name, body });
    Ok(true)
}

/// Puts or marks all that machine `m` needs in a round, and tells how many messages that are.
fn put_all(
    alloc: Global,
    slots: &mut Slots<64>,
    ring: &Ring,
    m: u8,
    marked: bool,
) -> Result<u32, AllocError>
    requires machine { m < ring.now.machines }
    requires machines { slots.old.machines ≡ ring.now.machines }
    requires held { AreOfRound 5 m slots.old.letters }
{
    let mut count = 0_u32;
    for at in 0..2 * u32::from(ring.machines) + 4 {
        let spot = spot_at(ring, at);
        for k in 0..130 {
            if put_need(alloc, slots, ring, m, &spot, k, marked)? {
                count = count.saturating_add(1);
            }
        }
    }
    Ok(count)
}

/// Looks at a message that is held, and lifts it.
fn lift_one(rt: &impl Abort, slots: &mut Slots<64>, name: &Name, marked: bool) {
    let bytes = [name.from, name.step, name.half];
    let expected: &[u8] = if marked { &[] } else { &bytes };
    let later = Name {
        round: ROUND + 1,
        ..*name
    };
    assert!(rt; !slots.has(&later));
    assert!(rt; slots.peek(&later).is_none());
    assert!(rt; slots.lift(&later).is_none());
    assert!(rt; slots.peek(name) == Some(expected));
    let lifted = slots.lift(name);
    assert!(rt; lifted.is_some_and(|body| body.as_slice() == expected));
    assert!(rt; !slots.has(name));
}

/// Lifts all that machine `m` needs in a round, and tells how many messages that are.
fn lift_all(rt: &impl Abort, slots: &mut Slots<64>, ring: &Ring, m: u8, marked: bool) -> u32
    requires { m < ring.now.machines }
{
    let mut count = 0_u32;
    for at in 0..2 * u32::from(ring.machines) + 4 {
        let spot = spot_at(ring, at);
        for k in 0..130 {
            if let Some(name) = need(ring, m, &spot, k) {
                if slots.has(&name) {
                    lift_one(rt, slots, &name, marked);
                    count = count.saturating_add(1);
                }
            }
        }
    }
    count
}

fn hold_round(
    rt: &impl Abort,
    alloc: Global,
    machines: u8,
    m: u8,
    marked: bool,
) -> Result<u32, Fail>
    requires machine { m < machines }
    requires machines { machines ≤ 64 }
{
    let ring = Ring {
        machines,
        carry: true,
    };
    let Ok(mut slots) = Slots::<64>::make(alloc, machines) else {
        return Err(Fail::from(AllocError));
    };
    let count = put_all(alloc, &mut slots, &ring, m, marked)?;
    assert_eq!(rt; lift_all(rt, &mut slots, &ring, m, marked), count);
    assert_eq!(rt; lift_all(rt, &mut slots, &ring, m, marked), 0);
    Ok(count)
}

/// The machines, a machine, whether its messages are put or marked, and how many there are in a round.
static ROUNDS: &str = "\
1 | 0 | put | 0
3 | 0 | put | 14
3 | 1 | marked | 13
64 | 0 | marked | 441
64 | 63 | put | 379";

#[test]
fn messages_of_a_round(rt: HostRuntime) -> Result<(), Fail> {
    double_buffer::by_name();
    for line in ROUNDS.lines() {
        let mut cells = Cells::new(line);
        let machines = cells.byte()?;
        let m = cells.byte()?;
        let marked = cells.is("marked");
        assert!(rt; m < machines && machines <= 64, "{line}");
        let count = hold_round(&rt, rt.alloc(), machines, m, marked)?;
        assert_eq!(rt; count, cells.number()?, "{line}");
    }
    Ok(())
}
