//! Places in the ring, and what machines need and send by the plan.

ghost use Rattle.std.specs.Prelude.{◌≡◌, ◌<◌, true};
ghost use Rattle.circulant_plan.specs.Spots.{IsSpotOf};

use circulant_plan::{Ring, Spot, actions, gives, half, need, order, ring_order};
use sample_programs::Cells;
use std::alloc::{AllocError, Global};
use std::test::Fail;
use vert_base::{Name, Place, Ruling};

/// A machine, how many there are, the next one, a step, and the chunk of the step.
static PLACES: &str = "\
0 | 1 | 0 | 0 | 0
0 | 3 | 1 | 0 | 2
2 | 3 | 0 | 2 | 2
63 | 64 | 0 | 63 | 63";

/// The machines, whether the loop carries, a machine, the ruling, its spot, what it needs, and what it sends.
static ACTIONS: &str = "\
1 | carry | 0 | dense | tell |  |
1 | carry | 0 | dense | judge 0 |  |
1 | carry | 0 | dense | begin 1 |  |
1 | carry | 0 | dense | scan 1 0 0 |  |
1 | carry | 0 | dense | dense 1 |  |
1 | carry | 0 | dense | sparse 1 |  |
1 | carry | 0 | dense | over |  |
2 | carry | 0 | dense | tell |  |
2 | carry | 1 | dense | tell |  | Tally 0 0.0 1>0
2 | carry | 0 | dense | judge 3 | Tally 3 0.0 1>0 | Verdict 4 0.0 0>1
2 | carry | 0 | dense | begin 2 |  | Refresh 2 0.0 0>1
2 | carry | 1 | dense | begin 2 | Verdict 2 0.0 0>1 | Refresh 2 0.0 1>0
2 | carry | 0 | dense | scan 1 0 1 | Refresh 1 0.0 1>0 | Update 1 0.1 0>1, Dep 1 0.1 0>1
2 | carry | 1 | dense | scan 1 0 0 | Refresh 1 0.0 0>1 | Update 1 0.0 1>0, Dep 1 0.0 1>0
2 | carry | 0 | dense | scan 1 1 0 | Dep 1 0.0 1>0 |
2 | carry | 1 | dense | scan 1 1 1 | Dep 1 0.1 0>1 |
2 | - | 0 | dense | scan 1 0 1 | Refresh 1 0.0 1>0 | Update 1 0.1 0>1
2 | - | 1 | dense | scan 1 1 0 |  |
2 | carry | 0 | dense | dense 1 | Update 1 0.0 1>0, Update 1 0.1 1>0 |
2 | - | 1 | dense | dense 1 | Update 1 0.0 0>1, Update 1 0.1 0>1 | Tally 1 0.0 1>0
2 | carry | 0 | dense | sparse 1 | Push 1 0.0 1>0 |
2 | carry | 1 | dense | sparse 1 | Push 1 0.0 0>1 | Tally 1 0.0 1>0
2 | carry | 1 | dense | over |  |
3 | carry | 2 | dense | tell |  | Tally 0 0.0 2>0
3 | carry | 0 | dense | judge 5 | Tally 5 0.0 1>0, Tally 5 0.0 2>0 | Verdict 6 0.0 0>1, Verdict 6 0.0 0>2
3 | carry | 1 | dense | judge 5 |  |
3 | carry | 0 | dense | begin 7 |  | Refresh 7 0.0 0>1, Refresh 7 0.0 0>2
3 | carry | 1 | dense | begin 7 | Verdict 7 0.0 0>1 | Refresh 7 0.0 1>0, Refresh 7 0.0 1>2
3 | - | 2 | dense | begin 7 | Verdict 7 0.0 0>2 | Refresh 7 0.0 2>0, Refresh 7 0.0 2>1
3 | carry | 2 | dense | scan 7 0 0 | Refresh 7 0.0 1>2 | Update 7 0.0 2>1, Dep 7 0.0 2>0
3 | carry | 0 | dense | scan 7 1 1 | Refresh 7 0.0 1>0, Dep 7 0.1 2>0 | Update 7 1.1 0>1, Dep 7 1.1 0>1
3 | carry | 1 | dense | scan 7 1 0 | Refresh 7 0.0 2>1, Dep 7 0.0 0>1 | Update 7 1.0 1>2, Dep 7 1.0 1>2
3 | carry | 2 | dense | scan 7 2 1 | Dep 7 1.1 1>2 |
3 | - | 2 | dense | scan 7 1 0 | Refresh 7 0.0 0>2 | Update 7 1.0 2>0
3 | - | 0 | dense | scan 7 2 1 |  |
3 | carry | 0 | dense | dense 7 | Update 7 0.0 1>0, Update 7 0.1 1>0, Update 7 1.0 2>0, Update 7 1.1 2>0 |
3 | carry | 1 | dense | dense 7 | Update 7 0.0 2>1, Update 7 0.1 2>1, Update 7 1.0 0>1, Update 7 1.1 0>1 | Tally 7 0.0 1>0
3 | - | 2 | dense | dense 7 | Update 7 0.0 0>2, Update 7 0.1 0>2, Update 7 1.0 1>2, Update 7 1.1 1>2 | Tally 7 0.0 2>0
3 | carry | 0 | dense | sparse 7 | Push 7 0.0 1>0, Push 7 0.0 2>0 |
3 | carry | 1 | dense | sparse 7 | Push 7 0.0 0>1, Push 7 0.0 2>1 | Tally 7 0.0 1>0
3 | carry | 2 | dense | over |  |
1 | carry | 0 | sparse | begin 1 |  |
2 | carry | 0 | sparse | begin 2 |  | Push 2 0.0 0>1
2 | carry | 1 | sparse | begin 2 | Verdict 2 0.0 0>1 | Push 2 0.0 1>0
3 | carry | 0 | sparse | begin 7 |  | Push 7 0.0 0>1, Push 7 0.0 0>2
3 | carry | 1 | sparse | begin 7 | Verdict 7 0.0 0>1 | Push 7 0.0 1>0, Push 7 0.0 1>2
3 | - | 2 | sparse | begin 7 | Verdict 7 0.0 0>2 | Push 7 0.0 2>0, Push 7 0.0 2>1
1 | carry | 0 | stop | begin 1 |  |
2 | carry | 0 | stop | begin 2 |  |
2 | carry | 1 | stop | begin 2 | Verdict 2 0.0 0>1 |
3 | carry | 0 | stop | begin 7 |  |
3 | carry | 1 | stop | begin 7 | Verdict 7 0.0 0>1 |
3 | - | 2 | stop | begin 7 | Verdict 7 0.0 0>2 |";

/// Of 64 machines with a carrying loop: a machine, its spot, whether it needs or sends, the number of a message
/// from 0, and its name.
static BORDERS: &str = "\
0 | judge 4294967294 | needs | 62 | Tally 4294967294 0.0 63>0
0 | judge 4294967294 | needs | 63 |
0 | judge 4294967294 | needs | 4294967295 |
63 | dense 1 | needs | 125 | Update 1 62.1 62>63
63 | dense 1 | needs | 126 |
63 | dense 1 | needs | 4294967295 |
0 | scan 1 63 1 | needs | 0 | Dep 1 62.1 63>0
0 | scan 1 63 1 | needs | 1 |
0 | judge 4294967294 | sends | 62 | Verdict 4294967295 0.0 0>63
0 | judge 4294967294 | sends | 63 |";

/// A chunk, a step, the machines, and the machine that works on the chunk in the step.
static ORDERS: &str = "\
2 | 0 | 4 | 3
2 | 1 | 4 | 0
2 | 2 | 4 | 1
2 | 3 | 4 | 2
1 | 0 | 2 | 0
0 | 0 | 2 | 1
0 | 1 | 2 | 0
1 | 1 | 2 | 1
0 | 0 | 1 | 0
63 | 63 | 64 | 63
254 | 254 | 255 | 254";

/// A chunk's start and end, and where it is cut.
static CUTS: &str = "\
2 | 7 | 5
2 | 6 | 4
0 | 0 | 0
0 | 1 | 1
9 | 10 | 10
0 | 4294967295 | 2147483648
4294967295 | 4294967295 | 4294967295";

#[test]
fn places(rt: HostRuntime) -> Result<(), Fail> {
    for line in PLACES.lines() {
        let mut cells = Cells::new(line);
        let (machine, machines) = (cells.byte()?, cells.byte()?);
        assert!(rt; machines >= 1 && machines <= 64, "{line}");
        let place = Place::<64>::new(machine, machines).ok_or("no place")?;
        assert_eq!(rt;
            (place.number(), place.count()),
            (machine, machines),
            "{line}"
        );
        let next = place.next();
        assert_eq!(rt;
            (next.number(), next.count()),
            (cells.byte()?, machines),
            "{line}"
        );
        let step = cells.byte()?;
        assert!(rt; step < place.count(), "{line}");
        assert_eq!(rt; place.dest(step), cells.byte()?, "{line}");
    }
    assert!(rt; Place::<64>::new(3, 3).is_none());
    Ok(())
}

/// Whether the plan may be asked about the spot.
fn is_asked(ring: &Ring, spot: &Spot) -> bool
    ensures { result ≡ true → IsSpotOf ring.now spot.now }
{
    match *spot {
        Spot::Tell | Spot::Over => true,
        Spot::Judge { round } | Spot::Begin { round } => round < 4294967295,
        Spot::Close { round, dense: _ } => round < 4294967295,
        Spot::Scan { round, step, half } => {
            round < 4294967295 && step < ring.machines && half <= 1
        }
    }
}

/// The spot of a cell. `dense` and `sparse` are closes.
fn spot_of(cell: &str) -> Result<Spot, Fail> {
    let mut words = cell.split_whitespace();
    let kind = words.next().unwrap_or("over");
    let round = words.next().unwrap_or("0").parse::<u32>()?;
    let step = words.next().unwrap_or("0").parse::<u8>()?;
    let half = words.next().unwrap_or("0").parse::<u8>()?;
    Ok(match kind {
        "tell" => Spot::Tell,
        "judge" => Spot::Judge { round },
        "begin" => Spot::Begin { round },
        "scan" => Spot::Scan { round, step, half },
        "dense" => Spot::Close { round, dense: true },
        "sparse" => Spot::Close {
            round,
            dense: false,
        },
        _ => Spot::Over,
    })
}

fn ruling_of(word: &str) -> Ruling {
    match word {
        "dense" => Ruling::Dense,
        "sparse" => Ruling::Sparse,
        _ => Ruling::Stop,
    }
}

/// Puts a name behind those of a list: kind, round, step and half, and from which machine to which.
fn put_name(into: &mut String, name: &Name) -> Result<(), AllocError> {
    let mark = if into.is_empty() { "" } else { ", " };
    let Name {
        kind,
        round,
        step,
        half,
        from,
        to,
    } = *name;
    write!(into, "{mark}{kind:?} {round} {step}.{half} {from}>{to}")
}

/// What machine `m` needs at a spot, from the k-th name on, as many as are asked for.
fn needs_told(
    alloc: Global,
    ring: &Ring,
    m: u8,
    spot: &Spot,
    numbers: (u32, u32),
) -> Result<String, AllocError>
    requires machine { m < ring.now.machines }
    requires spot { IsSpotOf ring.now spot.now }
{
    let mut text = String::new(alloc);
    for k in numbers.0..=numbers.1 {
        if let Some(name) = need(ring, m, spot, k) {
            put_name(&mut text, &name)?;
        }
    }
    Ok(text)
}

/// What machine `m` sends at a spot, from the k-th name on, as many as are asked for.
fn gifts_told(
    alloc: Global,
    ring: &Ring,
    m: u8,
    spot: &Spot,
    ruling: Ruling,
    numbers: (u32, u32),
) -> Result<String, AllocError>
    requires machine { m < ring.now.machines }
    requires spot { IsSpotOf ring.now spot.now }
{
    let mut text = String::new(alloc);
    for k in numbers.0..=numbers.1 {
        if let Some(name) = gives(ring, m, spot, ruling, k) {
            put_name(&mut text, &name)?;
        }
    }
    Ok(text)
}

#[test]
fn needs_and_gifts(rt: HostRuntime) -> Result<(), Fail> {
    let alloc = rt.alloc();
    for line in ACTIONS.lines() {
        let mut cells = Cells::new(line);
        let ring = Ring {
            machines: cells.byte()?,
            carry: cells.is("carry"),
        };
        let m = cells.byte()?;
        let ruling = ruling_of(cells.text());
        let spot = spot_of(cells.text())?;
        assert!(rt; m < ring.machines && is_asked(&ring, &spot), "{line}");
        let found = needs_told(alloc, &ring, m, &spot, (0, 8))?;
        assert_eq!(rt; found.as_str(), cells.text(), "{line}");
        let found = gifts_told(alloc, &ring, m, &spot, ruling, (0, 8))?;
        assert_eq!(rt; found.as_str(), cells.text(), "{line}");
    }
    Ok(())
}

#[test]
fn borders(rt: HostRuntime) -> Result<(), Fail> {
    let alloc = rt.alloc();
    let ring = Ring {
        machines: 64,
        carry: true,
    };
    for line in BORDERS.lines() {
        let mut cells = Cells::new(line);
        let m = cells.byte()?;
        let spot = spot_of(cells.text())?;
        let needs = cells.is("needs");
        let k = cells.number()?;
        assert!(rt; m < ring.machines && is_asked(&ring, &spot), "{line}");
        let found = if needs {
            needs_told(alloc, &ring, m, &spot, (k, k))?
        } else {
            gifts_told(alloc, &ring, m, &spot, Ruling::Stop, (k, k))?
        };
        assert_eq!(rt; found.as_str(), cells.text(), "{line}");
    }
    Ok(())
}

#[test]
fn orders_and_halves(rt: HostRuntime) -> Result<(), Fail> {
    for line in ORDERS.lines() {
        let mut cells = Cells::new(line);
        let (chunk, step, machines) = (cells.byte()?, cells.byte()?, cells.byte()?);
        assert!(rt; chunk < machines && step < machines, "{line}");
        assert_eq!(rt; order(chunk, step, machines), cells.byte()?, "{line}");
    }
    for line in CUTS.lines() {
        let mut cells = Cells::new(line);
        let (start, end, cut) = (cells.number()?, cells.number()?, cells.number()?);
        assert!(rt; start <= end, "{line}");
        assert_eq!(rt; half(start, end, 0), (start, cut), "{line}");
        assert_eq!(rt; half(start, end, 1), (cut, end), "{line}");
    }
    ring_order();
    actions();
    Ok(())
}
