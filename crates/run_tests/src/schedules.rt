//! Runs as schedules: read again they say the same events, which come to the same rows; cut behind a line, they aren't
//! finished.
ghost use Rattle.std.specs.Prelude.{◌≡◌, false, OnOk};

use crate::cases::{Case, case_of, plain_run_of};
use crate::machines::{check_rows, started};
use crate::orders::{Order, goes, play, play_out};
use cluster_run::{Cluster, Missing};
use delivery_log::{Recorder, ScheduleFault, read_schedule};
use machine_core::Core;
use std::alloc::Global;
use std::process::Abort;
use std::test::Fail;
use symple_face::Site;
use vert_base::limits::MACHINES;
use vert_base::{Event, Row};

/// Runs whose schedules are cut, each with how many machines there are.
static CUTS: &str = "\
first0 | diamond | | | 2
bfs | diamond | | | 2
bfs | diamond | | | 3
k | triangle-with-tail | both | | 2
halve | path | | | 3";

/// The text of the events of a run.
fn recorded(alloc: Global, machines: u8, events: &[Event]) -> Result<Recorder, Fail> {
    if machines < 1 || machines > 64 {
        return Err(Fail::from("not so many machines"));
    }
    let mut recorder = Recorder::new(alloc, machines)?;
    for event in events {
        recorder.add(event)?;
    }
    Ok(recorder)
}

/// The schedule of events says them again, and they come to these rows again.
pub(crate) fn check_replay(
    rt: &impl Abort,
    alloc: Global,
    case: &Case,
    machines: u8,
    events: &[Event],
    rows: &[Row],
) -> Result<(), Fail> {
    let recorder = recorded(alloc, machines, events)?;
    let schedule = read_schedule(alloc, recorder.text())?;
    assert_eq!(rt; schedule.machines, machines);
    assert!(rt; schedule.events.as_slice() == events);
    let mut cluster = started::<Core>(alloc, case, machines)?;
    for event in &schedule.events {
        play(&mut cluster, event)?;
    }
    assert!(rt; cluster.finished());
    check_rows(rt, &cluster, rows, None)
}

/// The least message under way, or where there is none the least machine that can go.
fn lacking<S: Site>(cluster: &Cluster<S, MACHINES>) -> Option<Missing>
    requires { cluster.now.ended ≡ false }
{
    match (cluster.choice(goes(cluster)), cluster.choice(0)) {
        (Some(Event::Take(name)), _) => Some(Missing::Taken(name)),
        (_, Some(Event::Go(machine))) => Some(Missing::Gone(machine)),
        _ => None,
    }
}

/// The events of the first lines of a schedule, that many of which were played: the next one is played, and then the run
/// lacks something unless these are all.
fn check_cut<S: Site>(
    rt: &impl Abort,
    cluster: &mut Cluster<S, MACHINES>,
    read: &[Event],
    played: usize,
    events: &[Event],
) -> Result<(), Fail>
    requires { cluster.old.ended ≡ false }
    ensures { OnOk result (cluster.new.ended ≡ false) }
{
    assert!(rt; Some(read) == events.get(..read.len()));
    if let Some(event) = read.get(played) {
        play(cluster, event)?;
    }
    let missing = cluster.missing();
    assert_eq!(rt; missing, lacking(cluster));
    assert_eq!(rt; missing.is_none(), read.len() == events.len());
    Ok(())
}

/// A schedule that is cut behind each of its lines.
fn check_cuts(
    rt: &impl Abort,
    alloc: Global,
    case: &Case,
    machines: u8,
    events: &[Event],
) -> Result<(), Fail> {
    let recorder = recorded(alloc, machines, events)?;
    let text = recorder.text();
    let mut cluster = started::<Core>(alloc, case, machines)?;
    let mut played = 0usize;
    let mut line = 0u32;
    'bytes: for (at, byte) in text.iter().enumerate() {
        if *byte != b'\n' {
            continue;
        }
        line = line.saturating_add(1);
        match read_schedule(alloc, text.get(..=at).unwrap_or(&[])) {
            Ok(schedule) => {
                check_cut(rt, &mut cluster, &schedule.events, played, events)?;
                played = schedule.events.len();
            }
            // A round stands before the message that is taken of it.
            Err(fault) => assert_eq!(rt; fault, ScheduleFault::Line(line)),
        }
    }
    assert_eq!(rt; played, events.len());
    Ok(())
}

#[test]
fn schedules_that_are_cut(rt: HostRuntime) -> Result<(), Fail> {
    let alloc = rt.alloc();
    for line in CUTS.lines() {
        let (case, machines) = line.rsplit_once('|').ok_or("no machines")?;
        let case = case_of(alloc, case)?;
        let machines = machines.trim().parse::<u8>()?;
        let wanted = plain_run_of(alloc, &case, machines)?;
        let mut cluster = started::<Core>(alloc, &case, machines)?;
        let events = play_out(&rt, alloc, &mut cluster, Order::Drawn, &wanted, 0)?;
        check_cuts(&rt, alloc, &case, machines, &events)?;
    }
    Ok(())
}
