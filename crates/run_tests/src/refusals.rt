//! Events that are refused, and that all stays as it was.
ghost use Rattle.std.specs.Prelude.{◌≡◌, false, OnOk};

use crate::cases::{Case, case_of, plain_run_of};
use crate::machines::{check_rows, started};
use crate::orders::{Order, play, play_out};
use cluster_run::{Cluster, EventFault};
use delivery_log::{Schedule, read_schedule};
use machine_core::Core;
use sample_programs::{Cells, plain};
use std::alloc::{AllocError, Global};
use std::process::Abort;
use std::test::Fail;
use symple_face::Site;
use vert_base::Event;
use vert_base::limits::MACHINES;

/// The machines and the events, of which the last one is refused, how many events follow up to the end, and why.
static FIRST0: &str = "\
schedule 1 machines 2/go 2/ | 5 NoMachine
schedule 1 machines 2/go 255/ | 5 NoMachine
schedule 1 machines 2/go 0/go 1/go 2/ | 3 NoMachine
schedule 1 machines 2/go 0/go 0/ | 4 Waits(Name { kind: Tally, round: 0, step: 0, half: 0, from: 1, to: 0 })
schedule 1 machines 2/go 1/go 1/ | 4 Waits(Name { kind: Verdict, round: 1, step: 0, half: 0, from: 0, to: 1 })
schedule 1 machines 2/take tally 0 1 0/ | 5 NotUnderWay
schedule 1 machines 2/go 0/take tally 0 1 0/ | 4 NotUnderWay
schedule 1 machines 2/go 0/go 1/take tally 0 0 1/ | 3 NotUnderWay
schedule 1 machines 2/go 0/go 1/take tally 1 1 0/ | 3 NotUnderWay
schedule 1 machines 2/go 0/go 1/take tally 0 1 0/take tally 0 1 0/ | 2 NotUnderWay
schedule 1 machines 2/go 0/go 1/take verdict 1 0 1/ | 3 NotUnderWay
schedule 1 machines 2/go 0/go 1/take tally 0 1 0/go 0/go 0/ | 1 MachineOver
schedule 1 machines 2/go 0/go 1/take tally 0 1 0/go 0/take verdict 1 0 1/go 0/ | 0 RunOver
schedule 1 machines 2/go 0/go 1/take tally 0 1 0/go 0/take verdict 1 0 1/go 2/ | 0 RunOver
schedule 1 machines 2/go 0/go 1/take tally 0 1 0/go 0/take verdict 1 0 1/take verdict 1 0 1/ | 0 RunOver";

/// The same for a search by three machines.
static BFS: &str = "\
schedule 1 machines 3/go 3/ | 143 NoMachine
schedule 1 machines 3/take refresh 4294967295 0 1/ | 143 NotUnderWay
schedule 1 machines 3/go 0/go 1/go 2/take tally 0 1 0/go 0/ | \
139 Waits(Name { kind: Tally, round: 0, step: 0, half: 0, from: 2, to: 0 })
schedule 1 machines 3/go 0/go 1/go 2/take tally 0 1 0/take tally 0 2 0/go 0/go 0/take verdict 1 0 2/\
go 2/take refresh 1 0 1/take refresh 1 2 1/take refresh 1 2 0/go 0/take dep 1 0 0 0 1/go 1/ | \
129 Waits(Name { kind: Verdict, round: 1, step: 0, half: 0, from: 0, to: 1 })
schedule 1 machines 3/go 0/go 1/go 2/take tally 0 1 0/take tally 0 2 0/go 0/go 0/take verdict 1 0 2/\
go 2/take refresh 1 0 1/take refresh 1 2 1/take refresh 1 2 0/go 0/take dep 1 0 0 0 1/take dep 1 0 0 0 1/ | \
129 NotUnderWay";

/// The body of the message that an event takes, where it is under way.
fn body_of<'a, S: Site>(cluster: &'a Cluster<S, MACHINES>, event: &Event) -> &'a [u8] {
    match event {
        Event::Go(_) => &[],
        Event::Take(name) => match cluster.peek(name) {
            Some(message) => &message.body,
            None => &[],
        },
    }
}

/// What is seen of machines between two events: how many events may come next, whether the run is over, what it
/// lacks, what each machine does next, each event that may come next, and the body that it takes.
fn seen<S: Site>(alloc: Global, cluster: &Cluster<S, MACHINES>) -> Result<String, AllocError>
    requires { cluster.now.ended ≡ false }
{
    let mut text = format!(in alloc; "{} {}", cluster.choices(), cluster.finished())?;
    text.push_str(&format!(in alloc; " {:?}\n", cluster.missing())?)?;
    for machine in 0..cluster.machines() {
        text.push_str(&format!(in alloc; "{:?}\n", cluster.site(machine).action())?)?;
    }
    for k in 0..cluster.choices() {
        if let Some(event) = cluster.choice(k) {
            let body = body_of(cluster, &event);
            text.push_str(&format!(in alloc; "{event:?} {body:?}\n")?)?;
        }
    }
    Ok(text)
}

/// Why an event is refused. The machines can go on.
fn fault_of<S: Site>(cluster: &mut Cluster<S, MACHINES>, event: &Event) -> Result<EventFault, Fail>
    requires { cluster.old.ended ≡ false }
    ensures { OnOk result (cluster.new.ended ≡ false) }
{
    match cluster.event(event) {
        Ok(()) => Err(Fail::from("played")),
        Err(EventFault::Want) => Err(Fail::from("want of memory")),
        Err(fault) => Ok(fault),
    }
}

/// Why an event is refused, which leaves all as it was.
fn refused<S: Site>(
    rt: &impl Abort,
    alloc: Global,
    cluster: &mut Cluster<S, MACHINES>,
    event: &Event,
) -> Result<EventFault, Fail>
    requires { cluster.old.ended ≡ false }
    ensures { OnOk result (cluster.new.ended ≡ false) }
{
    let before = seen(alloc, cluster)?;
    assert!(rt; !cluster.possible(event));
    let fault = fault_of(cluster, event)?;
    let after = seen(alloc, cluster)?;
    assert_eq!(rt; after.as_str(), before.as_str());
    Ok(fault)
}

/// The last event of a schedule is refused, and the run goes on to its end: why, and how many events follow.
fn check_refusal(
    rt: &impl Abort,
    alloc: Global,
    case: &Case,
    schedule: &Schedule,
) -> Result<String, Fail> {
    let (last, others) = schedule.events.split_last().ok_or("no event")?;
    let mut cluster = started::<Core>(alloc, case, schedule.machines)?;
    'events: for event in others {
        play(&mut cluster, event)?;
    }
    let fault = refused(rt, alloc, &mut cluster, last)?;
    let wanted = plain_run_of(alloc, case, schedule.machines)?;
    let events = play_out(rt, alloc, &mut cluster, Order::Plain, &wanted, 0)?;
    check_rows(rt, &cluster, &wanted.rows, None)?;
    Ok(format!(in alloc; "{} {fault:?}", events.len())?)
}

fn check_refusals(rt: &impl Abort, alloc: Global, case: &Case, lines: &str) -> Result<(), Fail> {
    for line in lines.lines() {
        let mut cells = Cells::new(line);
        let text = plain(alloc, cells.text())?;
        let schedule = read_schedule(alloc, text.as_bytes())?;
        let told = check_refusal(rt, alloc, case, &schedule)?;
        assert_eq!(rt; told.as_str(), cells.text(), "{line}");
    }
    Ok(())
}

#[test]
fn events_that_are_refused(rt: HostRuntime) -> Result<(), Fail> {
    let alloc = rt.alloc();
    check_refusals(&rt, alloc, &case_of(alloc, "first0 | diamond")?, FIRST0)?;
    check_refusals(&rt, alloc, &case_of(alloc, "bfs | diamond")?, BFS)
}
