//! Runs over links that lose and repeat: read again they say the same events, which come to the plain rows.
ghost use Rattle.std.specs.Prelude.{◌≡◌, ◌≤◌, false, IfOk, OnOk};

use crate::cases::{Case, case_of, edges_of, plain_run_of, typed_of};
use crate::machines::{check_rows, parts_of};
use crate::orders::{EVENTS, SEED};
use crate::runs::SMALL;
use edge_reader::Edges;
use instrument::{Split, split_of};
use link_core::{LinkChooser, LinkEvent, LinkRecorder, Links, read_links};
use machine_core::Core;
use std::alloc::Global;
use std::process::Abort;
use std::test::Fail;
use symple_face::Site;
use vert_base::limits::MACHINES;
use vert_base::{Row, Want};

fn links_of<S: Site>(
    alloc: Global,
    split: Split,
    edges: Edges,
    machines: u8,
) -> Result<Links<S, MACHINES>, Want>
    requires some { 1 ≤ machines }
    requires few { machines ≤ 64 }
    ensures { IfOk result (λ links. links.ended ≡ false) }
{
    let parts = parts_of(alloc, split, edges, machines)?;
    Links::<S, MACHINES>::start(alloc, parts)
}

/// The machines of a case and their links before any event.
fn linked<S: Site>(alloc: Global, case: &Case, machines: u8) -> Result<Links<S, MACHINES>, Fail>
    ensures { IfOk result (λ links. links.ended ≡ false) }
{
    if machines < 1 || machines > 64 {
        return Err(Fail::from("not so many machines"));
    }
    let split = split_of(typed_of(alloc, case)?);
    match links_of::<S>(alloc, split, edges_of(alloc, case)?, machines) {
        Ok(links) => Ok(links),
        Err(_) => Err(Fail::from("no machines")),
    }
}

fn play<S: Site>(links: &mut Links<S, MACHINES>, event: &LinkEvent) -> Result<(), Fail>
    ensures { OnOk result (links.new.ended ≡ false) }
{
    match links.event(event) {
        Ok(()) => Ok(()),
        Err(_) => Err(Fail::from("not played")),
    }
}

/// Plays drawn events to the end, and tells them.
fn draw_out<S: Site>(alloc: Global, links: &mut Links<S, MACHINES>) -> Result<Vec<LinkEvent>, Fail>
    requires { links.old.ended ≡ false }
{
    let mut chooser = LinkChooser::new(SEED);
    let mut events = Vec::new(alloc);
    'events: for _ in 0..EVENTS {
        let Some(event) = chooser.next(links) else {
            return Ok(events);
        };
        events.push(event)?;
        play(links, &event)?;
    }
    Err(Fail::from("no end"))
}

/// The text of the events of a run over links.
fn recorded(alloc: Global, machines: u8, events: &[LinkEvent]) -> Result<LinkRecorder, Fail> {
    if machines < 1 || machines > 64 {
        return Err(Fail::from("not so many machines"));
    }
    let mut recorder = LinkRecorder::new(alloc, machines)?;
    for event in events {
        recorder.add(event)?;
    }
    Ok(recorder)
}

/// The schedule of events says them again, and they come to these rows.
fn check_replay(
    rt: &impl Abort,
    alloc: Global,
    case: &Case,
    machines: u8,
    events: &[LinkEvent],
    rows: &[Row],
) -> Result<(), Fail> {
    let recorder = recorded(alloc, machines, events)?;
    let schedule = read_links(alloc, recorder.text())?;
    assert_eq!(rt; schedule.machines, machines);
    assert!(rt; schedule.events.as_slice() == events);
    let mut links = linked::<Core>(alloc, case, machines)?;
    for event in &schedule.events {
        play(&mut links, event)?;
    }
    assert!(rt; links.cluster().finished());
    check_rows(rt, links.cluster(), rows, None)
}

fn check_case(rt: &impl Abort, alloc: Global, case: &Case, machines: u8) -> Result<(), Fail> {
    let wanted = plain_run_of(alloc, case, machines)?;
    let mut links = linked::<Core>(alloc, case, machines)?;
    let events = draw_out(alloc, &mut links)?;
    check_rows(rt, links.cluster(), &wanted.rows, None)?;
    check_replay(rt, alloc, case, machines, &events, &wanted.rows)
}

#[test]
fn links_that_lose(rt: HostRuntime) -> Result<(), Fail> {
    let alloc = rt.alloc();
    for line in SMALL.lines() {
        let case = case_of(alloc, line)?;
        for machines in [2, 5, 16] {
            check_case(&rt, alloc, &case, machines)?;
        }
    }
    Ok(())
}
