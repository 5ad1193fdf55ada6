//! Whole runs in each order: their rounds, reads and rows.

use crate::cases::{case_of, plain_run_of};
use crate::machines::{check_rows, started};
use crate::orders::{Order, play_out};
use crate::schedules::check_replay;
use lying_site::Lying;
use machine_core::Core;
use std::alloc::Global;
use std::process::Abort;
use std::test::Fail;

/// Programs, each with a graph.
pub(crate) static CASES: &str = "\
bfs | diamond
bfs | mesh
bfs | mesh | both
k | triangle-with-tail | both
k | mesh | both
k | empty | | 1
first | three-into-one
first | mesh
first0 | diamond
heavy | weighted-into-one
heavy | mesh
sum | weighted-cycle
sum | mesh
wrap | two-into-one
zero | one-edge
dice | empty | | 1
dice | mesh
sample | one-edge
sample | mesh
halve | path
halve | mesh
every-class | mesh
sparse-only | mesh
two-sorts | mesh";

/// Each program with a graph on which many machines are soon over.
pub(crate) static SMALL: &str = "\
bfs | diamond
k | triangle-with-tail | both
first | three-into-one
first0 | diamond
heavy | weighted-into-one
sum | weighted-cycle
wrap | two-into-one
zero | one-edge
dice | empty | | 1
sample | one-edge
halve | path";

/// Programs whose first field is a number, and the word that stands in its place.
static LIES: &str = "\
bfs | diamond
first | three-into-one
sum | mesh";

/// Programs in an order. What was drawn is recorded, and played again.
fn check_cases(
    rt: &impl Abort,
    alloc: Global,
    cases: &str,
    machines: u8,
    order: Order,
) -> Result<(), Fail> {
    for line in cases.lines() {
        let case = case_of(alloc, line)?;
        let wanted = plain_run_of(alloc, &case, machines)?;
        let mut cluster = started::<Core>(alloc, &case, machines)?;
        let events = play_out(rt, alloc, &mut cluster, order, &wanted, 0)?;
        check_rows(rt, &cluster, &wanted.rows, None)?;
        if matches!(order, Order::Drawn) {
            check_replay(rt, alloc, &case, machines, &events, &wanted.rows)?;
        }
    }
    Ok(())
}

fn check_order(rt: &impl Abort, alloc: Global, order: Order) -> Result<(), Fail> {
    for machines in [1, 2, 3, 5, 16] {
        check_cases(rt, alloc, CASES, machines, order)?;
    }
    check_cases(rt, alloc, SMALL, 64, order)
}

#[test]
fn plain_runs(rt: HostRuntime) -> Result<(), Fail> {
    check_order(&rt, rt.alloc(), Order::Plain)
}

#[test]
fn last_events_first(rt: HostRuntime) -> Result<(), Fail> {
    check_order(&rt, rt.alloc(), Order::Last)
}

#[test]
fn takes_early(rt: HostRuntime) -> Result<(), Fail> {
    check_order(&rt, rt.alloc(), Order::TakesEarly)
}

#[test]
fn takes_late(rt: HostRuntime) -> Result<(), Fail> {
    check_order(&rt, rt.alloc(), Order::TakesLate)
}

#[test]
fn drawn_events(rt: HostRuntime) -> Result<(), Fail> {
    check_order(&rt, rt.alloc(), Order::Drawn)
}

#[test]
fn many_vertices(rt: HostRuntime) -> Result<(), Fail> {
    check_cases(&rt, rt.alloc(), "bfs | crowd", 64, Order::Last)
}

#[test]
fn machines_that_lie(rt: HostRuntime) -> Result<(), Fail> {
    let alloc = rt.alloc();
    for line in LIES.lines() {
        let case = case_of(alloc, line)?;
        let wanted = plain_run_of(alloc, &case, 3)?;
        let mut cluster = started::<Lying<Core>>(alloc, &case, 3)?;
        let _events = play_out(&rt, alloc, &mut cluster, Order::Drawn, &wanted, 0)?;
        check_rows(&rt, &cluster, &wanted.rows, Some(77))?;
    }
    Ok(())
}
