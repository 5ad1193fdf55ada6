//! Orders of events.
ghost use Rattle.std.specs.Prelude.{◌≡◌, false, OnOk};

use crate::machines::check_round;
use circulant_plan::Spot;
use cluster_run::Cluster;
use delivery_log::{Chooser, plain};
use plain_run::PlainRun;
use std::alloc::Global;
use std::process::Abort;
use std::test::Fail;
use symple_face::Site;
use vert_base::Event;
use vert_base::limits::MACHINES;

/// Which of the possible events comes next.
#[derive(Clone, Copy)]
pub(crate) enum Order {
    /// The first one: a machine goes before a message is taken.
    Plain,
    /// The last one.
    Last,
    /// A message is taken, the least, before a machine goes.
    TakesEarly,
    /// A machine goes, the greatest, before a message is taken, the greatest as well.
    TakesLate,
    /// One that the generator of a seed draws.
    Drawn,
}

/// The seed of the drawn order.
pub(crate) const SEED: u64 = 20_261_202;

/// No run of the tests has more events.
pub(crate) const EVENTS: u32 = 2_000_000;

/// How many machines can go.
pub(crate) fn goes<S: Site>(cluster: &Cluster<S, MACHINES>) -> u32
    requires { cluster.now.ended ≡ false }
{
    let mut count = 0u32;
    for k in 0..64u32 {
        match cluster.choice(k) {
            Some(Event::Go(_)) => count = count.saturating_add(1),
            _ => return count,
        }
    }
    count
}

fn next<S: Site>(
    order: Order,
    chooser: &mut Chooser,
    cluster: &Cluster<S, MACHINES>,
) -> Option<Event>
    requires { cluster.now.ended ≡ false }
{
    let last = cluster.choices().saturating_sub(1);
    match order {
        Order::Plain => plain(cluster),
        Order::Last => cluster.choice(last),
        Order::TakesEarly => cluster.choice(goes(cluster).min(last)),
        Order::TakesLate => match goes(cluster) {
            0 => cluster.choice(last),
            count => cluster.choice(count.saturating_sub(1)),
        },
        Order::Drawn => chooser.next(cluster),
    }
}

/// Whether machine 0 judges by an event a round that took place.
pub(crate) fn judges<S: Site>(cluster: &Cluster<S, MACHINES>, event: &Event) -> bool {
    match event {
        Event::Go(0) if cluster.machines() > 0 => {
            matches!(cluster.site(0).spot(), Spot::Judge { round } if round >= 1)
        }
        _ => false,
    }
}

/// Plays an event.
pub(crate) fn play<S: Site>(cluster: &mut Cluster<S, MACHINES>, event: &Event) -> Result<(), Fail>
    ensures { OnOk result (cluster.new.ended ≡ false) }
{
    match cluster.event(event) {
        Ok(()) => Ok(()),
        Err(_) => Err(Fail::from("not played")),
    }
}

/// Plays machines to their end in an order, whose rounds are the plain ones from this number on: the events.
pub(crate) fn play_out<S: Site>(
    rt: &impl Abort,
    alloc: Global,
    cluster: &mut Cluster<S, MACHINES>,
    order: Order,
    wanted: &PlainRun,
    first: usize,
) -> Result<Vec<Event>, Fail>
    requires { cluster.old.ended ≡ false }
{
    let mut chooser = Chooser::new(SEED);
    let mut round = first;
    let mut events = Vec::new(alloc);
    'events: for _ in 0..EVENTS {
        let Some(event) = next(order, &mut chooser, cluster) else {
            assert!(rt; cluster.finished());
            assert_eq!(rt; round, wanted.rounds.len());
            return Ok(events);
        };
        events.push(event)?;
        let judged = judges(cluster, &event);
        play(cluster, &event)?;
        if judged {
            check_round(
                rt,
                cluster,
                wanted.rounds.get(round).ok_or("one round more")?,
            )?;
            round = round.saturating_add(1);
        }
    }
    Err(Fail::from("no end"))
}
