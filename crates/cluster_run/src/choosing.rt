// The events that are possible, in the order of choices.
ghost use Rattle.std.specs.Prelude.{◌≡◌, ◌≤◌, length, slice_get};
ghost use Rattle.symple_face.specs.Cluster.{choices_of, possible};
ghost use Rattle.cluster_run.specs.Driven.{world_of};
ghost use Rattle.cluster_run.specs.Faults.{lacking};
ghost use Rattle.cluster_run.specs.Ready.{flags_of};

use crate::fault::Missing;
use crate::looks::{can_go, count_set, nth_set};
use flight::Flight;
use symple_face::Site;
use vert_base::Event;

/// Whether an event is possible.
pub(crate) fn can_play<S: Site>(sites: &[S], ready: &[bool], flight: &Flight, event: &Event) -> bool
    requires flags { ready.now ≡ flags_of S.state sites.now }
    ensures { result ≡ possible (world_of S.state sites.now flight.now) event.now }
{
    match event {
        Event::Go(machine) => can_go(sites, ready, *machine),
        Event::Take(name) => flight.peek(name).is_some(),
    }
}

/// How many events are possible.
pub(crate) fn choice_count<S: Site>(sites: &[S], ready: &[bool], flight: &Flight) -> u32
    requires few { length sites.now ≤ 64 }
    requires flags { ready.now ≡ flags_of S.state sites.now }
    ensures { result ≡ length (choices_of (world_of S.state sites.now flight.now)) }
{
    count_set(ready) + flight.count()
}

/// The possible event with `k` others before it.
pub(crate) fn nth_choice<S: Site>(
    sites: &[S],
    ready: &[bool],
    flight: &Flight,
    k: u32,
) -> Option<Event>
    requires few { length sites.now ≤ 64 }
    requires flags { ready.now ≡ flags_of S.state sites.now }
    ensures { result ≡ slice_get (choices_of (world_of S.state sites.now flight.now)) k }
{
    match nth_set(ready, k) {
        Ok(machine) => Some(Event::Go(machine)),
        Err(left) => match flight.nth(left) {
            Some(name) => Some(Event::Take(name)),
            None => None,
        },
    }
}

/// The least message under way, or where there is none the least machine that is ready.
pub(crate) fn first_missing<S: Site>(
    sites: &[S],
    ready: &[bool],
    flight: &Flight,
) -> Option<Missing>
    requires few { length sites.now ≤ 64 }
    requires flags { ready.now ≡ flags_of S.state sites.now }
    ensures { result ≡ lacking (world_of S.state sites.now flight.now) }
{
    match flight.first() {
        Some(name) => Some(Missing::Taken(name)),
        None => match nth_set(ready, 0) {
            Ok(machine) => Some(Missing::Gone(machine)),
            Err(_) => None,
        },
    }
}
