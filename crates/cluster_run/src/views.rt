// What callers see of the machines, of the messages under way, and of the events that may come next.
ghost use Rattle.vert_base.specs.Letters.{found, letter_of};
ghost use Rattle.symple_face.specs.Cluster.{choices_of, finished, possible};
ghost use Rattle.cluster_run.specs.Driven.{IsReached};
ghost use Rattle.cluster_run.specs.Faults.{fault_of, lacking};

use crate::choosing::{can_play, choice_count, first_missing, nth_choice};
use crate::cluster::Cluster;
use crate::fault::Missing;
use symple_face::Site;
use vert_base::{Event, Message, Name};

impl<S: Site, const CAP: usize> Cluster<S, CAP> {
    ghost use Rattle.std.specs.Prelude.{◌≡◌, ◌<◌, ◌≤◌, ◌↔◌, Some, None, true, false, IfSome, length, option_copied, option_map, slice_get};

    /// How many machines there are.
    pub fn machines(&self) -> u8
        ensures count { result ≡ length self.now.world.sites }
        ensures few { result ≤ 64 }
        ensures some { self.now.ended ≡ false → 1 ≤ result }
    {
        self.sites.len() as u8
    }

    /// A machine, by its number.
    pub fn site(&self, machine: u8) -> &S
        requires { machine < length self.now.world.sites }
        ensures { slice_get self.now.world.sites machine ≡ Some (S.state result.now) }
    {
        &self.sites[usize::from(machine)]
    }

    /// The message of a name that is under way.
    pub fn peek(&self, name: &Name) -> Option<&Message>
        ensures { option_map letter_of (option_copied result)
            ≡ found name.now self.now.world.under_way }
    {
        self.flight.peek(name)
    }

    /// Whether an event is possible, and would be played.
    pub fn possible(&self, event: &Event) -> bool
        requires on { self.now.ended ≡ false }
        ensures is { result ≡ possible self.now.world event.now }
        ensures played { (result ≡ true) ↔ (fault_of self.now.world event.now ≡ None) }
    {
        can_play(&self.sites, &self.ready, &self.flight, event)
    }

    /// How many events are possible.
    pub fn choices(&self) -> u32
        requires on { self.now.ended ≡ false }
        ensures count { result ≡ length (choices_of self.now.world) }
        ensures none { (result ≡ 0) ↔ (finished self.now.world ≡ true) }
    {
        choice_count(&self.sites, &self.ready, &self.flight)
    }

    /// The possible event with `k` others before it: goes by machine, then takes by name.
    pub fn choice(&self, k: u32) -> Option<Event>
        requires on { self.now.ended ≡ false }
        ensures is { result ≡ slice_get (choices_of self.now.world) k }
        ensures none { (result ≡ None) ↔ (length (choices_of self.now.world) ≤ k) }
        ensures first { k ≡ 0 → (result ≡ None) ↔ (finished self.now.world ≡ true) }
        ensures played { IfSome result (λ event. fault_of self.now.world event ≡ None) }
    {
        nth_choice(&self.sites, &self.ready, &self.flight, k)
    }

    /// What the run lacks: the least message under way, or where there is none the least machine that is
    /// ready.
    pub fn missing(&self) -> Option<Missing>
        requires on { self.now.ended ≡ false }
        ensures is { result ≡ lacking self.now.world }
        ensures none { (result ≡ None) ↔ (finished self.now.world ≡ true) }
    {
        first_missing(&self.sites, &self.ready, &self.flight)
    }

    /// Until want of memory ends it, its world is one that possible events leave. It does nothing.
    pub fn tells_reached(&self)
        ensures { self.now.ended ≡ false → IsReached S.work S.sound self.now.world }
    {
        let _sites = &self.sites;
    }
}
