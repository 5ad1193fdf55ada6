// What callers see of links between two events.
use crate::choosing::{can_happen, nth_on_wire, nth_ready, ready_count, wire_count};
use crate::event::LinkEvent;
use crate::links::Links;
use cluster_run::Cluster;
use symple_face::Site;
use vert_base::Name;

impl<S: Site, const CAP: usize> Links<S, CAP> {
    ghost use Rattle.std.specs.Prelude.{◌≡◌, ◌≤◌, ◌↔◌, None, true, false, IfSome, length, slice_get};
    ghost use Rattle.symple_face.specs.Cluster.{finished};
    ghost use Rattle.link_core.specs.LinkChoices.{link_choices};
    ghost use Rattle.link_core.specs.LinkFaults.{link_fault_of};
    ghost use Rattle.link_core.specs.LinkRuns.{IsLinkReached};
    ghost use Rattle.link_core.specs.Links.{accepts, link_possible};

    /// The machines, and the messages that were sent and not accepted.
    pub fn cluster(&self) -> &Cluster<S, CAP>
        ensures world { result.now.world ≡ self.now.links.world }
        ensures on { self.now.ended ≡ false → result.now.ended ≡ false }
    {
        let _wire = &self.wire;
        &self.cluster
    }

    /// Whether an event is possible, and would be played.
    pub fn possible(&self, event: &LinkEvent) -> bool
        requires on { self.now.ended ≡ false }
        ensures is { result ≡ link_possible self.now.links event.now }
        ensures played { (result ≡ true) ↔ (link_fault_of self.now.links event.now ≡ None) }
    {
        self.tells_reached();
        !self.cluster.finished() && can_happen(&self.cluster, &self.wire, event)
    }

    /// Whether the next take of a name would accept: it was sent, and not accepted before.
    pub fn accepts(&self, name: &Name) -> bool
        requires { self.now.ended ≡ false }
        ensures { result ≡ accepts self.now.links name.now }
    {
        self.cluster.peek(name).is_some()
    }

    /// How many events are possible.
    pub fn choices(&self) -> u32
        requires on { self.now.ended ≡ false }
        ensures count { result ≡ length (link_choices self.now.links) }
        ensures none { (result ≡ 0) ↔ (finished self.now.links.world ≡ true) }
    {
        self.tells_reached();
        if self.cluster.finished() {
            return 0;
        }
        ready_count(&self.cluster) + wire_count(&self.wire)
    }

    /// The possible event with `k` others before it: goes by machine, then takes, loses, agains, acks and
    /// drops, each by name.
    pub fn choice(&self, k: u32) -> Option<LinkEvent>
        requires on { self.now.ended ≡ false }
        ensures is { result ≡ slice_get (link_choices self.now.links) k }
        ensures none { (result ≡ None) ↔ (length (link_choices self.now.links) ≤ k) }
        ensures played { IfSome result (λ event. link_fault_of self.now.links event ≡ None) }
    {
        self.tells_reached();
        if self.cluster.finished() {
            return None;
        }
        match nth_ready(&self.cluster, k) {
            Ok(machine) => Some(LinkEvent::Go(machine)),
            Err(left) => nth_on_wire(&self.wire, left),
        }
    }

    /// Until want of memory ends them, their state is one that possible events leave. It does nothing.
    pub fn tells_reached(&self)
        ensures { self.now.ended ≡ false → IsLinkReached S.work S.sound self.now.links }
    {
        let _wire = &self.wire;
    }
}
