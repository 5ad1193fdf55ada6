// Many machines, and one event at a time.
ghost use Rattle.symple_face.specs.State.{State, action_of};

use crate::acts::{go_site, take_site};
use crate::fault::EventFault;
use crate::looks::all_over;
use flight::Flight;
use std::marker::Model;
use symple_face::{Action, Site};
use vert_base::{Event, Message, Name};

/// The machines of a run and the messages under way. Events are played one at a time, and each that is
/// possible is a step of the definition of a world.
#[derive(Drop)]
pub struct Cluster<S: Site, const CAP: usize> {
    pub(crate) sites: Vec<S>,
    // Of each machine, whether it is ready. An event changes one machine, and so one flag.
    pub(crate) ready: Vec<bool>,
    pub(crate) flight: Flight,
    // What a machine sends, on its way into the flight; empty between events.
    pub(crate) out: Vec<Message>,
    // Want of memory has left the machines somewhere between two events.
    pub(crate) ended: bool,
}

impl<S: Site, const CAP: usize> Model for Cluster<S, CAP> {
    ghost use Rattle.std.specs.Prelude.{◌≡◌, [], false, map};
    ghost use Rattle.cluster_run.specs.Driven.{Driven, IsDriven};
    ghost use Rattle.cluster_run.specs.Ready.{flags_of};

    ghost Value = { Driven };

    ghost use Rattle.std.specs.Coded.{codes};
    ghost use Rattle.vert_tree.specs.contracts.expression.Node as node;
    ghost use Rattle.vert_tree.specs.contracts.statement.Stmt as stmt;

    ghost coded = { Prim.hlevel (codes, node.the_row.coded, stmt.the_row.coded) };

    ghost view = { λ c. record {
      world = record {
        sites = map S.state c.sites.items;
        under_way = c.flight;
      };
      ended = c.ended;
    } };

    ghost invariant = { λ c. IsDriven S.work S.sound
        (record {
          world = record { sites = map S.state c.sites.items; under_way = c.flight };
          ended = c.ended;
        }) × (c.ended ≡ false → c.out.items ≡ [])
        × (c.ended ≡ false → c.ready.items ≡ flags_of S.state c.sites.items) };
}

impl<S: Site, const CAP: usize> Cluster<S, CAP> {
    ghost use Rattle.std.specs.Prelude.{◌≡◌, ◌≢◌, ◌<◌, Some, None, Err, true, false, OnOk, IfErr};
    ghost use Rattle.symple_face.specs.Cluster.{events_left, finished, step};
    ghost use Rattle.cluster_run.specs.Driven.{Driven};
    ghost use Rattle.cluster_run.specs.Faults.{event_fault, fault_of, is_take};
    ghost use Rattle.vert_base.specs.declared.message.Event.TheVariants.{Go, Take};
    ghost use Rattle.cluster_run.specs.declared.fault.EventFault.TheVariants.{Want};

    /// Plays an event, or says why it can't be played. A `take` wants no memory.
    pub fn event(&mut self, event: &Event) -> Result<(), EventFault>
        ensures ok { OnOk result ((fault_of self.old.world event.now ≡ None)
            × (self.new ≡ record { world = step S.work self.old.world event.now; ended = false })) }
        ensures refused { IfErr result (λ fault. fault ≢ Want
            → (fault_of self.old.world event.now ≡ Some fault) × (self.new ≡ self.old)) }
        ensures want { IfErr result (λ fault. fault ≡ Want → self.new.ended ≡ true) }
        ensures ended { self.old.ended ≡ true → result ≡ Err Want }
        ensures takes { is_take event.now ≡ true → self.old.ended ≡ false → result ≢ Err Want }
        ensures nearer { OnOk result (events_left self.new.world < events_left self.old.world) }
    {
        if self.ended {
            return Err(EventFault::Want);
        }
        if self.finished() {
            return Err(EventFault::RunOver);
        }
        match event {
            Event::Go(machine) => self.go(*machine),
            Event::Take(name) => self.take(name),
        }
    }

    /// Whether every machine is over.
    pub fn finished(&self) -> bool
        ensures { result ≡ finished self.now.world }
    {
        all_over(&self.sites)
    }

    fn go(&mut self, machine: u8) -> Result<(), EventFault>
        requires on { self.old.ended ≡ false }
        ensures ok { OnOk result ((event_fault self.old.world (Go machine) ≡ None)
            × (self.new
            ≡ record { world = step S.work self.old.world (Go machine); ended = false })) }
        ensures refused { IfErr result (λ fault. fault ≢ Want
            → (event_fault self.old.world (Go machine) ≡ Some fault) × (self.new ≡ self.old)) }
        ensures want { IfErr result (λ fault. fault ≡ Want → self.new.ended ≡ true) }
        ensures nearer { OnOk result (events_left self.new.world < events_left self.old.world) }
    {
        let at = usize::from(machine);
        if at >= self.sites.len() {
            return Err(EventFault::NoMachine);
        }
        match self.sites[at].action() {
            Action::Ready => {}
            Action::Waits(name) => return Err(EventFault::Waits(name)),
            Action::Over => return Err(EventFault::MachineOver),
        }
        match go_site(
            &mut self.sites,
            &mut self.ready,
            &mut self.flight,
            &mut self.out,
            at,
        ) {
            Ok(()) => Ok(()),
            Err(_) => {
                self.ended = true;
                Err(EventFault::Want)
            }
        }
    }

    fn take(&mut self, name: &Name) -> Result<(), EventFault>
        requires on { self.old.ended ≡ false }
        ensures ok { OnOk result ((event_fault self.old.world (Take name.now) ≡ None)
            × (self.new
            ≡ record { world = step S.work self.old.world (Take name.now); ended = false })) }
        ensures refused { IfErr result (λ fault. (fault ≢ Want)
            × (event_fault self.old.world (Take name.now) ≡ Some fault) × (self.new ≡ self.old)) }
        ensures nearer { OnOk result (events_left self.new.world < events_left self.old.world) }
    {
        match self.flight.pick(name) {
            None => Err(EventFault::NotUnderWay),
            Some(message) => {
                take_site(&mut self.sites, &mut self.ready, message);
                Ok(())
            }
        }
    }
}
