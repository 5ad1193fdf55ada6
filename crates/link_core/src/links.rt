// Many machines, whose links lose and repeat, and one event at a time.
use crate::event::LinkEvent;
use crate::fault::{LinkFault, is_want};
use crate::playing::play;
use crate::wire::Wire;
use cluster_run::{Cluster, EventFault};
use std::alloc::Global;
use std::marker::Model;
use symple_face::{Part, Site};

/// The machines of a run and the links between them, which lose and repeat messages. Events are played one
/// at a time, and each that is possible is a step of the definition of links.
#[derive(Drop)]
pub struct Links<S: Site, const CAP: usize> {
    // It holds the messages that were sent and not accepted, with their bodies.
    pub(crate) cluster: Cluster<S, CAP>,
    pub(crate) wire: Wire,
    // Want of memory has left them somewhere between two events.
    pub(crate) ended: bool,
}

impl<S: Site, const CAP: usize> Model for Links<S, CAP> {
    ghost use Rattle.std.specs.Prelude.{◌≡◌, false};
    ghost use Rattle.link_core.specs.LinkRuns.{AreDriven, DrivenLinks, linked_of};

    ghost Value = { DrivenLinks };

    ghost use Rattle.std.specs.Coded.{codes};
    ghost use Rattle.vert_tree.specs.contracts.expression.Node as node;
    ghost use Rattle.vert_tree.specs.contracts.statement.Stmt as stmt;

    ghost coded = { Prim.hlevel (codes, node.the_row.coded, stmt.the_row.coded) };

    ghost view = { λ l. record { links = linked_of l.cluster.world l.wire; ended = l.ended } };

    ghost invariant = { λ l. l.ended ≡ false → AreDriven S.work S.sound l.cluster l.wire };
}

impl<S: Site, const CAP: usize> Links<S, CAP> {
    ghost use Rattle.std.specs.Prelude.{◌≡◌, ◌≢◌, ◌≤◌, Some, None, Err, true, false, IfErr, IfOk, OnOk, map, vec_len};
    ghost use Rattle.std.specs.List.{All};
    ghost use Rattle.instrument.specs.declared.split.Split.{Split};
    ghost use Rattle.symple_face.specs.Cluster.{IsOneRun, first_world};
    ghost use Rattle.symple_face.specs.PartViews.{plain_of};
    ghost use Rattle.cluster_run.specs.declared.fault.EventFault.TheVariants as event_fault;
    ghost use Rattle.link_core.specs.declared.fault.LinkFault.TheVariants.{Plain, Want};
    ghost use Rattle.link_core.specs.LinkFaults.{link_fault_of};
    ghost use Rattle.link_core.specs.Links.{link_step, linked_anew};

    /// The machines of the parts of one run, in order, before their first events.
    pub fn start(alloc: Global, parts: Vec<Part>) -> Result<Self, vert_base::Want>
        requires few { vec_len parts ≤ CAP }
        requires one_run { IsOneRun (map plain_of parts.items) }
        requires one_split { (split : Split) × All (λ part. part.split.value ≡ split) parts.items }
        ensures { (split : Split) → All (λ part. part.split.value ≡ split) parts.items
            → IfOk result (λ links. links ≡ record {
              links = linked_anew (first_world S.work split (map plain_of parts.items));
              ended = false;
            }) }
    {
        let cluster = Cluster::start(alloc, parts)?;
        cluster.tells_reached();
        Ok(Links {
            cluster,
            wire: Wire::new(alloc),
            ended: false,
        })
    }

    /// Plays an event, or says why it can't be played.
    pub fn event(&mut self, event: &LinkEvent) -> Result<(), LinkFault>
        ensures ok { OnOk result ((link_fault_of self.old.links event.now ≡ None)
            × (self.new
            ≡ record { links = link_step S.work self.old.links event.now; ended = false })) }
        ensures refused { IfErr result (λ fault. fault ≢ Want
            → (link_fault_of self.old.links event.now ≡ Some fault) × (self.new ≡ self.old)) }
        ensures plain { result ≢ Err (Plain event_fault.Want) }
        ensures want { IfErr result (λ fault. fault ≡ Want → self.new.ended ≡ true) }
        ensures ended { self.old.ended ≡ true → result ≡ Err Want }
    {
        if self.ended {
            return Err(LinkFault::Want);
        }
        if self.cluster.finished() {
            return Err(LinkFault::Plain(EventFault::RunOver));
        }
        match play(&mut self.cluster, &mut self.wire, event) {
            Ok(()) => Ok(()),
            Err(fault) => {
                self.ended = is_want(&fault);
                Err(fault)
            }
        }
    }
}
