// Which of the possible events comes next.
ghost use Rattle.std.specs.Prelude.{◌≡◌, ◌<◌, ◌≤◌, ◌^◌, ◌↔◌, IfSome, None, true, false, length, slice_get};
ghost use Rattle.symple_face.specs.Cluster.{choices_of, finished, plain_of};
ghost use Rattle.cluster_run.specs.Faults.{fault_of};
ghost use Rattle.delivery_log.specs.Choosers.{NumbersFit, behind_word, drawn_of, generator_of};
ghost use Rattle.delivery_log.specs.ScheduleTexts.{IsEvent};

use cluster_run::{Cluster, choices_are_in_order, worlds_are_in_order};
use rand_core::utils::NextWord;
use rand_pcg::Lcg64Xsh32;
use std::marker::Model;
use symple_face::Site;
use vert_base::Event;

/// The first possible event: a machine goes before a message is taken.
pub fn plain<S: Site, const CAP: usize>(cluster: &Cluster<S, CAP>) -> Option<Event>
    requires { cluster.now.ended ≡ false }
    ensures is { result ≡ plain_of cluster.now.world }
    ensures none { (result ≡ None) ↔ (finished cluster.now.world ≡ true) }
    ensures played { IfSome result (λ event. fault_of cluster.now.world event ≡ None) }
    ensures spelled { IfSome result IsEvent }
{
    chosen(cluster, 0)
}

// A possible event, which a text can tell.
fn chosen<S: Site, const CAP: usize>(cluster: &Cluster<S, CAP>, k: u32) -> Option<Event>
    requires { cluster.now.ended ≡ false }
    ensures is { result ≡ slice_get (choices_of cluster.now.world) k }
    ensures none { (result ≡ None) ↔ (length (choices_of cluster.now.world) ≤ k) }
    ensures first { k ≡ 0 → (result ≡ None) ↔ (finished cluster.now.world ≡ true) }
    ensures played { IfSome result (λ event. fault_of cluster.now.world event ≡ None) }
    ensures spelled { IfSome result IsEvent }
{
    cluster.tells_reached();
    worlds_are_in_order::<S>();
    choices_are_in_order::<S>();
    match cluster.choice(k) {
        None => None,
        Some(event) => {
            numbers_fit(&event);
            Some(event)
        }
    }
}

// The numbers of an event have the sizes of their types.
fn numbers_fit(event: &Event)
    ensures { NumbersFit event.now }
{
    match event {
        Event::Go(machine) => {
            let _machine = *machine;
        }
        Event::Take(name) => sizes(name.round, name.step, name.half, name.from, name.to),
    }
}

fn sizes(round: u32, step: u8, half: u8, from: u8, to: u8)
    ensures round { round < 2 ^ 32 }
    ensures step { step < 256 }
    ensures half { half < 256 }
    ensures from { from < 256 }
    ensures to { to < 256 }
{}

/// Draws each event from the possible ones, by the words of a generator.
#[derive(Drop)]
pub struct Chooser {
    generator: Lcg64Xsh32,
}

impl Model for Chooser {
    ghost use Rattle.rand_pcg.specs.Lcg.{Lcg};

    ghost Value = { Lcg };

    ghost view = { λ c. c.generator };
}

impl Chooser {
    /// The chooser of a seed.
    pub fn new(seed: u64) -> Chooser
        ensures { result ≡ generator_of seed }
    {
        Chooser {
            generator: Lcg64Xsh32::new(seed, 1),
        }
    }

    /// The possible event that the next word draws. No word is taken of a run that is finished.
    pub fn next<S: Site, const CAP: usize>(&mut self, cluster: &Cluster<S, CAP>) -> Option<Event>
        requires { cluster.now.ended ≡ false }
        ensures is { result ≡ drawn_of self.old cluster.now.world }
        ensures none { (result ≡ None) ↔ (finished cluster.now.world ≡ true) }
        ensures played { IfSome result (λ event. fault_of cluster.now.world event ≡ None) }
        ensures spelled { IfSome result IsEvent }
        ensures drawn { IfSome result (λ event. self.new ≡ behind_word self.old) }
        ensures kept { result ≡ None → self.new ≡ self.old }
    {
        let choices = cluster.choices();
        if choices == 0 {
            return None;
        }
        let word = self.generator.next_word();
        chosen(cluster, word % choices)
    }
}
