// Which of the possible events over links comes next.
ghost use Rattle.std.specs.Prelude.{◌≡◌, ◌<◌, ◌≤◌, ◌^◌, ◌↔◌, IfSome, None, true, false, length, slice_get};
ghost use Rattle.symple_face.specs.Cluster.{finished};
ghost use Rattle.link_core.specs.LinkChoices.{link_choices};
ghost use Rattle.delivery_log.specs.Choosers.{behind_word, generator_of};
ghost use Rattle.link_core.specs.LinkChoosers.{NumbersFit, link_drawn};
ghost use Rattle.link_core.specs.LinkFaults.{link_fault_of};
ghost use Rattle.link_core.specs.LinkTexts.{IsLinkEvent};

use crate::event::LinkEvent;
use crate::links::Links;
use rand_core::utils::NextWord;
use rand_pcg::Lcg64Xsh32;
use std::marker::Model;
use symple_face::Site;

/// Draws each event from those that are possible over links, by the words of a generator.
#[derive(Drop)]
pub struct LinkChooser {
    generator: Lcg64Xsh32,
}

impl Model for LinkChooser {
    ghost use Rattle.rand_pcg.specs.Lcg.{Lcg};

    ghost Value = { Lcg };

    ghost view = { λ c. c.generator };
}

impl LinkChooser {
    /// The chooser of a seed.
    pub fn new(seed: u64) -> LinkChooser
        ensures { result ≡ generator_of seed }
    {
        LinkChooser {
            generator: Lcg64Xsh32::new(seed, 1),
        }
    }

    /// The possible event that the next word draws. No word is taken of a run that is finished.
    pub fn next<S: Site, const CAP: usize>(&mut self, links: &Links<S, CAP>) -> Option<LinkEvent>
        requires { links.now.ended ≡ false }
        ensures is { result ≡ link_drawn self.old links.now.links }
        ensures none { (result ≡ None) ↔ (finished links.now.links.world ≡ true) }
        ensures played { IfSome result (λ event. link_fault_of links.now.links event ≡ None) }
        ensures spelled { IfSome result IsLinkEvent }
        ensures drawn { IfSome result (λ event. self.new ≡ behind_word self.old) }
        ensures kept { result ≡ None → self.new ≡ self.old }
    {
        let choices = links.choices();
        if choices == 0 {
            return None;
        }
        let word = self.generator.next_word();
        chosen(links, word % choices)
    }
}

// A possible event, which a text can tell.
fn chosen<S: Site, const CAP: usize>(links: &Links<S, CAP>, k: u32) -> Option<LinkEvent>
    requires { links.now.ended ≡ false }
    ensures is { result ≡ slice_get (link_choices links.now.links) k }
    ensures none { (result ≡ None) ↔ (length (link_choices links.now.links) ≤ k) }
    ensures played { IfSome result (λ event. link_fault_of links.now.links event ≡ None) }
    ensures spelled { IfSome result IsLinkEvent }
{
    links.tells_reached();
    match links.choice(k) {
        None => None,
        Some(event) => {
            numbers_fit(&event);
            Some(event)
        }
    }
}

// The numbers of an event have the sizes of their types.
fn numbers_fit(event: &LinkEvent)
    ensures { NumbersFit event.now }
{
    match event {
        LinkEvent::Go(machine) => {
            let _machine = *machine;
        }
        LinkEvent::Take(name)
        | LinkEvent::Lose(name)
        | LinkEvent::Again(name)
        | LinkEvent::Ack(name)
        | LinkEvent::Drop(name) => sizes(name.round, name.step, name.half, name.from, name.to),
    }
}

fn sizes(round: u32, step: u8, half: u8, from: u8, to: u8)
    ensures round { round < 2 ^ 32 }
    ensures step { step < 256 }
    ensures half { half < 256 }
    ensures from { from < 256 }
    ensures to { to < 256 }
{}
