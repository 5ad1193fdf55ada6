// The messages that a machine took and still needs.
ghost use Rattle.std.specs.Prelude.{◌≡◌, ◌≤◌, [], None, IfOk, is_some, option_map};
ghost use Rattle.vert_base.specs.Letters.{found, letter_of, Ascends};
ghost use Rattle.double_buffer.specs.Taking.{CanTake};
ghost use Rattle.double_buffer.specs.Held.{AreOfRound, with_letter, without_name};

use crate::names::place_of;
use crate::places::{clear, fill, free_all, held};
use std::alloc::Global;
use std::marker::Model;
use vert_base::{Message, Name, Want};

/// A buffer place for each name that one machine can take in one round. All places are there from
/// the start, so that nothing but `make` takes memory.
#[derive(Drop)]
pub struct Slots<const CAP: usize> {
    alloc: Global,
    machines: u8,
    places: Vec<Option<Message>>,
}

impl<const CAP: usize> Model for Slots<CAP> {
    ghost use Rattle.double_buffer.specs.Held.{Held};
    ghost use Rattle.double_buffer.specs.Places.{AreSound, letters_in};

    ghost Value = { Held };

    ghost view = { λ s. record { machines = s.machines; letters = letters_in s.places.items } };

    ghost invariant = { λ s. AreSound CAP s.machines s.places.items };
}

impl<const CAP: usize> Slots<CAP> {
    /// The empty places of a machine among `p`.
    pub fn make(alloc: Global, p: u8) -> Result<Slots<CAP>, Want>
        requires some { 1 ≤ p }
        requires within { p ≤ CAP }
        requires few { CAP ≤ 64 }
        ensures { IfOk result (λ slots. slots ≡ record { machines = p; letters = [] }) }
    {
        let count = 12 * usize::from(p);
        let Ok(mut places) = Vec::with_capacity(alloc, count) else {
            return Err(Want);
        };
        for _ in 0..count {
            if places.push(None).is_err() {
                return Err(Want);
            }
        }
        Ok(Slots {
            alloc,
            machines: p,
            places,
        })
    }

    /// Whether a message of exactly this name is held.
    pub fn has(&self, name: &Name) -> bool
        ensures has { result ≡ is_some (found name.now self.now.letters) }
        ensures order { Ascends self.now.letters }
    {
        held(&self.places, place_of(self.machines, name), name).is_some()
    }

    /// Puts a message into its place.
    pub fn put(&mut self, msg: Message)
        requires one { CanTake self.old.machines msg.name }
        requires fresh { found msg.name self.old.letters ≡ None }
        requires together { AreOfRound msg.name.round msg.name.to self.old.letters }
        ensures { self.new ≡ with_letter (letter_of msg) self.old }
    {
        let at = place_of(self.machines, &msg.name);
        fill(&mut self.places, at, msg);
    }

    /// Takes the body of a name out, and frees its place.
    pub fn lift(&mut self, name: &Name) -> Option<Vec<u8>>
        ensures body { option_map (λ body. body.items) result
            ≡ option_map (λ y. y.body) (found name.now self.old.letters) }
        ensures rest { self.new ≡ without_name name.now self.old }
    {
        let at = place_of(self.machines, name);
        clear(&mut self.places, at, name).map(|message| message.body)
    }

    /// Lets go of all that is held. It takes no memory.
    pub fn clear(&mut self)
        ensures { self.new ≡ record self.old { letters = [] } }
    {
        free_all(&mut self.places);
    }

    /// The body of a name, where it is held.
    pub fn peek(&self, name: &Name) -> Option<&[u8]>
        ensures { option_map (λ body. body.now) result
            ≡ option_map (λ y. y.body) (found name.now self.now.letters) }
    {
        match held(&self.places, place_of(self.machines, name), name) {
            Some(message) => Some(&message.body),
            None => None,
        }
    }

    /// Holds a name with an empty body, so that it counts as taken.
    pub fn mark(&mut self, name: &Name)
        requires one { CanTake self.old.machines name.now }
        requires fresh { found name.now self.old.letters ≡ None }
        requires together { AreOfRound name.now.round name.now.to self.old.letters }
        ensures { self.new ≡ with_letter (record { name = name.now; body = [] }) self.old }
    {
        let body = Vec::new(self.alloc);
        self.put(Message { name: *name, body });
    }
}
