// Messages in the order of their names.
ghost use Rattle.std.specs.Prelude.{◌≡◌, [], ◌<◌, ◌^◌, length, None, IfErr, OnOk, OnErr, option_map, option_copied, slice_get};
ghost use Rattle.vert_base.specs.Letters.{found, letter_of, placed, without};
ghost use Rattle.flight.specs.Order.{IsInOrder};

use crate::entries::Entry;
use crate::messages::{add, look, take};
use slab::Slab;
use std::alloc::Global;
use std::collections::VecDeque;
use std::marker::Model;
use vert_base::{Message, Name, Want};

/// The messages that were sent and not yet picked, each found by its name. A message stays where it
/// was put; only the short entries of the index move, and of these the fewer of those before and of
/// those behind it.
#[derive(Drop)]
pub struct Flight {
    messages: Slab<Message>,
    entries: VecDeque<Entry>,
}

impl Model for Flight {
    ghost use Rattle.std.specs.Prelude.{List};
    ghost use Rattle.vert_base.specs.Letters.{Letter};
    ghost use Rattle.flight.specs.Entries.{IsSound, letters_by};

    ghost Value = { List Letter };

    ghost view = { λ f. letters_by f.messages f.entries.items };

    ghost invariant = { λ f. IsSound f.messages f.entries.items };
}

impl Flight {
    /// Nothing under way. It takes no memory.
    pub fn new(alloc: Global) -> Flight
        ensures { result ≡ [] }
    {
        Flight {
            messages: Slab::new(alloc),
            entries: VecDeque::new(alloc),
        }
    }

    /// Puts a message among those under way. Without the memory for it, it comes back.
    pub fn send(&mut self, msg: Message) -> Result<(), (Message, Want)>
        requires fresh { found msg.name self.old ≡ None }
        requires room { length self.old < 2 ^ 31 }
        ensures sent { OnOk result (self.new ≡ placed (letter_of msg) self.old) }
        ensures kept { OnErr result (self.new ≡ self.old) }
        ensures back { IfErr result (λ failed. failed.0 ≡ msg) }
    {
        add(&mut self.messages, &mut self.entries, msg)
    }

    /// Takes the message of a name out. It takes no memory.
    pub fn pick(&mut self, name: &Name) -> Option<Message>
        ensures message { option_map letter_of result ≡ found name.now self.old }
        ensures rest { self.new ≡ without name.now self.old }
    {
        take(&mut self.messages, &mut self.entries, name)
    }

    /// The message of a name, where it stands.
    pub fn peek(&self, name: &Name) -> Option<&Message>
        ensures { option_map letter_of (option_copied result) ≡ found name.now self.now }
    {
        look(&self.messages, &self.entries, name)
    }

    /// The least name under way.
    pub fn first(&self) -> Option<Name>
        ensures name { result ≡ option_map (λ y. y.name) (slice_get self.now 0) }
        ensures order { IsInOrder self.now }
    {
        self.nth(0)
    }

    /// The name with `k` names before it.
    pub fn nth(&self, k: u32) -> Option<Name>
        ensures name { result ≡ option_map (λ y. y.name) (slice_get self.now k) }
        ensures order { IsInOrder self.now }
    {
        match self.entries.get(k as usize) {
            Some(entry) => Some(entry.name),
            None => None,
        }
    }

    /// How many messages are under way.
    pub fn count(&self) -> u32
        ensures count { result ≡ length self.now }
        ensures order { IsInOrder self.now }
    {
        self.entries.len() as u32
    }
}
