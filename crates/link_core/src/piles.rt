ghost use Rattle.std.specs.Prelude.{◌≡◌, ◌≤◌, ◌^◌, [], length, OnOk, OnErr, option_map, slice_get};
ghost use Rattle.link_core.specs.Piles.{ArePiles, count_of, fewer, more};

use crate::pile::{Pile, find_in};
use std::alloc::Global;
use std::marker::Model;
use vert_base::{Name, Want};

// No run comes near so many names. It keeps the number of all choices within 32 bits.
const MOST_PILES: usize = 1 << 29;

/// Things on the wire, counted by the names of messages.
#[derive(Drop)]
pub(crate) struct Piles {
    piles: Vec<Pile>,
}

impl Model for Piles {
    ghost use Rattle.std.specs.Prelude.{List, ◌≤◌, ◌^◌, length};
    ghost use Rattle.link_core.specs.declared.pile.Pile.{Pile};
    ghost use Rattle.link_core.specs.Piles.{ArePiles};

    ghost Value = { List Pile };

    ghost view = { λ p. p.piles.items };

    ghost invariant = { λ p. ArePiles p.piles.items × (length p.piles.items ≤ 2 ^ 29) };
}

impl Piles {
    /// Nothing on the wire. It takes no memory.
    pub(crate) fn new(alloc: Global) -> Piles
        ensures { result ≡ [] }
    {
        Piles {
            piles: Vec::new(alloc),
        }
    }

    /// How many there are of a name.
    pub(crate) fn count_of(&self, name: &Name) -> u8
        ensures count { result ≡ count_of name.now self.now }
        ensures order { ArePiles self.now }
    {
        match find_in(&self.piles, name) {
            Ok(at) => self.piles[at].count,
            Err(_) => 0,
        }
    }

    /// How many names there are.
    pub(crate) fn len(&self) -> u32
        ensures count { result ≡ length self.now }
        ensures few { result ≤ 2 ^ 29 }
        ensures order { ArePiles self.now }
    {
        self.piles.len() as u32
    }

    /// The name with `k` names before it.
    pub(crate) fn nth(&self, k: u32) -> Option<Name>
        ensures name { result ≡ option_map (λ p. p.name) (slice_get self.now k) }
        ensures order { ArePiles self.now }
    {
        match self.piles.get(k as usize) {
            Some(pile) => Some(pile.name),
            None => None,
        }
    }

    /// Adds one of a name, unless 255 are there.
    pub(crate) fn add(&mut self, name: &Name) -> Result<(), Want>
        ensures added { OnOk result (self.new ≡ more name.now self.old) }
        ensures kept { OnErr result (self.new ≡ self.old) }
        ensures was { ArePiles self.old }
    {
        match find_in(&self.piles, name) {
            Ok(at) => {
                let pile = self.piles[at];
                self.piles[at] = Pile {
                    name: pile.name,
                    count: pile.count.saturating_add(1),
                };
                Ok(())
            }
            Err(at) => {
                if self.piles.len() >= MOST_PILES {
                    return Err(Want);
                }
                self.piles.insert(
                    at,
                    Pile {
                        name: *name,
                        count: 1,
                    },
                )?;
                Ok(())
            }
        }
    }

    /// Takes one of a name away, where there is one.
    pub(crate) fn remove(&mut self, name: &Name)
        ensures removed { self.new ≡ fewer name.now self.old }
        ensures was { ArePiles self.old }
    {
        if let Ok(at) = find_in(&self.piles, name) {
            let pile = self.piles[at];
            if pile.count <= 1 {
                self.piles.remove(at);
            } else {
                self.piles[at] = Pile {
                    name: pile.name,
                    count: pile.count - 1,
                };
            }
        }
    }
}
