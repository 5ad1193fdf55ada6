ghost use Rattle.std.specs.Prelude.{◌≡◌, ◌≤◌, ◌<◌, ◌+◌, ◌-◌, ◌%◌, ◌↔◌, IsNone, IfSome};

use std::marker::Model;

/// The place of a machine in the ring: its number, from 0, among so many machines.
#[derive(Clone, Copy, Debug, PartialEq, Eq)]
pub struct Place<const CAP: usize> {
    machine: u8,
    machines: u8,
}

impl<const CAP: usize> Model for Place<CAP> {
    ghost use Rattle.std.specs.Prelude.{◌≤◌, ◌<◌};
    ghost use Rattle.vert_base.specs.Position.{Position};

    ghost Value = { Position };

    ghost view = { λ p. record { machine = p.machine; machines = p.machines } };

    ghost invariant = { λ p. (p.machine < p.machines) × (p.machines ≤ CAP) × (p.machines ≤ 64) };

    ghost inverse = { λ p. record { machine = p.machine; machines = p.machines } };
}

impl<const CAP: usize> Place<CAP> {
    /// Machine `m` of `p`, where there is one.
    pub fn new(m: u8, p: u8) -> Option<Place<CAP>>
        requires some { 1 ≤ p }
        requires within { p ≤ CAP }
        requires few { CAP ≤ 64 }
        ensures none { IsNone result ↔ (p ≤ m) }
        ensures machine { IfSome result (λ place. place.machine ≡ m) }
        ensures machines { IfSome result (λ place. place.machines ≡ p) }
    {
        if m < p {
            Some(Place {
                machine: m,
                machines: p,
            })
        } else {
            None
        }
    }

    /// The machine's number.
    pub fn number(&self) -> u8
        ensures number { result ≡ self.now.machine }
        ensures below { result < self.now.machines }
    {
        self.machine
    }

    /// How many machines there are.
    pub fn count(&self) -> u8
        ensures count { result ≡ self.now.machines }
        ensures some { 1 ≤ result }
        ensures within { result ≤ CAP }
        ensures few { result ≤ 64 }
    {
        self.machines
    }

    /// The machine to which the ring state goes.
    pub fn next(&self) -> Place<CAP>
        ensures machine { result.machine ≡ (self.now.machine + 1) % self.now.machines }
        ensures machines { result.machines ≡ self.now.machines }
    {
        Place {
            machine: (self.machine + 1) % self.machines,
            machines: self.machines,
        }
    }

    /// The chunk that the machine works on in a step.
    pub fn dest(&self, step: u8) -> u8
        requires { step < self.now.machines }
        ensures { result ≡ (self.now.machine + self.now.machines - 1 - step) % self.now.machines }
    {
        (self.machine + self.machines - 1 - step) % self.machines
    }
}
