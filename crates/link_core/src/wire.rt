// What lies on the wire, and the messages that can be sent again.
ghost use Rattle.std.specs.Prelude.{◌≡◌, ◌≤◌, false, OnOk};
ghost use Rattle.vert_base.specs.declared.message.Name.{Name};
ghost use Rattle.vert_base.specs.Names.{same_name};
ghost use Rattle.link_core.specs.Piles.{count_of};
ghost use Rattle.link_core.specs.Traffic.{acknowledged, can_repeat, dropped, lost, no_traffic, repeated, sent, taken};
ghost use Rattle.link_core.specs.Wires.{Carries, IsRight, IsSettled, traffic_of};

use crate::piles::Piles;
use std::alloc::Global;
use vert_base::{Name, Want};

// The most copies of a message.
const MOST_COPIES: u8 = 255;

/// The copies and the acknowledgements on the wire, and the messages that senders keep.
#[derive(Drop)]
pub(crate) struct Wire {
    pub(crate) copies: Piles,
    pub(crate) acks: Piles,
    pub(crate) kept: Piles,
    // Those kept that have room for one more copy, so that the k-th of them is found at once.
    pub(crate) repeatable: Piles,
}

// Puts a name among the repeatable ones, or takes it out, where it doesn't stand right.
fn settle(wire: &mut Wire, name: &Name) -> Result<(), Want>
    requires others { (x : Name) → same_name name.now x ≡ false → IsRight wire.old x }
    requires once { count_of name.now wire.old.repeatable ≤ 1 }
    ensures settled { OnOk result (Carries wire.new (traffic_of wire.old)) }
{
    let can = can_repeat(wire, name);
    let is = wire.repeatable.count_of(name) > 0;
    if can && !is {
        return wire.repeatable.add(name);
    }
    if is && !can {
        wire.repeatable.remove(name);
    }
    Ok(())
}

// Whether a message can be sent again, as its counts tell.
fn can_repeat(wire: &Wire, name: &Name) -> bool
    ensures { result ≡ can_repeat (traffic_of wire.now) name.now }
{
    wire.kept.count_of(name) >= 1 && wire.copies.count_of(name) < MOST_COPIES
}

impl Wire {
    /// Nothing was sent. It takes no memory.
    pub(crate) fn new(alloc: Global) -> Wire
        ensures { Carries result no_traffic }
    {
        Wire {
            copies: Piles::new(alloc),
            acks: Piles::new(alloc),
            kept: Piles::new(alloc),
            repeatable: Piles::new(alloc),
        }
    }

    /// Sends a message as one copy. After want of memory all may be, here and below.
    pub(crate) fn send(&mut self, name: &Name) -> Result<(), Want>
        requires { IsSettled self.old }
        ensures { OnOk result (Carries self.new (sent name.now (traffic_of self.old))) }
    {
        self.copies.add(name)?;
        self.kept.add(name)?;
        settle(self, name)
    }

    /// Takes a copy, and sends an acknowledgement.
    pub(crate) fn take(&mut self, name: &Name) -> Result<(), Want>
        requires { IsSettled self.old }
        ensures { OnOk result (Carries self.new (taken name.now (traffic_of self.old))) }
    {
        self.copies.remove(name);
        self.acks.add(name)?;
        settle(self, name)
    }

    /// Loses a copy.
    pub(crate) fn lose(&mut self, name: &Name) -> Result<(), Want>
        requires { IsSettled self.old }
        ensures { OnOk result (Carries self.new (lost name.now (traffic_of self.old))) }
    {
        self.copies.remove(name);
        settle(self, name)
    }

    /// Sends one more copy of a message.
    pub(crate) fn repeat(&mut self, name: &Name) -> Result<(), Want>
        requires { IsSettled self.old }
        ensures { OnOk result (Carries self.new (repeated name.now (traffic_of self.old))) }
    {
        self.copies.add(name)?;
        settle(self, name)
    }

    /// Takes an acknowledgement: the message needn't be kept.
    pub(crate) fn acknowledge(&mut self, name: &Name) -> Result<(), Want>
        requires { IsSettled self.old }
        ensures { OnOk result (Carries self.new (acknowledged name.now (traffic_of self.old))) }
    {
        self.acks.remove(name);
        self.kept.remove(name);
        settle(self, name)
    }

    /// Loses an acknowledgement.
    pub(crate) fn drop_one(&mut self, name: &Name)
        requires { IsSettled self.old }
        ensures { Carries self.new (dropped name.now (traffic_of self.old)) }
    {
        self.acks.remove(name);
    }
}
