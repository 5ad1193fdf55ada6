// Memory that is taken once, and what is held in it.
ghost use Rattle.std.specs.Prelude.{◌≡◌, ◌+◌, ◌≤◌, [], length, IfOk};
ghost use Rattle.outside.specs.Room.{with_bytes, with_fault};

use std::alloc::Global;
use std::marker::Model;
use vert_base::Want;

#[derive(Drop)]
pub struct Held {
    list: Vec<u8>,
    room: usize,
    fault_count: u64,
}

impl Model for Held {
    ghost use Rattle.std.specs.Prelude.{◌≤◌, vec_len, vec_capacity};
    ghost use Rattle.outside.specs.Room.{Room};

    ghost Value = { Room };

    ghost view = { λ h. record { bytes = h.list.items; room = h.room; faults = h.fault_count } };

    ghost invariant = { λ h. (vec_len h.list ≤ h.room) × (h.room ≤ vec_capacity h.list) };
}

impl Held {
    pub fn new(alloc: Global, room: usize) -> Result<Held, Want>
        ensures { IfOk result (λ held. held ≡ record { bytes = []; room = room; faults = 0 }) }
    {
        match Vec::with_capacity(alloc, room) {
            Ok(list) => Ok(Held {
                list,
                room,
                fault_count: 0,
            }),
            Err(_) => Err(Want),
        }
    }

    pub fn bytes(&self) -> &[u8]
        ensures { result.now ≡ self.now.bytes }
    {
        self.list.as_slice()
    }

    pub fn room_left(&self) -> usize
        ensures { result + length self.now.bytes ≡ self.now.room }
    {
        self.room - self.list.len()
    }

    pub fn hold(&mut self, bytes: &[u8])
        requires { length self.old.bytes + length bytes.now ≤ self.old.room }
        ensures { self.new ≡ with_bytes bytes.now self.old }
    {
        match self.list.extend_from_slice(bytes) {
            Ok(()) => {}
            Err(_) => unreachable!(),
        }
    }

    pub fn fail(&mut self)
        ensures { self.new ≡ with_fault self.old }
    {
        self.fault_count = self.fault_count.saturating_add(1);
    }
}
