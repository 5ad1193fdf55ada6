// Sinks in memory.
ghost use Rattle.std.specs.Prelude.{◌≡◌, ◌-◌, [], length, take, Some, Ok, Err, IfOk, ◌&&◌, not, nat_lt, ◌==◌, if◌then◌else◌};
ghost use Rattle.outside.specs.Calls.{next_fails, called};
ghost use Rattle.outside.specs.Room.{fits, with_bytes, with_fault};

use crate::calls::Calls;
use crate::room::Held;
use crate::sink::{Sink, SinkFault};
use std::alloc::Global;
use std::marker::Model;
use vert_base::Want;

/// A sink that takes each piece whole while there is room, and fails past it.
#[derive(Drop)]
pub struct FirmSink {
    held: Held,
}

impl Model for FirmSink {
    ghost use Rattle.outside.specs.Room.{Room};

    ghost Value = { Room };

    ghost view = { λ sink. sink.held };
}

impl FirmSink {
    /// Takes the memory for all of its room.
    pub fn new(alloc: Global, room: usize) -> Result<FirmSink, Want>
        ensures { IfOk result (λ sink. sink ≡ record { bytes = []; room = room; faults = 0 }) }
    {
        Ok(FirmSink {
            held: Held::new(alloc, room)?,
        })
    }

    /// The bytes held.
    pub fn bytes(&self) -> &[u8]
        ensures { result.now ≡ self.now.bytes }
    {
        self.held.bytes()
    }
}

impl Sink for FirmSink {
    ghost held = { λ sink. Some sink.bytes };

    ghost faults = { λ sink. sink.faults };

    ghost spare = { λ sink. sink.room - length sink.bytes };

    fn put(&mut self, bytes: &[u8]) -> Result<usize, SinkFault>
        ensures answer { result ≡ (if fits self.old bytes.now then Ok (length bytes.now)
            else Err (record {})) }
        ensures state { self.new ≡ (if fits self.old bytes.now then with_bytes bytes.now self.old
            else with_fault self.old) }
    {
        if bytes.len() <= self.held.room_left() {
            self.held.hold(bytes);
            Ok(bytes.len())
        } else {
            self.held.fail();
            Err(SinkFault)
        }
    }
}

/// A sink that takes one byte of each piece while there is room, and fails past it.
#[derive(Drop)]
pub struct DripSink {
    held: Held,
}

impl Model for DripSink {
    ghost use Rattle.outside.specs.Room.{Room};

    ghost Value = { Room };

    ghost view = { λ sink. sink.held };
}

impl DripSink {
    /// Takes the memory for all of its room.
    pub fn new(alloc: Global, room: usize) -> Result<DripSink, Want>
        ensures { IfOk result (λ sink. sink ≡ record { bytes = []; room = room; faults = 0 }) }
    {
        Ok(DripSink {
            held: Held::new(alloc, room)?,
        })
    }

    /// The bytes held.
    pub fn bytes(&self) -> &[u8]
        ensures { result.now ≡ self.now.bytes }
    {
        self.held.bytes()
    }
}

impl Sink for DripSink {
    ghost held = { λ sink. Some sink.bytes };

    ghost faults = { λ sink. sink.faults };

    ghost spare = { λ sink. sink.room - length sink.bytes };

    fn put(&mut self, bytes: &[u8]) -> Result<usize, SinkFault>
        ensures answer { result ≡ (if fits self.old (take 1 bytes.now)
            then Ok (length (take 1 bytes.now)) else Err (record {})) }
        ensures state { self.new ≡ (if fits self.old (take 1 bytes.now)
            then with_bytes (take 1 bytes.now) self.old else with_fault self.old) }
    {
        let drop = &bytes[..bytes.len().min(1)];
        if drop.len() <= self.held.room_left() {
            self.held.hold(drop);
            Ok(drop.len())
        } else {
            self.held.fail();
            Err(SinkFault)
        }
    }
}

/// A sink whose puts fail at the numbers that it was given, from 1, and past its room. Else it takes
/// each piece whole.
#[derive(Drop)]
pub struct MemSink {
    held: Held,
    calls: Calls,
}

impl Model for MemSink {
    ghost use Rattle.outside.specs.Room.{Counted};

    ghost Value = { Counted };

    ghost view = { λ sink. record { held = sink.held; calls = sink.calls } };
}

impl MemSink {
    /// Takes the memory for all of its room.
    pub fn new(alloc: Global, room: usize, fails: Vec<u64>) -> Result<MemSink, Want>
        ensures { IfOk result (λ sink.
            sink ≡ record {
              held = record { bytes = []; room = room; faults = 0 };
              calls = record { fails = fails.items; count = 0 };
            }) }
    {
        Ok(MemSink {
            held: Held::new(alloc, room)?,
            calls: Calls::new(fails),
        })
    }

    /// The bytes held.
    pub fn bytes(&self) -> &[u8]
        ensures { result.now ≡ self.now.held.bytes }
    {
        self.held.bytes()
    }
}

impl Sink for MemSink {
    ghost held = { λ sink. Some sink.held.bytes };

    ghost faults = { λ sink. sink.held.faults };

    fn put(&mut self, bytes: &[u8]) -> Result<usize, SinkFault>
        ensures answer { result ≡ (if not (next_fails self.old.calls)
            && fits self.old.held bytes.now then Ok (length bytes.now) else Err (record {})) }
        ensures held { self.new.held
            ≡ (if not (next_fails self.old.calls) && fits self.old.held bytes.now
            then with_bytes bytes.now self.old.held else with_fault self.old.held) }
        ensures calls { self.new.calls ≡ called self.old.calls }
    {
        let fails = self.calls.next_fails();
        if !fails && bytes.len() <= self.held.room_left() {
            self.held.hold(bytes);
            Ok(bytes.len())
        } else {
            self.held.fail();
            Err(SinkFault)
        }
    }
}
