// A text in memory.
ghost use Rattle.std.specs.Prelude.{◌≡◌, ◌++◌, [], length, Some, IfOk, OnErr, take};
ghost use Rattle.outside.specs.Causes.{Rose};
ghost use Rattle.demo_parts.specs.Sinks.{emptied};

use outside::{Sink, SinkFault};
use std::alloc::Global;
use std::marker::Model;

/// A sink that grows with what it takes, and is emptied for the next text. It fails where memory is
/// wanting.
#[derive(Drop)]
pub struct TextSink {
    list: Vec<u8>,
    fault_count: u64,
}

impl Model for TextSink {
    ghost use Rattle.demo_parts.specs.Sinks.{HeldText};

    ghost Value = { HeldText };

    ghost view = { λ sink. record { bytes = sink.list.items; faults = sink.fault_count } };
}

impl TextSink {
    pub fn new(alloc: Global) -> TextSink
        ensures { result ≡ record { bytes = []; faults = 0 } }
    {
        TextSink {
            list: Vec::new(alloc),
            fault_count: 0,
        }
    }

    /// The bytes held.
    pub fn bytes(&self) -> &[u8]
        ensures { result.now ≡ self.now.bytes }
    {
        self.list.as_slice()
    }

    /// Gives up what is held, and keeps its memory.
    pub fn clear(&mut self)
        ensures { self.new ≡ emptied self.old }
    {
        self.list.clear();
    }
}

impl Sink for TextSink {
    ghost held = { λ sink. Some sink.bytes };

    ghost faults = { λ sink. sink.faults };

    fn put(&mut self, bytes: &[u8]) -> Result<usize, SinkFault> {
        match self.list.extend_from_slice(bytes) {
            Ok(()) => Ok(bytes.len()),
            Err(_) => {
                self.fault_count = self.fault_count.saturating_add(1);
                Err(SinkFault)
            }
        }
    }
}
