// A source in memory.
ghost use Rattle.std.specs.Prelude.{◌≡◌, ◌++◌, length, drop, Some, Ok, Err, if◌then◌else◌};
ghost use Rattle.outside.specs.Calls.{next_fails, called, one_more};
ghost use Rattle.outside.specs.Pieces.{joined, first_bytes, without_first, contents};

use crate::calls::Calls;
use crate::pieces::Unread;
use crate::source::{Source, SourceFault};
use std::marker::Model;

/// A source whose takes fail at the numbers that it was given, from 1. Else each gives at most the
/// rest of one piece.
#[derive(Drop)]
pub struct MemSource {
    unread: Unread,
    calls: Calls,
    fault_count: u64,
}

impl Model for MemSource {
    ghost use Rattle.outside.specs.Pieces.{Pieces};

    ghost Value = { Pieces };

    ghost view = { λ s. record { pieces = s.unread; calls = s.calls; faults = s.fault_count } };
}

impl MemSource {
    pub fn new(pieces: Vec<Vec<u8>>, fails: Vec<u64>) -> MemSource
        ensures { result ≡ record {
          pieces = contents pieces.items;
          calls = record { fails = fails.items; count = 0 };
          faults = 0;
        } }
    {
        MemSource {
            unread: Unread::new(pieces),
            calls: Calls::new(fails),
            fault_count: 0,
        }
    }
}

impl Source for MemSource {
    ghost left = { λ source. Some (joined source.pieces) };

    ghost faults = { λ source. source.faults };

    fn take(&mut self, into: &mut [u8]) -> Result<usize, SourceFault>
        ensures answer { result ≡ (if next_fails self.old.calls then Err (record {})
            else Ok (length (first_bytes (length into.old) self.old.pieces))) }
        ensures into { into.new ≡ (if next_fails self.old.calls then into.old
            else first_bytes (length into.old) self.old.pieces
            ++ drop (length (first_bytes (length into.old) self.old.pieces)) into.old) }
        ensures pieces { self.new.pieces
            ≡ (if next_fails self.old.calls then self.old.pieces
            else without_first (length into.old) self.old.pieces) }
        ensures calls { self.new.calls ≡ called self.old.calls }
        ensures faults { self.new.faults
            ≡ (if next_fails self.old.calls then one_more self.old.faults else self.old.faults) }
    {
        if self.calls.next_fails() {
            self.fault_count = self.fault_count.saturating_add(1);
            return Err(SourceFault);
        }
        Ok(self.unread.give(into))
    }
}
