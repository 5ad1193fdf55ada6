// Where bytes go.
ghost use Rattle.std.specs.Prelude.{◌≡◌, ℕ, ◌+◌, ◌-◌, ◌<◌, ◌≤◌, List, length, take, Option, IfOk, OnOk, OnErr};
ghost use Rattle.outside.specs.Causes.{Rose};
ghost use Rattle.outside.specs.Bytes.{gained};

/// A put that failed. Nothing of its piece was taken.
#[derive(Clone, Copy, Debug, PartialEq, Eq)]
pub struct SinkFault;

/// Where bytes go, in pieces. A loop over `put` ends: each put takes a byte or more, or fails.
pub trait Sink {
    // the bytes that it holds, where it tells them
    ghost held: { Self → Option (List ℕ) };

    // how many puts failed
    ghost faults: { Self → ℕ };

    // so many bytes more it is sure to take; 0 where it promises nothing
    ghost spare: { Self → ℕ } = { λ _. 0 };

    /// Takes a prefix of the piece and answers its length.
    fn put(&mut self, bytes: &[u8]) -> Result<usize, SinkFault>
        ensures held { IfOk result (λ n. held self.new ≡ gained (held self.old) (take n bytes.now)) }
        ensures within { IfOk result (λ n. n ≤ length bytes.now) }
        ensures some { IfOk result (λ n. 0 < length bytes.now → 0 < n) }
        ensures counted { OnOk result (faults self.new ≡ faults self.old) }
        ensures nothing { OnErr result (held self.new ≡ held self.old) }
        ensures failed { OnErr result (Rose (faults self.old) (faults self.new)) }
        ensures later { faults self.old ≤ faults self.new }
        // A put fails only at a piece longer than what the sink is sure to take.
        ensures sure { OnErr result (spare self.old ≤ length bytes.now - 1) }
        ensures spared { IfOk result (λ n. spare self.old ≤ spare self.new + n) }
        ensures still_spared { OnErr result (spare self.old ≤ spare self.new) };
}
