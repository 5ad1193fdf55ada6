// Where bytes come from.
ghost use Rattle.std.specs.Prelude.{◌≡◌, ℕ, ◌<◌, ◌≤◌, List, [], length, take, drop, Option, Some, Ok, IfOk, OnOk, OnErr};
ghost use Rattle.outside.specs.Causes.{Rose};
ghost use Rattle.outside.specs.Bytes.{led_by};

/// A take that failed. Nothing was taken.
#[derive(Clone, Copy, Debug, PartialEq, Eq)]
pub struct SourceFault;

/// Where bytes come from, in pieces. A loop over `take` ends where the bytes left are finite, if it
/// stops at 0.
pub trait Source {
    // the bytes left, where it tells them
    ghost left: { Self → Option (List ℕ) };

    // how many takes failed
    ghost faults: { Self → ℕ };

    /// Writes the first bytes left at the front of `into` and answers their number.
    fn take(&mut self, into: &mut [u8]) -> Result<usize, SourceFault>
        ensures left { IfOk result (λ n. left self.old ≡ led_by (take n into.new) (left self.new)) }
        ensures within { IfOk result (λ n. n ≤ length into.old) }
        ensures rest { IfOk result (λ n. drop n into.new ≡ drop n into.old) }
        // 0 is answered only at the end, or for an empty slice.
        ensures end { result ≡ Ok 0 → 0 < length into.old → (bytes : List ℕ) →
            left self.old ≡ Some bytes → bytes ≡ [] }
        ensures counted { OnOk result (faults self.new ≡ faults self.old) }
        ensures nothing { OnErr result (left self.new ≡ left self.old) }
        ensures failed { OnErr result (Rose (faults self.old) (faults self.new)) }
        ensures later { faults self.old ≤ faults self.new };
}
