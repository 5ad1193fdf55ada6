ghost use Rattle.std.specs.Prelude.{◌≡◌, ◌<◌, ◌^◌};
ghost use Rattle.body_shape.specs.Fit.{are_rows};

use dep_layout::are_typed;

/// Whether bytes are so many rows of so many words, of which those are Bools that must be.
pub(crate) fn are_rows(bytes: &[u8], count: usize, words: usize, bools: u32) -> bool
    requires count { count < 2 ^ 32 }
    requires words { words < 256 }
    ensures { result ≡ are_rows count words bools bytes.now }
{
    bytes.len() == 8 * words * count && are_typed(bytes, count, words, bools)
}
