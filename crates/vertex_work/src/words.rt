ghost use Rattle.std.specs.Prelude.{◌≡◌, ◌≤◌, length};

use arrayvec::ArrayVec;

/// Writes words into a list, in the place of what it held.
pub fn copy_words<const N: usize>(from: &[i64], into: &mut ArrayVec<i64, N>)
    requires { length from.now ≤ N }
    ensures { into.new.items ≡ from.now }
{
    into.clear();
    into.try_extend_from_slice(from).unwrap();
}
