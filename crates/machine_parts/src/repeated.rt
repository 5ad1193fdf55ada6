ghost use Rattle.std.specs.Prelude.{◌≡◌, replicate, IfOk};

use std::alloc::Global;
use vert_base::Want;

/// A list with one value so many times. It takes all its memory at once.
pub(crate) fn repeated<T: Copy>(alloc: Global, value: T, count: usize) -> Result<Vec<T>, Want>
    ensures { IfOk result (λ list. list.items ≡ replicate count value) }
{
    let mut list = Vec::with_capacity(alloc, count)?;
    list.resize(count, value)?;
    Ok(list)
}
