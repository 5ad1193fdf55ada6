/// Whether a program's rows depend on the order in which neighbours are read.
///
/// In the first four answers they don't: there is no loop, the loop only combines what it reads, it
/// ends at the first neighbour that passes a test, or it ends once enough neighbours passed one.
#[derive(Clone, Copy, Debug, PartialEq, Eq)]
pub enum Freedom {
    NoLoop,
    Reductions,
    FoundOne,
    ReachACount,
    FirstSlot(u8),
    OtherLoop,
}
