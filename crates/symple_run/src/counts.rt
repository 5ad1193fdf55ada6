ghost use Rattle.outside.specs.Causes.{Rose};

/// A count of faults after one more, which stays at the greatest number.
pub(crate) fn one_more(faults: u64) -> u64
    ensures { Rose faults result }
{
    faults.saturating_add(1)
}
