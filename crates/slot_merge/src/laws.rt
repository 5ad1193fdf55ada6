ghost use Rattle.slot_merge.specs.Filled.{BeginsEmpty, FillsEmissions, FillsMore, HasValue};
ghost use Rattle.slot_merge.specs.Laws.{AddedInAnyOrder, MergedIsJoined, MergedEitherWay, MergedInAnyOrder};

/// The laws of partials, which its clauses say. It does nothing.
pub fn merging()
    ensures added { AddedInAnyOrder }
    ensures joined { MergedIsJoined }
    ensures either_way { MergedEitherWay }
    ensures any_order { MergedInAnyOrder }
{}

/// The laws of partials by their buckets, the words under each key: what begins empty, what a word
/// and emissions add, and that the value is that of the buckets by ascending key, in whatever order
/// the keys came. It does nothing.
pub fn filling()
    ensures begins { BeginsEmpty }
    ensures more { FillsMore }
    ensures emissions { FillsEmissions }
    ensures value { HasValue }
{}
