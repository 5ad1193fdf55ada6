ghost use Rattle.body_shape.specs.Bytes.{FewPlaces, PushExample, PushIsBytes, RefreshIsBytes, TallyIsBytes, UpdateExample, UpdateIsBytes, VerdictIsBytes};
ghost use Rattle.body_shape.specs.Missing.{PushMissing, RefreshMissing, TallyMissing, UpdateMissing, VerdictMissing};
ghost use Rattle.body_shape.specs.Push.{PushFits, PushInPlace, PushIsSpelled, PushReadsBack, PushSuits};
ghost use Rattle.body_shape.specs.Refresh.{FormIsFlagged, RefreshFits, RefreshGrows, RefreshInPlace, RefreshIsSpelled, RefreshReadsBack, RefreshSuits};
ghost use Rattle.body_shape.specs.Tally.{TallyFits, TallyIsSpelled, TallyReadsBack, TallySuits};
ghost use Rattle.body_shape.specs.Update.{UpdateFits, UpdateIsSpelled, UpdateReadsBack, UpdateSuits};
ghost use Rattle.body_shape.specs.Verdict.{VerdictFits, VerdictIsSpelled, VerdictReadsBack, VerdictSuits};

/// The laws of refreshes, which its clauses say. It does nothing.
pub fn refresh_reads_back()
    ensures back { RefreshReadsBack }
    ensures placed { RefreshInPlace }
    ensures grows { RefreshGrows }
    ensures flagged { FormIsFlagged }
    ensures fits { RefreshFits }
    ensures suits { RefreshSuits }
    ensures spelled { RefreshIsSpelled }
{}

/// The laws of updates, which its clauses say. It does nothing.
pub fn update_reads_back()
    ensures back { UpdateReadsBack }
    ensures fits { UpdateFits }
    ensures suits { UpdateSuits }
    ensures spelled { UpdateIsSpelled }
{}

/// The laws of pushes, which its clauses say. It does nothing.
pub fn push_reads_back()
    ensures back { PushReadsBack }
    ensures placed { PushInPlace }
    ensures fits { PushFits }
    ensures suits { PushSuits }
    ensures spelled { PushIsSpelled }
{}

/// The laws of tallies, which its clauses say. It does nothing.
pub fn tally_reads_back()
    ensures back { TallyReadsBack }
    ensures fits { TallyFits }
    ensures suits { TallySuits }
    ensures spelled { TallyIsSpelled }
{}

/// The laws of verdicts, which its clauses say. It does nothing.
pub fn verdict_reads_back()
    ensures back { VerdictReadsBack }
    ensures fits { VerdictFits }
    ensures suits { VerdictSuits }
    ensures spelled { VerdictIsSpelled }
{}

/// The laws of what a body without bytes is read as, which its clauses say. It does nothing.
pub fn missing_bodies()
    ensures refresh { RefreshMissing }
    ensures update { UpdateMissing }
    ensures push { PushMissing }
    ensures tally { TallyMissing }
    ensures verdict { VerdictMissing }
{}

/// The law that what is spelled is bytes, which its clauses say, and two examples. It does nothing.
pub fn spelled_bytes()
    ensures refresh { RefreshIsBytes }
    ensures update { UpdateIsBytes }
    ensures push { PushIsBytes }
    ensures tally { TallyIsBytes }
    ensures verdict { VerdictIsBytes }
    ensures few { FewPlaces }
    ensures updated { UpdateExample }
    ensures pushed { PushExample }
{}
