ghost use Rattle.check_point.specs.Keys.{KeysTell};
ghost use Rattle.check_point.specs.Laws.{ImageReadsBack, StartIsReady, StartIsSpelled};

/// What is written of a start with which a run goes on is read as that start, a run goes on with each
/// start that is read, and the bytes are its image. It does nothing.
pub fn images_read_back()
    ensures back { ImageReadsBack }
    ensures ready { StartIsReady }
    ensures spelled { StartIsSpelled }
{}

/// What is hashed for a key tells all by which runs are told apart. It does nothing.
pub fn keys_tell()
    ensures { KeysTell }
{}
