ghost use Rattle.plain_run.specs.Laws.{RunsByTable};

/// The law of runs over tables, which its clause says. It does nothing.
pub fn runs_by_table()
    ensures { RunsByTable }
{}
