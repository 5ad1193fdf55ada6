//! The law of the printer: a printed program reads again as the same program.
#![tactic(auto)]

ghost use Rattle.print_law.specs.Law.{PrinterLaw};

/// Names the law, and does nothing.
pub fn printing()
    ensures { PrinterLaw }
{}
