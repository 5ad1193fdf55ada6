ghost use Rattle.round_laws.specs.DenseClose.{ClosesDense};
ghost use Rattle.round_laws.specs.DenseRound.{RoundByMachines};
ghost use Rattle.round_laws.specs.FoldBegins.{BeginsDense, BeginsSparse, SendsPushes};
ghost use Rattle.round_laws.specs.FoldCloses.{ClosesAndGoesOn, ClosesToJudge, DenseReadsAreIdeal, SparseReadsAreIdeal};
ghost use Rattle.round_laws.specs.FoldJudge.{JudgesAndGoesOn};
ghost use Rattle.round_laws.specs.FoldScan.{ScansAndGoesOn};
ghost use Rattle.round_laws.specs.FoldPushes.{TakesPushesAtOnce, TakesPushesEarly};
ghost use Rattle.round_laws.specs.FoldTakes.{TakesWhatIsKept};
ghost use Rattle.round_laws.specs.FoldTells.{TellsAndGoesOn};
ghost use Rattle.round_laws.specs.FoldUpdates.{TakesUpdates};
ghost use Rattle.round_laws.specs.FoldVerdicts.{TakesVerdicts};
ghost use Rattle.round_laws.specs.IdealClose.{DenseRowsAreIdeal, SparseRowsAreIdeal};
ghost use Rattle.round_laws.specs.IdealScans.{FreshScansAreIdeal, ScansAreIdeal};
ghost use Rattle.round_laws.specs.Judging.{CountsAreIdeal, JudgesAsTheSource};
ghost use Rattle.round_laws.specs.Lets.{LetsByMachines};
ghost use Rattle.round_laws.specs.MachineScans.{MachineScansAreIdeal};
ghost use Rattle.round_laws.specs.Partials.{FillsSent};
ghost use Rattle.round_laws.specs.ReadsCounted.{ReadsAreCounted};
ghost use Rattle.round_laws.specs.Scans.{ScansAfresh, ScansTheRing};
ghost use Rattle.round_laws.specs.Seen.{EnvironmentsAreSeen, LoopsAreSeen};
ghost use Rattle.round_laws.specs.Sent.{BeginSendsIdeal, CloseSendsIdeal, JudgeSendsIdeal, ScanSendsIdeal, TellSendsIdeal};
ghost use Rattle.round_laws.specs.Sights.{OwnAreSeen, OwnScansAreSeen, ToldScansAreSeen};
ghost use Rattle.round_laws.specs.SparseClose.{ClosesSparse};
ghost use Rattle.round_laws.specs.Steps.{BeginsAfresh, ComesByMachines, GrowsByMachines};
ghost use Rattle.round_laws.specs.Tallies.{TalliesAreSummed};

/// The law that what the machines of a chunk do at a vertex, step by step, is its whole loop. It does nothing.
pub fn ring_comes_round()
    ensures grows { GrowsByMachines }
    ensures machines { ComesByMachines }
    ensures afresh { BeginsAfresh }
{}

/// The law of the lets at the end of a loop by machines. It does nothing.
pub fn lets_at_the_end()
    ensures { LetsByMachines }
{}

/// The law of a dense round at a vertex by machines. It does nothing.
pub fn dense_rounds()
    ensures { RoundByMachines }
{}

/// The law that where a machine sees the source's rows and degrees its environments and loops are the source's. It
/// does nothing.
pub fn sights_agree()
    ensures environments { EnvironmentsAreSeen }
    ensures loops { LoopsAreSeen }
{}

/// The law that a scan at a vertex does what the machine of the step does by the source. It does nothing.
pub fn scans_by_the_source()
    ensures ring { ScansTheRing }
    ensures afresh { ScansAfresh }
    ensures ideal { ScansAreIdeal }
    ensures fresh { FreshScansAreIdeal }
{}

/// The law of the partials to which the words of a step are added. It does nothing.
pub fn partials_by_steps()
    ensures { FillsSent }
{}

/// The law that the close of a dense round makes the source's rows. It does nothing.
pub fn dense_closes()
    ensures { ClosesDense }
{}

/// The law that the close of a sparse round makes the source's rows. It does nothing.
pub fn sparse_closes()
    ensures { ClosesSparse }
{}

/// The law that the tallies of a round come to the counts and totals of all vertices. It does nothing.
pub fn tallies_are_summed()
    ensures { TalliesAreSummed }
{}

/// The law that a machine sees the source's rows and degrees, in its own chunk and where it was told of another. It
/// does nothing.
pub fn machines_see_the_source()
    ensures own { OwnAreSeen }
    ensures here { OwnScansAreSeen }
    ensures told { ToldScansAreSeen }
{}

/// The law that a machine that takes an ideal body still holds what the source's run says. It does nothing.
pub fn takes_are_ideal()
    ensures kept { TakesWhatIsKept }
    ensures updates { TakesUpdates }
    ensures verdicts { TakesVerdicts }
    ensures pushes { TakesPushesAtOnce }
    ensures early { TakesPushesEarly }
{}

/// The law that the rows that a close makes of what the source's run says are the source's. It does nothing.
pub fn closes_are_ideal()
    ensures dense { DenseRowsAreIdeal }
    ensures sparse { SparseRowsAreIdeal }
{}

/// The law that a machine's scan of a half hands on, sends and reads what the source's run says. It does nothing.
pub fn machines_scan_ideally()
    ensures { MachineScansAreIdeal }
{}

/// The law that a machine's counts and totals of ideal contents are its ideal tally, and that a judge rules as the
/// source. It does nothing.
pub fn judges_rule_as_the_source()
    ensures counts { CountsAreIdeal }
    ensures ruling { JudgesAsTheSource }
{}

/// The law that a machine that closes a round still holds what the source's run says. It does nothing.
pub fn closes_go_on()
    ensures begin { ClosesAndGoesOn }
    ensures judge { ClosesToJudge }
    ensures dense { DenseReadsAreIdeal }
    ensures sparse { SparseReadsAreIdeal }
{}

/// The law that a machine that has told its first rows still holds what the source's run says. It does nothing.
pub fn tells_go_on()
    ensures { TellsAndGoesOn }
{}

/// The law that a machine that scans a half of a chunk still holds what the source's run says. It does nothing.
pub fn scans_go_on()
    ensures { ScansAndGoesOn }
{}

/// The law that machine 0, when it judges a round, still holds what the source's run says. It does nothing.
pub fn judge_goes_on()
    ensures { JudgesAndGoesOn }
{}

/// The law that the messages that a machine sends have the bodies that the source's run says. It does nothing.
pub fn sends_are_ideal()
    ensures tell { TellSendsIdeal }
    ensures judge { JudgeSendsIdeal }
    ensures begin { BeginSendsIdeal }
    ensures scan { ScanSendsIdeal }
    ensures close { CloseSendsIdeal }
{}

/// The law that what all machines read in a round is what the source's run reads in it. It does nothing.
pub fn reads_are_counted()
    ensures { ReadsAreCounted }
{}

/// The law that a machine that begins a round still holds what the source's run says, and that the pushes which it
/// sends at the begin of a sparse one are ideal. It does nothing.
pub fn begins_go_on()
    ensures dense { BeginsDense }
    ensures sparse { BeginsSparse }
    ensures pushes { SendsPushes }
{}
