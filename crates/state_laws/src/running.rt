// What reading a part tells of its machine.
ghost use Rattle.std.specs.List.{All};
ghost use Rattle.std.specs.Prelude.{◌≡◌, ◌<◌, ◌^◌};
ghost use Rattle.symple_face.specs.Lawful.{AreCounts, CanRun};
ghost use Rattle.symple_face.specs.PartViews.{plain_of};

use instrument::Split;
use symple_face::{Degree, Part};
use word_kinds::{edges_have_weights, literals_are_words};

// How many edges lead into a vertex, which fits 32 bits.
fn ins_of(degree: &Degree) -> u32
    ensures is { result ≡ degree.now.ins }
    ensures fits { degree.now.ins < 2 ^ 32 }
{
    degree.ins
}

// How many edges lead out of a vertex, which fits 32 bits.
fn outs_of(degree: &Degree) -> u32
    ensures is { result ≡ degree.now.outs }
    ensures fits { degree.now.outs < 2 ^ 32 }
{
    degree.outs
}

// Both degrees of a vertex fit 32 bits.
fn counts_fit(degree: &Degree)
    ensures { AreCounts degree.now }
{
    let _ins = ins_of(degree);
    let _outs = outs_of(degree);
}

/// Each degree of a list fits 32 bits. It reads each one, and does no more.
pub fn degrees_are_counts(degrees: &[Degree])
    ensures { All AreCounts degrees.now }
{
    for degree in degrees {
        counts_fit(degree);
    }
}

/// Reading a part tells that its machine can run.
pub fn tells_can_run(part: &Part)
    ensures { CanRun (plain_of part.now) part.now.split.value }
{
    let split: &Split = &part.split;
    literals_are_words(&split.program);
    edges_have_weights(&part.scan);
    edges_have_weights(&part.push);
    degrees_are_counts(&part.degrees);
    let _ends = part.cuts.ends();
    let _machine = part.at.number();
}
