ghost use Rattle.std.specs.Prelude.{◌≡◌};
ghost use Rattle.array_text.specs.Rounds.{round_text, ruling_text};
ghost use Rattle.array_text.specs.Writes.{Writes};

use crate::put::put_pieces;
use itoa::Buffer;
use symple_face::{Report, Sink, SinkFault};
use vert_base::Ruling;

/// Puts the line of a round.
pub fn write_round<O: Sink>(report: &Report, out: &mut O) -> Result<(), SinkFault>
    ensures { Writes O.held O.faults O.spare out.old out.new
        (round_text report.now.round report.now.ruling report.now.active report.now.edges
        report.now.reads) result }
{
    let mut round = Buffer::new();
    let mut active = Buffer::new();
    let mut edges = Buffer::new();
    let mut reads = Buffer::new();
    let pieces = [
        b"round ",
        round.format(report.round).as_bytes(),
        b" ",
        mode_word(report.ruling),
        b" ",
        active.format(report.active).as_bytes(),
        b" ",
        edges.format(report.edges).as_bytes(),
        b" ",
        reads.format(report.reads).as_bytes(),
        b"\n",
    ];
    put_pieces(out, &pieces)
}

fn mode_word(ruling: Ruling) -> &'static [u8]
    ensures { result.now ≡ ruling_text ruling }
{
    match ruling {
        Ruling::Stop => b"stop",
        Ruling::Dense => b"dense",
        Ruling::Sparse => b"sparse",
    }
}
