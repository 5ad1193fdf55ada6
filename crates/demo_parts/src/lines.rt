// The three lines of the demonstration.
ghost use Rattle.array_text.specs.Writes.{Writes};
ghost use Rattle.demo_parts.specs.ShownTexts.{graph_line, rounds_line, shown_text, table_line};

use array_text::put_pieces;
use itoa::Buffer;
use outside::{Sink, SinkFault};

/// Puts how large the graph is, what its rounds came to, and the digest of the table.
pub fn write_shown<O: Sink>(
    machines: u8,
    rounds: u64,
    reads: u64,
    digest: &[u8; 32],
    out: &mut O,
) -> Result<(), SinkFault>
    ensures { Writes O.held O.faults O.spare out.old out.new
        (shown_text machines rounds reads digest.now) result }
{
    write_graph_line(machines, out)?;
    write_rounds_line(rounds, reads, out)?;
    write_table_line(digest, out)
}

fn write_graph_line<O: Sink>(machines: u8, out: &mut O) -> Result<(), SinkFault>
    ensures { Writes O.held O.faults O.spare out.old out.new (graph_line machines) result }
{
    let mut count = Buffer::new();
    let pieces = [
        b"vertices 20000 edges 200000 machines ",
        count.format(machines).as_bytes(),
        b"\n",
    ];
    put_pieces(out, &pieces)
}

fn write_rounds_line<O: Sink>(rounds: u64, reads: u64, out: &mut O) -> Result<(), SinkFault>
    ensures { Writes O.held O.faults O.spare out.old out.new (rounds_line rounds reads) result }
{
    let mut count = Buffer::new();
    let mut sources = Buffer::new();
    let pieces = [
        b"rounds ",
        count.format(rounds).as_bytes(),
        b" reads ",
        sources.format(reads).as_bytes(),
        b"\n",
    ];
    put_pieces(out, &pieces)
}

fn write_table_line<O: Sink>(digest: &[u8; 32], out: &mut O) -> Result<(), SinkFault>
    ensures { Writes O.held O.faults O.spare out.old out.new (table_line digest.now) result }
{
    let mut digits = [0u8; 64];
    let _spelled = hex::encode_to_slice(digest, &mut digits);
    let pieces = [b"table ", digits.as_slice(), b"\n"];
    put_pieces(out, &pieces)
}
