ghost use Rattle.std.specs.Prelude.{◌++◌, codes};
ghost use Rattle.array_text.specs.Tables.{row_text, word_text, words_text};
ghost use Rattle.array_text.specs.Writes.{Writes};

use crate::put::{put_all, put_pieces};
use instrument::Split;
use itoa::Buffer;
use symple_face::{Sink, SinkFault};
use vert_base::{Row, ValueType, VertexId};
use vert_tree::Decl;

/// Puts the line of a vertex: its id and the words of its fields.
pub fn write_row<O: Sink>(
    split: &Split,
    v: VertexId,
    row: &Row,
    out: &mut O,
) -> Result<(), SinkFault>
    ensures { Writes O.held O.faults O.spare out.old out.new
        (row_text split.now.program.program v.0 row.now) result }
{
    let mut id = Buffer::new();
    put_all(out, id.format(v.0).as_bytes())?;
    put_words(
        split.program.program.fields.as_slice(),
        row.words.as_slice(),
        out,
    )?;
    put_all(out, b"\n")
}

fn put_words<O: Sink>(fields: &[Decl], words: &[i64], out: &mut O) -> Result<(), SinkFault>
    ensures { Writes O.held O.faults O.spare out.old out.new (words_text fields.now words.now)
        result }
{
    let Some(field) = fields.first() else {
        return Ok(());
    };
    let Some(word) = words.first() else {
        return Ok(());
    };
    put_word(field.kind, *word, out)?;
    put_words(&fields[1..], &words[1..], out)
}

fn put_word<O: Sink>(kind: ValueType, word: i64, out: &mut O) -> Result<(), SinkFault>
    ensures { Writes O.held O.faults O.spare out.old out.new (codes " " ++ word_text kind word)
        result }
{
    match kind {
        ValueType::Int => {
            let mut digits = Buffer::new();
            put_pieces(out, &[b" ", digits.format(word).as_bytes()])
        }
        ValueType::Bool if word == 0 => put_all(out, b" false"),
        ValueType::Bool => put_all(out, b" true"),
    }
}
