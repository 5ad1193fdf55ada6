ghost use Rattle.std.specs.Prelude.{◌≡◌, ◌<◌, ◌^◌, ◌++◌, IfSome, Some, codes, length, option_copied, option_map};
ghost use Rattle.vert_base.specs.declared.message.Event.TheVariants.{Go, Take};
ghost use Rattle.vert_base.specs.HeaderBytes.{code_of, spelled_header};
ghost use Rattle.vert_base.specs.Letters.{letter_of};
ghost use Rattle.vert_base.specs.NameTexts.{name_text};
ghost use Rattle.array_text.specs.Events.{event_line, event_text, message_text};
ghost use Rattle.array_text.specs.Writes.{Writes};

use crate::digits::put_hex;
use crate::put::{put_all, put_pieces};
use itoa::Buffer;
use symple_face::{Sink, SinkFault};
use vert_base::{Event, Message, Name, NameKind};

/// Puts the line of an event played, with the bytes of the message where one is given.
pub fn write_event<O: Sink>(
    event: &Event,
    taken: Option<&Message>,
    out: &mut O,
) -> Result<(), SinkFault>
    requires { IfSome taken (λ message. length message.now.body.items < 2 ^ 32) }
    ensures { Writes O.held O.faults O.spare out.old out.new
        (event_line event.now (option_map letter_of (option_copied taken.entry))) result }
{
    put_event(event, out)?;
    put_end(taken, out)
}

fn put_event<O: Sink>(event: &Event, out: &mut O) -> Result<(), SinkFault>
    ensures { Writes O.held O.faults O.spare out.old out.new (event_text event.now) result }
{
    match event {
        Event::Go(machine) => put_go(*machine, out),
        Event::Take(name) => put_take(name, out),
    }
}

// Puts the message that an event takes, and ends the line.
fn put_end<O: Sink>(taken: Option<&Message>, out: &mut O) -> Result<(), SinkFault>
    requires { IfSome taken (λ message. length message.now.body.items < 2 ^ 32) }
    ensures { Writes O.held O.faults O.spare out.old out.new
        (message_text (option_map letter_of (option_copied taken.entry)) ++ codes "\n") result }
{
    match taken {
        None => put_all(out, b"\n"),
        Some(message) => put_message(message, out),
    }
}

fn put_go<O: Sink>(machine: u8, out: &mut O) -> Result<(), SinkFault>
    ensures { Writes O.held O.faults O.spare out.old out.new (event_text (Go machine)) result }
{
    let mut number = Buffer::new();
    put_pieces(out, &[b"go ", number.format(machine).as_bytes()])
}

fn put_take<O: Sink>(name: &Name, out: &mut O) -> Result<(), SinkFault>
    ensures { Writes O.held O.faults O.spare out.old out.new (event_text (Take name.now)) result }
{
    put_all(out, b"take ")?;
    write_name(name, out)
}

/// Puts the whole name of a message.
pub fn write_name<O: Sink>(name: &Name, out: &mut O) -> Result<(), SinkFault>
    ensures { Writes O.held O.faults O.spare out.old out.new (name_text name.now) result }
{
    let mut round = Buffer::new();
    let mut from = Buffer::new();
    let mut to = Buffer::new();
    let word = name.kind.word();
    let round = round.format(name.round).as_bytes();
    let from = from.format(name.from).as_bytes();
    let to = to.format(name.to).as_bytes();
    if !name.kind.has_steps() {
        return put_pieces(out, &[word, b" ", round, b" ", from, b" ", to]);
    }
    let mut step = Buffer::new();
    let mut half = Buffer::new();
    let step = step.format(name.step).as_bytes();
    let half = half.format(name.half).as_bytes();
    let pieces = [
        word, b" ", round, b" ", step, b" ", half, b" ", from, b" ", to,
    ];
    put_pieces(out, &pieces)
}

// Puts the bytes of a message after a space, and ends the line.
fn put_message<O: Sink>(message: &Message, out: &mut O) -> Result<(), SinkFault>
    requires { length message.now.body.items < 2 ^ 32 }
    ensures { Writes O.held O.faults O.spare out.old out.new
        (message_text (Some (letter_of message.now)) ++ codes "\n") result }
{
    let body = message.body.as_slice();
    let header = header_of(&message.name, body.len() as u32);
    put_all(out, b" ")?;
    put_hex(&header, out)?;
    put_hex(body, out)?;
    put_all(out, b"\n")
}

// The header of a message whose body has this length.
#[tactic(auto, unfolding(vert_base::specs::HeaderBytes::four_bytes))]
fn header_of(name: &Name, size: u32) -> [u8; 13]
    ensures { result ≡ spelled_header name.now size }
{
    let round = name.round.to_le_bytes();
    let size = size.to_le_bytes();
    [
        code_of(name.kind),
        round[0],
        round[1],
        round[2],
        round[3],
        name.step,
        name.half,
        name.from,
        name.to,
        size[0],
        size[1],
        size[2],
        size[3],
    ]
}

fn code_of(kind: NameKind) -> u8
    ensures { result ≡ code_of kind }
{
    match kind {
        NameKind::Refresh => 1,
        NameKind::Dep => 2,
        NameKind::Update => 3,
        NameKind::Push => 4,
        NameKind::Tally => 5,
        NameKind::Verdict => 6,
    }
}
