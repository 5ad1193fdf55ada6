// Messages into a sink.
ghost use Rattle.std.specs.Prelude.{map};
ghost use Rattle.std.specs.List.{All};
ghost use Rattle.vert_base.specs.Letters.{letter_of};
ghost use Rattle.dep_message.specs.Laws.{AreBytes};
ghost use Rattle.worker_stream.specs.Sent.{IsShort, Sends, spelled_letter, spelled_letters};

use array_text::put_all;
use dep_message::encode;
use outside::Sink;
use std::alloc::Global;
use vert_base::Message;

/// Why messages weren't all written: a put failed, or memory wanted.
#[derive(Clone, Copy, Debug, PartialEq, Eq)]
pub(crate) enum SendFault {
    Sink,
    Want,
}

// The numbers of bytes are below 256.
fn are_bytes(bytes: &[u8])
    ensures { AreBytes bytes.now }
{
    let _count = bytes.len();
}

// Writes the spelling of a message.
fn put_message<O: Sink>(alloc: Global, out: &mut O, msg: &Message) -> Result<(), SendFault>
    requires { IsShort (letter_of msg.now) }
    ensures { Sends O.held O.faults O.spare out.old out.new
        (spelled_letter (letter_of msg.now)) result }
{
    are_bytes(&msg.body);
    let bytes = match encode(alloc, msg) {
        Ok(bytes) => bytes,
        Err(_) => return Err(SendFault::Want),
    };
    match put_all(out, &bytes) {
        Ok(()) => Ok(()),
        Err(_) => Err(SendFault::Sink),
    }
}

/// Writes the spellings of messages, one after another.
pub(crate) fn put_messages<O: Sink>(
    alloc: Global,
    out: &mut O,
    messages: &[Message],
) -> Result<(), SendFault>
    requires { All (λ msg. IsShort (letter_of msg)) messages.now }
    ensures { Sends O.held O.faults O.spare out.old out.new
        (spelled_letters (map letter_of messages.now)) result }
{
    for msg in messages {
        match put_message(alloc, out, msg) {
            Ok(()) => {}
            Err(fault) => return Err(fault),
        }
    }
    Ok(())
}
