ghost use Rattle.std.specs.Prelude.{◌≡◌, ◌<◌, ◌^◌, ℕ, None, Some, IfErr, IfOk, OnOk, List, length};
ghost use Rattle.vert_base.specs.declared.message.Name.{Name};
ghost use Rattle.dep_message.specs.declared.fault.MessageFault.{MessageFault};
ghost use Rattle.vert_base.specs.HeaderBytes.{HasSpelling, is_proper, spelled_message};
ghost use Rattle.dep_message.specs.Messages.{forms_of, header_in, refusal_of, refusal_of_named};

use crate::fault::MessageFault;
use crate::fitting::fits;
use crate::header::{HEADER, Header, push_header};
use std::alloc::Global;
use symple_face::Part;
use vert_base::{Message, Name, NameKind, Want};

/// The spelling of a message: its header and its body.
pub fn encode(alloc: Global, msg: &Message) -> Result<Vec<u8>, Want>
    requires { length msg.now.body.items < 2 ^ 32 }
    ensures { IfOk result (λ bytes. bytes.items ≡ spelled_message msg.now.name msg.now.body.items) }
{
    let mut bytes = Vec::new(alloc);
    push_header(&mut bytes, &msg.name, msg.body.len() as u32)?;
    bytes.extend_from_slice(&msg.body)?;
    Ok(bytes)
}

/// The message that bytes spell, all of the bytes, at a machine that sends or takes it.
pub fn decode(alloc: Global, bytes: &[u8], part: &Part) -> Result<Message, MessageFault>
    ensures spelled { IfOk result (λ msg. spelled_message msg.name msg.body.items ≡ bytes.now) }
    ensures only { IfOk result (λ msg. (x : Name) (body : List ℕ) → HasSpelling x body →
        spelled_message x body ≡ bytes.now → (x ≡ msg.name) × (body ≡ msg.body.items)) }
    ensures fits { IfOk result (λ msg.
        refusal_of_named (forms_of part.now) (Some msg.name) msg.body.items ≡ None) }

    // A fault is the first one, and comes before memory is asked for. Bytes without a fault are refused for want alone.
    ensures refused { (fault : MessageFault) → refusal_of (forms_of part.now) bytes.now
        ≡ Some fault → result ≡ Err fault }
    ensures accepted { refusal_of (forms_of part.now) bytes.now ≡ None →
        IfErr result (λ fault. fault ≡ MessageFault.Want) }
{
    match judged(bytes, part) {
        Err(fault) => Err(fault),
        Ok(name) => match Vec::from_slice(alloc, &bytes[HEADER..]) {
            Ok(body) => Ok(Message { name, body }),
            Err(_) => Err(MessageFault::Want),
        },
    }
}

// The name of the message that bytes spell, or their first fault.
fn judged(bytes: &[u8], part: &Part) -> Result<Name, MessageFault>
    ensures name { IfOk result (λ x. (header_in bytes.now).name ≡ Some x) }
    ensures accepted { OnOk result (refusal_of (forms_of part.now) bytes.now ≡ None) }
    ensures refused { IfErr result (λ fault.
        refusal_of (forms_of part.now) bytes.now ≡ Some fault) }
{
    if bytes.len() < HEADER {
        return Err(MessageFault::Short);
    }
    let header = Header::read(bytes);
    if HEADER + header.size as usize != bytes.len() {
        return Err(MessageFault::Short);
    }
    match header.name {
        None => Err(MessageFault::Kind),
        Some(name) => match fault_of(&name, &bytes[HEADER..], part) {
            None => Ok(name),
            Some(fault) => Err(fault),
        },
    }
}

// The first fault of a message with this name and body.
fn fault_of(name: &Name, body: &[u8], part: &Part) -> Option<MessageFault>
    ensures { result ≡ refusal_of_named (forms_of part.now) (Some name.now) body.now }
{
    if !is_proper(name) {
        return Some(MessageFault::NotPlanned);
    }
    match part.shape(name) {
        None => Some(MessageFault::NotPlanned),
        Some(shape) if fits(&shape, body) => None,
        Some(_) => Some(MessageFault::Body),
    }
}

/// Whether the step and half are 0 where the kind has none.
pub fn is_proper(name: &Name) -> bool
    ensures { result ≡ is_proper name.now }
{
    matches!(name.kind, NameKind::Dep | NameKind::Update) || name.step == 0 && name.half == 0
}
