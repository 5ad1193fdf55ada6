// Messages from a source of bytes.
ghost use Rattle.std.specs.Prelude.{◌≡◌, ◌≢◌, ◌≤◌, ◌<◌, [], ℕ, List, length, min, take, Some, Err, IfErr, IfOk, OnOk, OnErr};
ghost use Rattle.outside.specs.Bytes.{led_by};
ghost use Rattle.outside.specs.Causes.{Rose};
ghost use Rattle.dep_message.specs.Messages.{forms_of};
ghost use Rattle.worker_stream.specs.Fronts.{ReadsBody, ReadsHeader, ReadsMessage, Wrong, front_with_body, front_with_name, read_with_name, told};

use dep_message::{HEADER, Header, fits, is_proper};
use outside::{Source, SourceFault};
use std::alloc::Global;
use symple_face::{BodyShape, Part};
use vert_base::{Message, Name};

/// Why no message was read: no byte was left, the message has the fault M1 to M4 of this number, a take
/// failed, or memory wanted.
#[derive(Clone, Copy, Debug, PartialEq, Eq)]
pub(crate) enum ReadFault {
    Ended,
    Faulty(u8),
    Source,
    Want,
}

/// Takes bytes until they fill the buffer or none is left, and answers their number.
pub(crate) fn fill<I: Source>(input: &mut I, into: &mut [u8]) -> Result<usize, SourceFault>
    ensures within { IfOk result (λ n. n ≤ length into.old) }
    ensures taken { IfOk result (λ n.
        I.left input.old ≡ led_by (take n into.new) (I.left input.new)) }
    ensures whole { IfOk result (λ n. n < length into.old → told (I.left input.new) ≡ []) }
    ensures counted { OnOk result (I.faults input.new ≡ I.faults input.old) }
    ensures lost { OnErr result ((front : List ℕ) × (length front ≤ length into.old)
        × (I.left input.old ≡ led_by front (I.left input.new))) }
    ensures failed { OnErr result (Rose (I.faults input.old) (I.faults input.new)) }
{
    let mut count = 0;
    while count < into.len() {
        let more = input.take(&mut into[count..])?;
        if more == 0 {
            return Ok(count);
        }
        count += more;
    }
    Ok(count)
}

// The form of a message with this name and length, or its fault: M3, and M4 where the length passes the
// longest of the form.
fn form_of(name: &Name, size: u32, part: &Part) -> Result<BodyShape, u8>
    ensures form { (bytes : List ℕ) → IfOk result (λ shape.
        front_with_name (forms_of part.now) (Some name.now) size bytes
        ≡ front_with_body name.now shape size bytes) }
    ensures read { (left : ℕ) → IfOk result (λ _.
        read_with_name (forms_of part.now) (Some name.now) size left ≡ min size left) }
    ensures fault { (bytes : List ℕ) → IfErr result (λ code.
        front_with_name (forms_of part.now) (Some name.now) size bytes ≡ Wrong code) }
    ensures unread { (left : ℕ) → OnErr result
        (read_with_name (forms_of part.now) (Some name.now) size left ≡ 0) }
{
    if !is_proper(name) {
        return Err(3);
    }
    match part.shape(name) {
        None => Err(3),
        Some(shape) => {
            if u64::from(size) > shape.longest() {
                Err(4)
            } else {
                Ok(shape)
            }
        }
    }
}

// The header at the front of the input.
fn read_header<I: Source>(input: &mut I) -> Result<Header, ReadFault>
    ensures answer { (front : List ℕ) × (I.left input.old ≡ led_by front (I.left input.new))
        × ReadsHeader front (told (I.left input.new)) result }
    ensures counted { result ≢ Err ReadFault.Source → I.faults input.new ≡ I.faults input.old }
    ensures failed { result ≡ Err ReadFault.Source →
        Rose (I.faults input.old) (I.faults input.new) }
{
    let mut header = [0u8; HEADER];
    match fill(input, &mut header) {
        Err(_) => Err(ReadFault::Source),
        Ok(0) => Err(ReadFault::Ended),
        Ok(count) => {
            if count < HEADER {
                Err(ReadFault::Faulty(1))
            } else {
                Ok(Header::read(&header))
            }
        }
    }
}

// So many bytes at the front of the input.
fn read_body<I: Source>(alloc: Global, input: &mut I, size: u32) -> Result<Vec<u8>, ReadFault>
    ensures answer { (front : List ℕ) × (I.left input.old ≡ led_by front (I.left input.new))
        × ReadsBody size front (told (I.left input.new)) result }
    ensures small { size < 4294967296 }
    ensures counted { result ≢ Err ReadFault.Source → I.faults input.new ≡ I.faults input.old }
    ensures failed { result ≡ Err ReadFault.Source →
        Rose (I.faults input.old) (I.faults input.new) }
{
    let mut body = match vec![in alloc; 0u8; size as usize] {
        Ok(body) => body,
        Err(_) => return Err(ReadFault::Want),
    };
    match fill(input, &mut body) {
        Err(_) => Err(ReadFault::Source),
        Ok(count) => {
            if count < size as usize {
                Err(ReadFault::Faulty(1))
            } else {
                Ok(body)
            }
        }
    }
}

/// The next message of the input at a machine, or why there is none. It reads no byte behind the message.
pub(crate) fn read_message<I: Source>(
    alloc: Global,
    input: &mut I,
    part: &Part,
) -> Result<Message, ReadFault>
    ensures answer { (front : List ℕ) × (I.left input.old ≡ led_by front (I.left input.new))
        × ReadsMessage (forms_of part.now) front (told (I.left input.new)) result }
    ensures counted { result ≢ Err ReadFault.Source → I.faults input.new ≡ I.faults input.old }
    ensures failed { result ≡ Err ReadFault.Source →
        Rose (I.faults input.old) (I.faults input.new) }
{
    let header = match read_header(input) {
        Ok(header) => header,
        Err(fault) => return Err(fault),
    };
    let name = match header.name {
        Some(name) => name,
        None => return Err(ReadFault::Faulty(2)),
    };
    let shape = match form_of(&name, header.size, part) {
        Ok(shape) => shape,
        Err(code) => return Err(ReadFault::Faulty(code)),
    };
    match read_body(alloc, input, header.size) {
        Err(fault) => Err(fault),
        Ok(body) => {
            if fits(&shape, &body) {
                Ok(Message { name, body })
            } else {
                Err(ReadFault::Faulty(4))
            }
        }
    }
}
