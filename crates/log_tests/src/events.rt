//! The lines of events.

use array_text::write_event;
use sample_programs::Cells;
use std::alloc::Global;
use std::test::Fail;
use symple_face::{DripSink, FirmSink};
use vert_base::{Event, Message, Name};

/// Names, the bytes of a body, and what stands behind `take` and the name.
static LINES: &str = "\
dep 1 0 0 0 1 | 2 | 0201000000000000010100000002
dep 1 0 1 0 1 | 1 | 0201000000000100010100000001
verdict 1 0 1 | 1 3 0 0 0 0 0 0 0 | 06010000000000000109000000010300000000000000
tally 0 1 0 | 1 0 0 0 0 0 0 0 0 0 0 0 0 0 0 0 0 0 0 0 0 0 0 0 255 | \
05000000000000010019000000010000000000000000000000000000000000000000000000ff
push 4294967295 255 254 | | 04ffffffff0000fffe00000000";

fn message(alloc: Global, name: &str, body: &str) -> Result<Message, Fail> {
    let name = Name::from_text(name.as_bytes()).ok_or("no name")?;
    let mut bytes = Vec::new(alloc);
    for word in body.split_whitespace() {
        bytes.push(word.parse::<u8>()?)?;
    }
    Ok(Message { name, body: bytes })
}

fn line_of(alloc: Global, event: &Event, taken: Option<&Message>) -> Result<Vec<u8>, Fail> {
    let mut sink = FirmSink::new(alloc, 4096)?;
    match taken {
        Some(message) if message.body.as_slice().len() > 1024 => return Err("too long")?,
        _ => write_event(event, taken, &mut sink)?,
    }
    Ok(Vec::from_slice(alloc, sink.bytes())?)
}

#[test]
fn lines(rt: HostRuntime) -> Result<(), Fail> {
    let alloc = rt.alloc();
    let gone = line_of(alloc, &Event::Go(63), None)?;
    assert_eq!(rt; gone.as_slice(), b"go 63\n".as_slice());
    for line in LINES.lines() {
        let mut cells = Cells::new(line);
        let name = cells.text();
        let message = message(alloc, name, cells.text())?;
        let event = Event::Take(message.name);
        let bytes = cells.text();
        let alone = format!(in alloc; "take {name}\n")?;
        let whole = format!(in alloc; "take {name} {bytes}\n")?;
        assert_eq!(rt;
            line_of(alloc, &event, None)?.as_slice(),
            alone.as_bytes(),
            "{line}"
        );
        let written = line_of(alloc, &event, Some(&message))?;
        assert_eq!(rt; written.as_slice(), whole.as_bytes(), "{line}");
    }
    Ok(())
}

#[test]
fn long_bodies(rt: HostRuntime) -> Result<(), Fail> {
    let alloc = rt.alloc();
    let name = Name::from_text(b"tally 0 1 0").ok_or("no name")?;
    let message = Message {
        name,
        body: vec![in alloc; 0xa5u8; 600]?,
    };
    let line = line_of(alloc, &Event::Take(name), Some(&message))?;
    assert_eq!(rt; line.as_slice().len(), 16 + 1 + 26 + 1200 + 1);
    let digits = line.as_slice().get(43..1243).ok_or("no digits")?;
    for (place, digit) in digits.iter().enumerate() {
        let wanted = if place % 2 == 0 { b'a' } else { b'5' };
        assert_eq!(rt; *digit, wanted, "at {place}");
    }
    Ok(())
}
