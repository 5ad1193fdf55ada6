//! The spelling of messages.

use super::bytes::bytes_of;
use super::names::name_at;
use dep_message::{HEADER, Header, encode, one_spelling};
use sample_programs::Cells;
use std::test::Fail;
use vert_base::Message;

/// The name: kind, round, step, half, sender and receiver; the body, and the spelling.
static MESSAGES: &str = "\
dep | 1 | 0 | 0 | 0 | 1 | 02 | 0201000000000000010100000002
dep | 1 | 0 | 1 | 0 | 1 | 01 | 0201000000000100010100000001
update | 1 | 0 | 0 | 0 | 1 | 01000000000000000000 | 0301000000000000010a00000001000000000000000000
tally | 0 | 0 | 0 | 1 | 0 | 0100000000000000000000000000000000000000000000000100000000000000 | 050000000000000100200000000100000000000000000000000000000000000000000000000100000000000000
verdict | 1 | 0 | 0 | 0 | 1 | 010300000000000000 | 06010000000000000109000000010300000000000000
refresh | 10000 | 0 | 0 | 63 | 0 | | 011027000000003f0000000000
push | 4294967295 | 0 | 0 | 255 | 0 | 00 | 04ffffffff0000ff000100000000";

#[test]
fn spellings(rt: HostRuntime) -> Result<(), Fail> {
    let alloc = rt.alloc();
    for line in MESSAGES.lines() {
        let mut cells = Cells::new(line);
        let name = name_at(&mut cells)?;
        let body = bytes_of(alloc, cells.text())?;
        let size = body.len();
        assert!(rt; size < 100, "{line}");
        let bytes = encode(alloc, &Message { name, body }).map_err(|_| "no memory")?;
        let wanted = bytes_of(alloc, cells.text())?;
        assert_eq!(rt; bytes.as_slice(), wanted.as_slice(), "{line}");
        assert!(rt; bytes.len() >= HEADER, "{line}");
        let header = Header::read(&bytes);
        assert_eq!(rt; header.name, Some(name), "{line}");
        assert_eq!(rt; header.size as usize, size, "{line}");
    }
    one_spelling();
    Ok(())
}
