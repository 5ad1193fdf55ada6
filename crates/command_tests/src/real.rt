use outside::{Shelf, Source};
use std::fs;
use std::test::Fail;
use symple_run::{FileShelf, InSource};

/// Where the test stores a file.
static NAME: &str = "stored-by-a-test";

/// A file of the system holds what was stored last, and an input gives the bytes of its reader.
#[test]
fn real_files(rt: HostRuntime) -> Result<(), Fail> {
    let alloc = rt.alloc();
    let mut shelf = FileShelf::new(&rt);
    assert_eq!(&rt; shelf.store(NAME, b"a longer text"), Ok(()));
    assert_eq!(&rt; shelf.store(NAME, b"stored"), Ok(()));
    let loaded = shelf.load(alloc, NAME, 6);
    let mut input = InSource::new(fs::open(&rt, NAME)?);
    let mut bytes = [0u8; 8];
    let taken = input.take(&mut bytes);
    let end = input.take(&mut bytes[6..]);
    let removed = fs::remove_file(&rt, NAME);
    assert!(&rt; matches!(&loaded, Ok(bytes) if bytes.as_slice() == b"stored".as_slice()));
    assert_eq!(&rt; taken, Ok(6));
    assert_eq!(&rt; &bytes[..6], b"stored".as_slice());
    assert_eq!(&rt; end, Ok(0));
    assert!(&rt; removed.is_ok());
    assert!(&rt; shelf.store("", b"").is_err());
    Ok(())
}
