//! Images of a run, and the key of what is run.

use arrayvec::ArrayVec;
use check_point::{ImageFault, images_read_back, key, read_image, write_image};
use instrument::{Split, split_of};
use program_reader::read_program;
use sample_programs::program_named;
use std::alloc::Global;
use std::test::Fail;
use symple_face::Start;
use vert_base::{Row, Ruling};

/// The keys of a small program and graph, without and with the number of vertices.
static KEYS: [&str; 2] = [
    "e170502a9d461d3238679be4cf4837ab36ad8fe77f74ef2d21f96365a7062e8c",
    "2eaf7054c28c0ca47a4ef04796be9103c7395e166d7a998eccbf137d4344eca8",
];

static HEAD: &str = "01000000010200000000000000020000000000000004000000";

static DIGEST: &str = "7067df75ab7e9ec34129208ceb3318af9c29287cc89f26a1b1dd7f66f2ecabbf";

fn key_with(vertices: Option<u32>) -> [u8; 32] {
    key(b"vertex 1;", b"0 1\n", vertices, 1, 2, 42)
}

fn split(alloc: Global) -> Result<Split, Fail> {
    let text = program_named("bfs").ok_or("no program")?;
    match read_program(alloc, text.as_bytes()) {
        Ok(typed) => Ok(split_of(typed)),
        Err(_) => Err(Fail::from("no program")),
    }
}

fn row(dist: i64, parent: i64, active: bool) -> Row {
    let mut words = ArrayVec::new();
    let _ = words.try_push(dist);
    let _ = words.try_push(parent);
    Row { words, active }
}

fn start(alloc: Global) -> Result<Start, Fail> {
    let mut rows = Vec::new(alloc);
    for (dist, parent, active) in [(0, -1, false), (1, 0, true), (1, 0, true), (-1, -1, false)] {
        rows.push(row(dist, parent, active))?;
    }
    Ok(Start {
        round: 2,
        ruling: Ruling::Dense,
        active: 2,
        edges: 2,
        rows,
        totals: Vec::new(alloc),
    })
}

fn image(alloc: Global, key: &[u8; 32], start: &Start) -> Result<Vec<u8>, Fail> {
    if start.round < 1 || start.ruling == Ruling::Stop || start.rows.as_slice().len() > 100 {
        return Err("no start")?;
    }
    Ok(write_image(alloc, key, start)?)
}

fn told(
    alloc: Global,
    bytes: &[u8],
    key: &[u8; 32],
    vertices: u32,
) -> Result<Option<ImageFault>, Fail> {
    Ok(read_image(alloc, bytes, key, &split(alloc)?, vertices).err())
}

#[test]
fn keys(rt: HostRuntime) -> Result<(), Fail> {
    for (vertices, wanted) in [None, Some(4)].into_iter().zip(KEYS) {
        let digits = hex::encode(rt.alloc(), key_with(vertices).as_slice())?;
        assert_eq!(rt; digits.as_str(), wanted);
    }
    Ok(())
}

#[test]
fn written_and_read(rt: HostRuntime) -> Result<(), Fail> {
    images_read_back();
    let alloc = rt.alloc();
    let key = key_with(None);
    let bytes = image(alloc, &key, &start(alloc)?)?;
    assert_eq!(rt; bytes.as_slice().len(), 189);
    let head = hex::encode(alloc, bytes.as_slice().get(36..61).ok_or("no head")?)?;
    assert_eq!(rt; head.as_str(), HEAD);
    let digest = hex::encode(alloc, bytes.as_slice().get(157..).ok_or("no digest")?)?;
    assert_eq!(rt; digest.as_str(), DIGEST);
    let read = read_image(alloc, bytes.as_slice(), &key, &split(alloc)?, 4)?;
    let first = format!(in alloc; "{:?}", start(alloc)?)?;
    let again = format!(in alloc; "{read:?}")?;
    assert_eq!(rt; again.as_str(), first.as_str());
    Ok(())
}

#[test]
fn torn_and_other(rt: HostRuntime) -> Result<(), Fail> {
    let alloc = rt.alloc();
    let key = key_with(None);
    let whole = image(alloc, &key, &start(alloc)?)?;
    let bytes = whole.as_slice();
    let cut = bytes.get(..188).ok_or("no cut")?;
    assert_eq!(rt; told(alloc, cut, &key, 4)?, Some(ImageFault::Torn));
    assert_eq!(rt; told(alloc, bytes, &key, 5)?, Some(ImageFault::Torn));
    assert_eq!(rt;
        told(alloc, bytes, &key_with(Some(4)), 4)?,
        Some(ImageFault::Other)
    );
    let mut late = start(alloc)?;
    late.round = 101;
    let bytes = image(alloc, &key, &late)?;
    assert_eq!(rt;
        told(alloc, bytes.as_slice(), &key, 4)?,
        Some(ImageFault::Other)
    );
    late.round = 100;
    let bytes = image(alloc, &key, &late)?;
    assert_eq!(rt; told(alloc, bytes.as_slice(), &key, 4)?, None);
    late.active = 0;
    let bytes = image(alloc, &key, &late)?;
    assert_eq!(rt;
        told(alloc, bytes.as_slice(), &key, 4)?,
        Some(ImageFault::Other)
    );
    Ok(())
}
