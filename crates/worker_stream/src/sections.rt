// The sections of a part file.
ghost use Rattle.std.specs.Prelude.{◌≡◌, ◌+◌, ◌*◌, ◌^◌, ◌<◌, MatchOption, IfSome, None, Some, length};
ghost use Rattle.worker_stream.specs.Sections.{counted, cut_at, end_count, sections_of};

use byteorder::{ByteOrder, LittleEndian};

/// The bytes with which a part file begins.
pub(crate) const MAGIC: [u8; 4] = *b"SGP1";

/// How many bytes stand before the chunk ends.
const HEAD: usize = 22;

/// The bytes of a part file: the numbers that stand once, and those of each list.
#[derive(Clone, Copy)]
pub(crate) struct Sections<'a> {
    pub(crate) head: &'a [u8],
    pub(crate) ends: &'a [u8],
    pub(crate) program: &'a [u8],
    pub(crate) scan: &'a [u8],
    pub(crate) push: &'a [u8],
    pub(crate) degrees: &'a [u8],
}

/// So many bytes and those behind them, where there are so many.
pub(crate) fn cut_at(bytes: &[u8], len: usize) -> Option<(&[u8], &[u8])>
    ensures cut { MatchOption result (cut_at len bytes.now ≡ None) (λ found.
        cut_at len bytes.now ≡ Some (found.0.now, found.1.now)) }
    ensures len { IfSome result (λ found. length found.0.now ≡ len) }
    ensures behind { IfSome result (λ found. length found.1.now + len ≡ length bytes.now) }
{
    if bytes.len() < len {
        return None;
    }
    Some(bytes.split_at(len))
}

// The items behind their count, each of so many bytes, and what stands behind them.
fn counted(bytes: &[u8], size: usize) -> Option<(&[u8], &[u8])>
    requires { size < 2 ^ 8 }
    ensures { MatchOption result (counted size bytes.now ≡ None) (λ found.
        counted size bytes.now ≡ Some (found.0.now, found.1.now)) }
{
    match cut_at(bytes, 4) {
        Some((count, items)) => cut_at(items, size * LittleEndian::read_u32(count) as usize),
        None => None,
    }
}

/// The sections of bytes, where their length is the one that the counts give.
pub(crate) fn cut(bytes: &[u8]) -> Option<Sections<'_>>
    ensures cut { MatchOption result (sections_of bytes.now ≡ None) (λ s.
        sections_of bytes.now ≡ Some (record {
          head = s.head.now;
          ends = s.ends.now;
          program = s.program.now;
          scan = s.scan.now;
          push = s.push.now;
          degrees = s.degrees.now;
        })) }
    ensures head { IfSome result (λ s. length s.head.now ≡ HEAD) }
    ensures ends { IfSome result (λ s. length s.ends.now ≡ 4 * end_count s.head.now) }
{
    let (head, rest) = cut_at(bytes, HEAD)?;
    let (ends, rest) = cut_at(rest, 4 * usize::from(head[5]))?;
    let (program, rest) = counted(rest, 1)?;
    let (scan, rest) = counted(rest, 12)?;
    let (push, rest) = counted(rest, 12)?;
    let (degrees, rest) = counted(rest, 12)?;
    if !rest.is_empty() {
        return None;
    }
    Some(Sections {
        head,
        ends,
        program,
        scan,
        push,
        degrees,
    })
}
