// The marks of ring states, as they are spelled: two bits each, four of them in a byte.
ghost use Rattle.std.specs.Prelude.{◌≡◌, ◌<◌, ◌+◌, ◌*◌, ◌^◌, ◌++◌, ◌∷◌, drop, length, map, slice_index, OnOk};
ghost use Rattle.dep_layout.specs.Judgement.{pairs_in};
ghost use Rattle.dep_layout.specs.Reading.{mark_with};
ghost use Rattle.dep_layout.specs.Spelling.{bits_of, mark_bytes};

use dep_layout::Mark;
use vert_base::Want;

// The two bits of a mark.
#[inline]
fn bits_of(mark: Mark) -> u8
    ensures value { result ≡ bits_of mark }
    ensures below { result < 3 }
{
    match mark {
        Mark::Fresh => 0,
        Mark::Running => 1,
        Mark::Broken => 2,
    }
}

// The two bits of a vertex, 0 behind the last one.
#[inline]
fn bits_at(marks: &[Mark], vertex: usize) -> u8
    ensures value { result ≡ slice_index (map bits_of marks.now) vertex }
    ensures below { result < 3 }
{
    match marks.get(vertex) {
        Some(mark) => bits_of(*mark),
        None => 0,
    }
}

// The byte with the marks of four vertices, from one on. Behind the last vertex its bits are 0.
#[inline]
fn mark_byte(marks: &[Mark], vertex: usize) -> u8
    requires within { vertex < length marks.now }
    requires few { vertex + 4 < 2 ^ 64 }
    ensures { mark_bytes (drop vertex marks.now)
        ≡ result ∷ mark_bytes (drop (vertex + 4) marks.now) }
{
    bits_at(marks, vertex)
        + 4 * bits_at(marks, vertex + 1)
        + 16 * bits_at(marks, vertex + 2)
        + 64 * bits_at(marks, vertex + 3)
}

/// Writes marks at the end of bytes.
pub(crate) fn put_marks(body: &mut Vec<u8>, marks: &[Mark]) -> Result<(), Want>
    ensures { OnOk result (body.new.items ≡ body.old.items ++ mark_bytes marks.now) }
{
    'bytes: for at in 0..marks.len().div_ceil(4) {
        body.push(mark_byte(marks, 4 * at))?;
    }
    Ok(())
}

// The two bits of a vertex.
#[inline]
fn pair_at(marks: &[u8], vertex: usize) -> u8
    requires { vertex < 4 * length marks.now }
    ensures { result ≡ slice_index (pairs_in marks.now) vertex }
{
    marks[vertex / 4] >> (2 * (vertex % 4)) & 3
}

/// The mark of a vertex.
#[inline]
pub(crate) fn mark_at(marks: &[u8], vertex: usize) -> Mark
    requires { vertex < 4 * length marks.now }
    ensures { result ≡ mark_with (slice_index (pairs_in marks.now) vertex) }
{
    match pair_at(marks, vertex) {
        0 => Mark::Fresh,
        1 => Mark::Running,
        _ => Mark::Broken,
    }
}
