ghost use Rattle.std.specs.Prelude.{◌≡◌, ◌≤◌, ◌<◌, ◌*◌, ◌^◌, count_by, drop, length, slice_index, take};
ghost use Rattle.std.specs.List.{list_any};
ghost use Rattle.dep_layout.specs.Judgement.{is_set};
ghost use Rattle.body_shape.specs.Fit.{are_sends, bit_len, bits_in, is_push};

use crate::rows::are_rows;

/// Whether a body has a bit for each of so many vertices, and a row of words for each bit that is set.
pub(crate) fn is_push(body: &[u8], vertices: usize, words: usize, bools: u8) -> bool
    requires vertices { vertices < 2 ^ 32 }
    requires words { words < 256 }
    ensures { result ≡ is_push vertices words bools body.now }
{
    let count = vertices.div_ceil(8);
    if body.len() < count {
        return false;
    }
    let (marks, rows) = body.split_at(count);
    are_sends(marks, rows, vertices, words, bools)
}

fn are_sends(marks: &[u8], rows: &[u8], vertices: usize, words: usize, bools: u8) -> bool
    requires vertices { vertices < 2 ^ 32 }
    requires count { length marks.now ≡ bit_len vertices }
    requires words { words < 256 }
    ensures { result ≡ are_sends vertices words bools marks.now rows.now }
{
    !is_set_behind(marks, vertices)
        && are_rows(rows, senders(marks, vertices), words, u32::from(bools))
}

// The bit of a vertex.
fn bit_at(marks: &[u8], vertex: usize) -> u8
    requires { vertex < 8 * length marks.now }
    ensures { result ≡ slice_index (bits_in marks.now) vertex }
{
    marks[vertex / 8] >> (vertex % 8) & 1
}

// Whether a bit behind those of so many vertices is set.
fn is_set_behind(marks: &[u8], vertices: usize) -> bool
    requires count { length marks.now ≡ bit_len vertices }
    requires few { vertices < 2 ^ 32 }
    ensures { result ≡ list_any is_set (drop vertices (bits_in marks.now)) }
{
    for vertex in vertices..8 * marks.len() {
        if bit_at(marks, vertex) != 0 {
            return true;
        }
    }
    false
}

// How many of so many vertices have their bit set.
fn senders(marks: &[u8], vertices: usize) -> usize
    requires { vertices ≤ 8 * length marks.now }
    ensures value { result ≡ count_by is_set (take vertices (bits_in marks.now)) }
    ensures within { result ≤ vertices }
{
    let mut count = 0;
    for vertex in 0..vertices {
        if bit_at(marks, vertex) != 0 {
            count += 1;
        }
    }
    count
}
