ghost use Rattle.std.specs.Prelude.{◌≡◌, ◌≤◌, ◌<◌, ◌+◌, ◌*◌, ◌^◌, ◌∷◌, length, map, slice_index, take, drop};
ghost use Rattle.std.specs.List.{list_any};
ghost use Rattle.dep_layout.specs.Spelling.{bits_of, mark_of, mark_bytes};
ghost use Rattle.dep_layout.specs.Judgement.{mark_len, pairs_in, is_both, is_set, started};
ghost use Rattle.dep_layout.specs.Reading.{mark_with};
ghost use Rattle.dep_layout.specs.States.{states_of};

use crate::state::{DepState, Mark};

/// How many bytes the marks of so many vertices take.
pub(crate) fn mark_len(vertices: usize) -> usize
    ensures { result ≡ mark_len vertices }
{
    vertices.div_ceil(4)
}

/// The two bits of a mark.
pub(crate) fn bits_of(mark: Mark) -> u8
    ensures value { result ≡ bits_of mark }
    ensures below { result < 3 }
{
    match mark {
        Mark::Fresh => 0,
        Mark::Running => 1,
        Mark::Broken => 2,
    }
}

/// The mark of two bits.
pub(crate) fn mark_with(pair: u8) -> Mark
    ensures { result ≡ mark_with pair }
{
    match pair {
        0 => Mark::Fresh,
        1 => Mark::Running,
        _ => Mark::Broken,
    }
}

/// The two bits of a vertex.
pub(crate) fn pair_at(marks: &[u8], vertex: usize) -> u8
    requires { vertex < 4 * length marks.now }
    ensures { result ≡ slice_index (pairs_in marks.now) vertex }
{
    marks[vertex / 4] >> (2 * (vertex % 4)) & 3
}

/// Whether one of so many vertices has both bits.
pub(crate) fn has_both(marks: &[u8], vertices: usize) -> bool
    requires { vertices ≤ 4 * length marks.now }
    ensures { result ≡ list_any is_both (take vertices (pairs_in marks.now)) }
{
    for vertex in 0..vertices {
        if pair_at(marks, vertex) == 3 {
            return true;
        }
    }
    false
}

/// Whether a bit behind the marks of so many vertices is set.
pub(crate) fn is_set_behind(marks: &[u8], vertices: usize) -> bool
    requires count { length marks.now ≡ mark_len vertices }
    requires few { vertices < 2 ^ 32 }
    ensures { result ≡ list_any is_set (drop vertices (pairs_in marks.now)) }
{
    for vertex in vertices..4 * marks.len() {
        if pair_at(marks, vertex) != 0 {
            return true;
        }
    }
    false
}

/// How many of so many vertices are started.
pub(crate) fn started(marks: &[u8], vertices: usize) -> usize
    requires { vertices ≤ 4 * length marks.now }
    ensures value { result ≡ started (take vertices (pairs_in marks.now)) }
    ensures within { result ≤ vertices }
{
    let mut count = 0;
    for vertex in 0..vertices {
        if pair_at(marks, vertex) != 0 {
            count += 1;
        }
    }
    count
}

// The two bits of a vertex, 0 behind the last one.
fn bits_at<const W: usize>(states: &[DepState<W>], vertex: usize) -> u8
    ensures value { result ≡ slice_index (map bits_of (map mark_of (states_of states.now))) vertex }
    ensures below { result < 3 }
{
    match states.get(vertex) {
        Some(state) => bits_of(state.mark),
        None => 0,
    }
}

/// The byte with the marks of four vertices, from one on. Behind the last vertex its bits are 0.
pub(crate) fn mark_byte<const W: usize>(states: &[DepState<W>], vertex: usize) -> u8
    requires within { vertex < length states.now }
    requires few { vertex + 4 < 2 ^ 64 }
    ensures { mark_bytes (drop vertex (map mark_of (states_of states.now))) ≡ result
        ∷ mark_bytes (drop (vertex + 4) (map mark_of (states_of states.now))) }
{
    bits_at(states, vertex)
        + 4 * bits_at(states, vertex + 1)
        + 16 * bits_at(states, vertex + 2)
        + 64 * bits_at(states, vertex + 3)
}
