ghost use Rattle.std.specs.Prelude.{◌≡◌, ◌≤◌, ◌+◌, ◌*◌, ◌++◌, [], ◌∷◌, drop, length, slice_index, take, vec_capacity, vec_len, IsOk, OnErr, OnOk};
ghost use Rattle.dep_layout.specs.Judgement.{word_of, words_in};
ghost use Rattle.body_shape.specs.Fit.{number_of};
ghost use Rattle.body_shape.specs.Refresh.{words_bytes};

use arrayvec::ArrayVec;
use vert_base::Want;

/// The bytes behind the first so many, none where there are no more.
#[inline]
pub fn behind(bytes: &[u8], count: usize) -> &[u8]
    ensures { result.now ≡ drop count bytes.now }
{
    if count < bytes.len() {
        &bytes[count..]
    } else {
        &[]
    }
}

// The byte at a place, 0 behind the last one.
#[inline]
pub(crate) fn byte_at(bytes: &[u8], place: usize) -> u8
    ensures { result ≡ slice_index bytes.now place }
{
    if place < bytes.len() { bytes[place] } else { 0 }
}

// The first eight bytes, 0 for those that are missing.
#[inline]
fn first_eight(bytes: &[u8]) -> [u8; 8]
    ensures { result ≡ slice_index bytes.now 0 ∷ slice_index bytes.now 1 ∷ slice_index bytes.now 2
        ∷ slice_index bytes.now 3 ∷ slice_index bytes.now 4 ∷ slice_index bytes.now 5
        ∷ slice_index bytes.now 6 ∷ slice_index bytes.now 7 ∷ [] }
{
    if 8 <= bytes.len() {
        [
            bytes[0], bytes[1], bytes[2], bytes[3], bytes[4], bytes[5], bytes[6], bytes[7],
        ]
    } else {
        [
            byte_at(bytes, 0),
            byte_at(bytes, 1),
            byte_at(bytes, 2),
            byte_at(bytes, 3),
            byte_at(bytes, 4),
            byte_at(bytes, 5),
            byte_at(bytes, 6),
            byte_at(bytes, 7),
        ]
    }
}

#[inline]
#[tactic(auto, unfolding(dep_layout::specs::Judgement::word_of))]
fn first_word(bytes: &[u8]) -> i64
    ensures { result ≡ word_of bytes.now }
{
    i64::from_le_bytes(first_eight(bytes))
}

#[inline]
#[tactic(auto, unfolding(crate::specs::Fit::number_of))]
fn first_number(bytes: &[u8]) -> u64
    ensures { result ≡ number_of bytes.now }
{
    u64::from_le_bytes(first_eight(bytes))
}

/// The word at a place of bytes. Bytes that are missing count as 0.
#[inline]
pub fn word_at(bytes: &[u8], place: usize) -> i64
    ensures { result ≡ word_of (take 8 (drop place bytes.now)) }
{
    first_word(behind(bytes, place))
}

/// The number at a place of bytes. Bytes that are missing count as 0.
#[inline]
pub fn number_at(bytes: &[u8], place: usize) -> u64
    ensures { result ≡ number_of (take 8 (drop place bytes.now)) }
{
    first_number(behind(bytes, place))
}

/// Reads so many words from a place of bytes on into a list, in the place of what it held.
pub fn read_words<const N: usize>(
    bytes: &[u8],
    place: usize,
    count: usize,
    words: &mut ArrayVec<i64, N>,
)
    requires { count ≤ N }
    ensures { words.new.items ≡ words_in count (drop place bytes.now) }
{
    words.clear();
    let mut rest = behind(bytes, place);
    'words: for _ in 0..count {
        words.push(word_at(rest, 0));
        rest = behind(rest, 8);
    }
}

// Writes words where there is room for them.
pub(crate) fn lay(bytes: &mut Vec<u8>, words: &[i64]) -> Result<(), Want>
    requires { vec_len bytes.old + 8 * length words.now ≤ vec_capacity bytes.old }
    ensures ok { IsOk result }
    ensures items { bytes.new.items ≡ bytes.old.items ++ words_bytes words.now }
    ensures len { vec_len bytes.new ≡ vec_len bytes.old + 8 * length words.now }
    ensures capacity { vec_capacity bytes.old ≤ vec_capacity bytes.new }
{
    for word in words {
        bytes.extend_from_slice(&word.to_le_bytes())?;
    }
    Ok(())
}

/// Writes words at the end of bytes.
pub fn put_words(bytes: &mut Vec<u8>, words: &[i64]) -> Result<(), Want>
    requires { length words.now ≤ 16 }
    ensures put { OnOk result (bytes.new.items ≡ bytes.old.items ++ words_bytes words.now) }
    ensures want { OnErr result (bytes.new.items ≡ bytes.old.items) }

    // It succeeds where there is room, and gives none up.
    ensures room { vec_len bytes.old + 8 * length words.now ≤ vec_capacity bytes.old → IsOk result }
    ensures capacity { vec_capacity bytes.old ≤ vec_capacity bytes.new }
{
    bytes.reserve(8 * words.len())?;
    lay(bytes, words)
}
