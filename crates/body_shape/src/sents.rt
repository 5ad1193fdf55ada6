ghost use Rattle.std.specs.Prelude.{◌≡◌, ◌≤◌, ◌<◌, ◌+◌, ◌*◌, ◌^◌, ◌++◌, ℕ, None, is_some, if◌then◌else◌, length, slice_index_or, vec_capacity, vec_len, IsOk, OnErr, OnOk};
ghost use Rattle.body_shape.specs.Places.{flags_of, mask_of, set_count, there};
ghost use Rattle.body_shape.specs.Refresh.{words_bytes};
ghost use Rattle.body_shape.specs.Update.{behind_sent, behind_values, sent_at, sent_bytes, values_in};

use crate::words::{behind, lay, word_at};
use vert_base::Want;

// 1 where a value is there.
fn bit_of(value: Option<i64>) -> u8
    ensures value { result ≡ (if is_some value then 1 else 0) }
    ensures small { result ≤ 1 }
{
    match value {
        Some(_) => 1,
        None => 0,
    }
}

// The number whose bit i is set where value i is there.
fn mask_of(values: &[Option<i64>]) -> u8
    requires { length values.now ≤ 8 }
    ensures { result ≡ mask_of values.now }
{
    let mut mask = 0;
    let mut place = values.len();
    'places: while 0 < place {
        place -= 1;
        mask = bit_of(values[place]) + 2 * mask;
    }
    mask
}

// Writes the values that are there, where there is room for all.
fn lay_there(bytes: &mut Vec<u8>, values: &[Option<i64>]) -> Result<(), Want>
    requires { vec_len bytes.old + 8 * length values.now ≤ vec_capacity bytes.old }
    ensures ok { IsOk result }
    ensures items { bytes.new.items ≡ bytes.old.items ++ words_bytes (there values.now) }
    ensures len { vec_len bytes.new ≤ vec_len bytes.old + 8 * length values.now }
    ensures capacity { vec_capacity bytes.old ≤ vec_capacity bytes.new }
{
    for value in values {
        if let Some(word) = *value {
            lay(bytes, &[word])?;
        }
    }
    Ok(())
}

/// Writes what is sent of a vertex at the end of bytes.
pub fn put_sent(
    bytes: &mut Vec<u8>,
    values: &[Option<i64>],
    operands: &[Option<i64>],
) -> Result<(), Want>
    requires values { length values.now ≤ 8 }
    requires operands { length operands.now ≤ 8 }
    ensures put { OnOk result (bytes.new.items
        ≡ bytes.old.items ++ sent_bytes (record { values = values.now; operands = operands.now })) }
    ensures want { OnErr result (bytes.new.items ≡ bytes.old.items) }

    // It succeeds where there is room for all values, and gives none up.
    ensures room { vec_len bytes.old + (2 + 8 * length values.now + 8 * length operands.now)
        ≤ vec_capacity bytes.old → IsOk result }
    ensures capacity { vec_capacity bytes.old ≤ vec_capacity bytes.new }
{
    bytes.reserve(2 + 8 * values.len() + 8 * operands.len())?;
    bytes.extend_from_slice(&[mask_of(values), mask_of(operands)])?;
    lay_there(bytes, values)?;
    lay_there(bytes, operands)
}

// The set bits of a mask below a place.
#[inline]
fn set_below(mask: u8, place: usize) -> usize
    requires { place ≤ 8 }
    ensures value { result ≡ set_count (flags_of place mask) }
    ensures small { result ≤ 8 }
{
    (u32::from(mask) % (1 << place)).count_ones() as usize
}

// The value at a place of a mask, whose words are at the front of bytes.
#[inline]
fn value_in(mask: u8, bytes: &[u8], place: usize) -> Option<i64>
    requires { place < 8 }
    ensures { (count : ℕ) → place < count
        → result ≡ slice_index_or (values_in count mask bytes.now) place None }
{
    if (mask >> place) % 2 == 0 {
        None
    } else {
        Some(word_at(bytes, 8 * set_below(mask, place)))
    }
}

// The bytes behind the values of so many places of a mask.
#[inline]
fn behind_values(mask: u8, bytes: &[u8], places: usize) -> &[u8]
    requires { places ≤ 8 }
    ensures { result.now ≡ behind_values places mask bytes.now }
{
    behind(bytes, 8 * set_below(mask, places))
}

/// The value of a slot that is sent of the vertex at the front of an update.
#[inline]
pub fn value_at(update: &[u8], slots: usize, slot: usize) -> Option<i64>
    requires few { slots ≤ 8 }
    requires slot { slot < slots }
    ensures { (reduced : ℕ)
        → result ≡ slice_index_or (sent_at slots reduced update.now).values slot None }
{
    match update {
        [low, _, words @ ..] => value_in(*low, words, slot),
        _ => None,
    }
}

/// The value of a reduced let that is sent of the vertex at the front of an update.
#[inline]
pub fn operand_at(update: &[u8], slots: usize, reduced: usize, place: usize) -> Option<i64>
    requires slots { slots ≤ 8 }
    requires reduced { reduced ≤ 8 }
    requires place { place < reduced }
    ensures { result ≡ slice_index_or (sent_at slots reduced update.now).operands place None }
{
    match update {
        [low, high, words @ ..] => value_in(*high, behind_values(*low, words, slots), place),
        _ => None,
    }
}

/// The bytes of an update behind what is sent of its first vertex.
#[inline]
pub fn behind_sent(update: &[u8], slots: usize, reduced: usize) -> &[u8]
    requires slots { slots ≤ 8 }
    requires reduced { reduced ≤ 8 }
    ensures { result.now ≡ behind_sent slots reduced update.now }
{
    match update {
        [low, high, words @ ..] => {
            behind_values(*high, behind_values(*low, words, slots), reduced)
        }
        _ => &[],
    }
}
