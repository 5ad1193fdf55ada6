ghost use Rattle.std.specs.Prelude.{◌≡◌, ◌≤◌, ◌<◌, ◌+◌, ◌*◌, ◌^◌, ◌++◌, length, vec_capacity, vec_len, IsOk, OnErr, OnOk};
ghost use Rattle.body_shape.specs.Refresh.{plain_row, row_at, row_bytes};
ghost use Rattle.vert_base.specs.Truth.{is_set, word_of_bool};

use crate::words::{lay, read_words, word_at};
use vert_base::{Row, Want};

fn word_of_bool(flag: bool) -> i64
    ensures { result ≡ word_of_bool flag }
{
    if flag { 1 } else { 0 }
}

#[inline]
fn is_set(word: i64) -> bool
    ensures { result ≡ is_set word }
{
    match word {
        0 => false,
        _ => true,
    }
}

/// Writes the row of a vertex at the end of bytes.
pub fn put_row(bytes: &mut Vec<u8>, fields: &[i64], active: bool) -> Result<(), Want>
    requires { length fields.now ≤ 16 }
    ensures put { OnOk result (bytes.new.items
        ≡ bytes.old.items ++ row_bytes (record { fields = fields.now; active = active })) }
    ensures want { OnErr result (bytes.new.items ≡ bytes.old.items) }

    // It succeeds where there is room, and gives none up.
    ensures room { vec_len bytes.old + (8 * length fields.now + 8) ≤ vec_capacity bytes.old
        → IsOk result }
    ensures capacity { vec_capacity bytes.old ≤ vec_capacity bytes.new }
{
    bytes.reserve(8 * fields.len() + 8)?;
    lay(bytes, fields)?;
    lay(bytes, &[word_of_bool(active)])
}

/// Reads the row at a place of a refresh, of so many fields, into a row. A row that is missing reads as
/// zeros that aren't active.
pub fn read_row(body: &[u8], width: usize, place: usize, row: &mut Row)
    requires width { width ≤ 16 }
    requires place { place < 2 ^ 32 }
    ensures { plain_row row.new ≡ row_at width place body.now }
{
    let start = 8 * (width + 1) * place;
    read_words(body, start, width, &mut row.words);
    row.active = is_set(word_at(body, start + 8 * width));
}
