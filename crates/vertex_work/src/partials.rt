// What is sent of an own vertex, added to its partials.
ghost use Rattle.std.specs.Prelude.{◌≡◌, ◌≤◌, ◌<◌, ◌+◌, ◌++◌, [], None, length, slice_index_or, slice_set};
ghost use Rattle.symple_face.specs.CoreTakes.{with_sent};
ghost use Rattle.machine_parts.specs.Updates.{with_told};

use flat_table::Grid;
use slot_merge::Partial;

// The word for a partial: those for slots come first.
#[inline]
fn told(values: &[Option<i64>], operands: &[Option<i64>], column: usize) -> Option<i64>
    requires { column < length values.now + length operands.now }
    ensures { result ≡ slice_index_or (values.now ++ operands.now) column None }
{
    if column < values.len() {
        values[column]
    } else {
        operands[column - values.len()]
    }
}

// Adds a word to one partial, where it is there.
#[inline]
fn add_word(partials: &mut Grid<Partial>, place: usize, column: usize, key: u32, word: Option<i64>)
    requires place { place < length partials.old.rows }
    requires column { column < partials.old.width }
    requires row { length (slice_index_or partials.old.rows place []) ≡ partials.old.width }
    ensures { partials.new ≡ record partials.old {
      rows = slice_set partials.old.rows place
          (with_told key word column (slice_index_or partials.old.rows place []));
    } }
{
    let Some(word) = word else {
        return;
    };
    let mut partial = partials.row(place)[column];
    partial.add(key, word);
    partials.put(place, column, partial);
}

/// Adds what is sent of a vertex to the partials at a place, under a key.
pub fn add_sent(
    partials: &mut Grid<Partial>,
    place: usize,
    key: u32,
    values: &[Option<i64>],
    operands: &[Option<i64>],
)
    requires place { place < length partials.old.rows }
    requires row { length (slice_index_or partials.old.rows place []) ≡ partials.old.width }
    requires width { partials.old.width ≡ length values.now + length operands.now }
    requires values { length values.now ≤ 8 }
    requires operands { length operands.now ≤ 8 }
    ensures { partials.new ≡ record partials.old {
      rows = slice_set partials.old.rows place
          (with_sent key (record { values = values.now; operands = operands.now })
          (slice_index_or partials.old.rows place []));
    } }
{
    'columns: for column in 0..values.len() + operands.len() {
        let word = told(values, operands, column);
        add_word(partials, place, column, key, word);
    }
}
