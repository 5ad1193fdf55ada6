// What updates tell, added to the partials of own vertices.
ghost use Rattle.std.specs.Prelude.{◌≡◌, ◌≤◌, ◌<◌, ◌+◌, ◌-◌, ◌++◌, [], None, length, map, slice_index_or, slice_set};
ghost use Rattle.std.specs.List.{All};
ghost use Rattle.std.specs.List.Sorted.{IsStrictlyIncreasing};
ghost use Rattle.body_shape.specs.Update.{sent_at, sents_read};
ghost use Rattle.symple_face.specs.CoreTakes.{with_sent};
ghost use Rattle.machine_parts.specs.Neighbours.{ArePlaced};
ghost use Rattle.machine_parts.specs.Updates.{told_values, with_sents, with_told};

use body_shape::{behind_sent, operand_at, value_at};
use flat_table::Grid;
use slot_merge::Partial;
use vert_base::VertexId;

/// How many words an update may tell of a vertex: one for each slot and one for each reduced let.
#[derive(Clone, Copy, Debug)]
pub struct SentWords {
    pub slots: usize,
    pub reduced: usize,
}

/// Adds what an update tells of some own vertices to their partials, under a key. The own vertices
/// begin at `start`. It takes no memory.
pub fn merge_update(
    body: &[u8],
    list: &[VertexId],
    words: &SentWords,
    key: u32,
    partials: &mut Grid<Partial>,
    start: u32,
)
    requires slots { words.now.slots ≤ 8 }
    requires reduced { words.now.reduced ≤ 8 }
    requires width { partials.old.width ≡ words.now.slots + words.now.reduced }
    requires each { All (λ ps. length ps ≡ partials.old.width) partials.old.rows }
    requires placed { ArePlaced start (length partials.old.rows) list.now }
    requires order { IsStrictlyIncreasing (map (λ v. v.0) list.now) }
    ensures { let sents = sents_read words.now.slots words.now.reduced (length list.now) body.now in
        partials.new ≡ record partials.old {
          rows = with_sents start key (map (λ v. v.0) list.now) sents partials.old.rows;
        } }
{
    let mut rest = body;
    for vertex in list {
        let place = (vertex.0 - start) as usize;
        add_sent(rest, words, key, place, partials);
        rest = behind_sent(rest, words.slots, words.reduced);
    }
}

// Adds what is told of the vertex at the front of an update to the partials at a place.
fn add_sent(update: &[u8], words: &SentWords, key: u32, place: usize, partials: &mut Grid<Partial>)
    requires slots { words.now.slots ≤ 8 }
    requires reduced { words.now.reduced ≤ 8 }
    requires width { partials.old.width ≡ words.now.slots + words.now.reduced }
    requires place { place < length partials.old.rows }
    requires row { length (slice_index_or partials.old.rows place []) ≡ partials.old.width }
    ensures { let sent = sent_at words.now.slots words.now.reduced update.now in
        partials.new ≡ record partials.old {
          rows = slice_set partials.old.rows place
              (with_sent key sent (slice_index_or partials.old.rows place []));
        } }
{
    for column in 0..words.slots + words.reduced {
        let word = told(update, words, column);
        add_word(partials, place, column, key, word);
    }
}

// The word for a partial that is told of the vertex at the front of an update.
#[inline]
fn told(update: &[u8], words: &SentWords, column: usize) -> Option<i64>
    requires slots { words.now.slots ≤ 8 }
    requires reduced { words.now.reduced ≤ 8 }
    requires column { column < words.now.slots + words.now.reduced }
    ensures { let sent = sent_at words.now.slots words.now.reduced update.now in
        result ≡ slice_index_or (told_values sent) column None }
{
    if column < words.slots {
        value_at(update, words.slots, column)
    } else {
        operand_at(update, words.slots, words.reduced, column - words.slots)
    }
}

// Adds a word to one partial, where it is there.
#[inline]
fn add_word(partials: &mut Grid<Partial>, place: usize, column: usize, key: u32, word: Option<i64>)
    requires place { place < length partials.old.rows }
    requires column { column < partials.old.width }
    requires row { length (slice_index_or partials.old.rows place []) ≡ partials.old.width }
    ensures { partials.new ≡ record partials.old {
      rows = slice_set partials.old.rows place
          (with_told key word column (slice_index_or partials.old.rows place []));
    } }
{
    let Some(word) = word else {
        return;
    };
    let mut partial = partials.row(place)[column];
    partial.add(key, word);
    partials.put(place, column, partial);
}
