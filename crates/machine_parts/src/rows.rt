// Rows of vertices, of equal width.
ghost use Rattle.std.specs.Prelude.{◌≡◌, ◌≤◌, ◌<◌, ◌^◌, length, replicate, slice_set, IfOk};
ghost use Rattle.vert_eval.specs.Rounds.{row_at};
ghost use Rattle.machine_parts.specs.Flat.{still_row};

use crate::repeated::repeated;
use arrayvec::ArrayVec;
use flat_table::Grid;
use std::alloc::Global;
use std::marker::Model;
use vert_base::{Row, Want};

/// The rows of vertices: the words of all of them side by side, and their flags.
#[derive(Drop)]
pub struct Rows {
    width: usize,
    words: Grid<i64>,
    active: Vec<bool>,
}

impl Model for Rows {
    ghost use Rattle.std.specs.Prelude.{length};
    ghost use Rattle.machine_parts.specs.Flat.{AreLaid, RowTable, rows_with};

    ghost Value = { RowTable };

    ghost view = { λ r. record { width = r.width; rows = rows_with r.words.rows r.active.items } };

    ghost invariant = { λ r. AreLaid 16 r.width (length r.active.items) r.words };
}

impl Rows {
    /// Rows of zeros, none of them active. It takes all the memory that the rows need.
    pub fn still(alloc: Global, width: usize, count: usize) -> Result<Rows, Want>
        requires width { width ≤ 16 }
        requires count { count < 2 ^ 32 }
        ensures { IfOk result (λ rows. rows
            ≡ record { width = width; rows = replicate count (still_row width) }) }
    {
        let words = Grid::filled(alloc, width, count, 0i64)?;
        let active = repeated(alloc, false, count)?;
        Ok(Rows {
            width,
            words,
            active,
        })
    }

    /// How many rows there are.
    pub fn len(&self) -> usize
        ensures { result ≡ length self.now.rows }
    {
        self.active.len()
    }

    /// How many fields each row has.
    #[inline]
    pub fn width(&self) -> usize
        ensures width { result ≡ self.now.width }
        ensures few { result ≤ 16 }
    {
        self.width
    }

    /// The words of the row at a place.
    #[inline]
    pub fn words(&self, place: usize) -> &[i64]
        requires { place < length self.now.rows }
        ensures words { result.now ≡ (row_at self.now.rows place).words.items }
        ensures width { length result.now ≡ self.now.width }
        ensures few { length result.now ≤ 16 }
    {
        self.words.row(place)
    }

    /// Whether the vertex at a place is active.
    #[inline]
    pub fn is_active(&self, place: usize) -> bool
        requires { place < length self.now.rows }
        ensures { result ≡ (row_at self.now.rows place).active }
    {
        self.active[place]
    }

    /// Writes the row at a place into another one.
    #[inline]
    pub fn read(&self, place: usize, into: &mut Row)
        requires { place < length self.now.rows }
        ensures row { into.new ≡ row_at self.now.rows place }
        ensures width { length into.new.words.items ≡ self.now.width }
    {
        let words = self.words(place);
        copy_words(words, &mut into.words);
        into.active = self.is_active(place);
    }

    /// Puts a row into its place.
    #[inline]
    pub fn write(&mut self, place: usize, row: &Row)
        requires place { place < length self.old.rows }
        requires width { length row.now.words.items ≡ self.old.width }
        ensures { self.new ≡ record self.old { rows = slice_set self.old.rows place row.now } }
    {
        self.words.put_row(place, row.words.as_slice());
        self.active[place] = row.active;
    }
}

// Writes words over as many others. Most rows have a word or two, and copying many costs a call.
#[inline]
fn copy_over<const N: usize>(from: &[i64], into: &mut ArrayVec<i64, N>)
    requires { length into.old.items ≡ length from.now }
    ensures { into.new.items ≡ from.now }
{
    match from {
        [] => {}
        [word] => into[0] = *word,
        [first, second] => {
            into[0] = *first;
            into[1] = *second;
        }
        _ => into.as_mut_slice().copy_from_slice(from),
    }
}

// Writes words into a list, in the place of what it held. A list that has as many already isn't
// emptied first, since that fills it with zeros.
#[inline]
pub(crate) fn copy_words<const N: usize>(from: &[i64], into: &mut ArrayVec<i64, N>)
    requires { length from.now ≤ N }
    ensures { into.new.items ≡ from.now }
{
    if into.len() == from.len() {
        copy_over(from, into);
        return;
    }
    into.clear();
    into.try_extend_from_slice(from).unwrap();
}
