// The ring states of the vertices of a half.
ghost use Rattle.std.specs.Prelude.{◌≡◌, ◌≢◌, ◌≤◌, ◌<◌, ◌*◌, ◌^◌, ◌++◌, [], length, pos, replicate, slice_index_or, slice_set, take, IfOk, OnOk};
ghost use Rattle.std.specs.List.{flat_map};
ghost use Rattle.dep_layout.specs.Judgement.{FitsRing, pairs_in, words_in};
ghost use Rattle.dep_layout.specs.Reading.{read_of, state_with, states_in, words_behind};
ghost use Rattle.dep_layout.specs.Spelling.{sent_bytes, spelled};
ghost use Rattle.machine_parts.specs.Flat.{fresh_state, state_at};

use crate::repeated::repeated;
use crate::ring_marks::{mark_at, put_marks};
use body_shape::{behind, put_words, word_at};
use dep_layout::Mark;
use flat_table::Grid;
use std::alloc::Global;
use std::marker::Model;
use vert_base::Want;

/// The ring states of vertices: their marks, and the words of all of them side by side.
#[derive(Drop)]
pub struct RingHalf {
    width: usize,
    marks: Vec<Mark>,
    words: Grid<i64>,
}

impl Model for RingHalf {
    ghost use Rattle.std.specs.Prelude.{length};
    ghost use Rattle.machine_parts.specs.Flat.{AreLaid, AreStill, StateTable, states_with};

    ghost Value = { StateTable };

    ghost view = { λ r. record {
      width = r.width;
      states = states_with r.marks.items r.words.rows;
    } };

    ghost invariant = { λ r. AreLaid 8 r.width (length r.marks.items) r.words
        × AreStill r.width (states_with r.marks.items r.words.rows) };
}

impl RingHalf {
    /// The states of vertices whose loops haven't begun. It takes all the memory that states need.
    pub fn fresh(alloc: Global, width: usize, count: usize) -> Result<RingHalf, Want>
        requires width { width ≤ 8 }
        requires count { count < 2 ^ 32 }
        ensures { IfOk result (λ half. half
            ≡ record { width = width; states = replicate count (fresh_state width) }) }
    {
        let words = Grid::filled(alloc, width, count, 0i64)?;
        let marks = repeated(alloc, Mark::Fresh, count)?;
        Ok(RingHalf {
            width,
            marks,
            words,
        })
    }

    /// The states that a body spells, of so many vertices. Word i of a vertex is a `Bool` where bit
    /// i of `bools` is set.
    pub fn read(
        alloc: Global,
        width: usize,
        vertices: u32,
        bools: u8,
        body: &[u8],
    ) -> Result<RingHalf, Want>
        requires width { width ≤ 8 }
        requires fits { FitsRing width vertices bools body.now }
        ensures { IfOk result (λ half. half
            ≡ record { width = width; states = read_of width vertices body.now }) }
    {
        let count = vertices as usize;
        let (marks, words) = body.split_at(count.div_ceil(4));
        let mut half = RingHalf::fresh(alloc, width, count)?;
        read_states(&mut half, marks, words);
        Ok(half)
    }

    /// The spelling of the states.
    pub fn spell(&self, alloc: Global) -> Result<Vec<u8>, Want>
        ensures { IfOk result (λ body. body.items ≡ spelled self.now.states) }
    {
        let count = self.marks.len();
        let mut body = Vec::with_capacity(alloc, spelled_most(self.width, count))?;
        put_marks(&mut body, &self.marks)?;
        put_states(&mut body, self)?;
        Ok(body)
    }

    /// Of how many vertices there are states.
    pub fn len(&self) -> usize
        ensures { result ≡ length self.now.states }
    {
        self.marks.len()
    }

    /// How far the loop of the vertex at a place has come.
    #[inline]
    pub fn mark(&self, place: usize) -> Mark
        requires { place < length self.now.states }
        ensures mark { result ≡ (state_at self.now.states place).mark }
        ensures still { result ≡ Mark.Fresh
            → (state_at self.now.states place).words ≡ replicate self.now.width (pos 0) }
    {
        self.marks[place]
    }

    /// The words that the loop of the vertex at a place hands on.
    #[inline]
    pub fn words(&self, place: usize) -> &[i64]
        requires { place < length self.now.states }
        ensures words { result.now ≡ (state_at self.now.states place).words }
        ensures width { length result.now ≡ self.now.width }
    {
        self.words.row(place)
    }

    /// Puts a state into its place.
    #[inline]
    pub fn put(&mut self, place: usize, mark: Mark, words: &[i64])
        requires place { place < length self.old.states }
        requires width { length words.now ≡ self.old.width }
        requires still { mark ≡ Mark.Fresh → words.now ≡ replicate self.old.width (pos 0) }
        ensures { self.new ≡ record self.old {
          states = slice_set self.old.states place (record { mark = mark; words = words.now });
        } }
    {
        self.marks[place] = mark;
        self.words.put_row(place, words);
    }

    /// Puts a started state into its place, with the words at the front of bytes.
    fn put_read(&mut self, place: usize, mark: Mark, bytes: &[u8])
        requires place { place < length self.old.states }
        requires started { mark ≢ Mark.Fresh }
        ensures { self.new ≡ record self.old {
          states = slice_set self.old.states place
              (record { mark = mark; words = words_in self.old.width bytes.now });
        } }
    {
        self.marks[place] = mark;
        lay_words(&mut self.words, place, self.width, bytes);
    }
}

// The bytes of the spelling of so many states where all are started.
fn spelled_most(width: usize, count: usize) -> usize {
    count
        .saturating_mul(width)
        .saturating_mul(8)
        .saturating_add(count.div_ceil(4))
}

// Lays the words at the front of bytes into a row.
fn lay_words(words: &mut Grid<i64>, place: usize, width: usize, bytes: &[u8])
    requires place { place < length words.old.rows }
    requires width { words.old.width ≡ width }
    requires row { length (slice_index_or words.old.rows place []) ≡ width }
    ensures { words.new ≡ record words.old {
      rows = slice_set words.old.rows place (words_in width bytes.now);
    } }
{
    let mut rest = bytes;
    'columns: for column in 0..width {
        words.put(place, column, word_at(rest, 0));
        rest = behind(rest, 8);
    }
}

// Reads the state of a vertex whose loop hasn't begun from the front of bytes, where its mark has
// words: the bytes behind them.
#[inline]
fn read_state<'a>(half: &mut RingHalf, place: usize, mark: Mark, words: &'a [u8]) -> &'a [u8]
    requires place { place < length half.old.states }
    requires fresh { state_at half.old.states place ≡ fresh_state half.old.width }
    ensures half { half.new ≡ record half.old {
      states = slice_set half.old.states place (state_with half.old.width mark words.now);
    } }
    ensures rest { result.now ≡ words_behind half.old.width mark words.now }
{
    match mark {
        Mark::Fresh => words,
        Mark::Running | Mark::Broken => {
            half.put_read(place, mark, words);
            behind(words, 8 * half.width)
        }
    }
}

// Reads the states of all vertices, whose loops haven't begun, from their marks and the words of
// the started ones.
fn read_states(half: &mut RingHalf, marks: &[u8], words: &[u8])
    requires fresh { half.old.states
        ≡ replicate (length half.old.states) (fresh_state half.old.width) }
    requires marked { length half.old.states ≤ 4 * length marks.now }
    ensures width { half.new.width ≡ half.old.width }
    ensures states { half.new.states ≡ states_in half.old.width
        (take (length half.old.states) (pairs_in marks.now)) words.now }
{
    let mut rest = words;
    'states: for place in 0..half.len() {
        let mark = mark_at(marks, place);
        rest = read_state(half, place, mark, rest);
    }
}

// Writes the words of a vertex at the end of bytes, where it is started.
#[inline]
fn put_state(body: &mut Vec<u8>, mark: Mark, words: &[i64]) -> Result<(), Want>
    requires { length words.now ≤ 16 }
    ensures { OnOk result (body.new.items
        ≡ body.old.items ++ sent_bytes (record { mark = mark; words = words.now })) }
{
    match mark {
        Mark::Fresh => Ok(()),
        Mark::Running | Mark::Broken => put_words(body, words),
    }
}

// Writes the words of the started vertices at the end of bytes.
fn put_states(body: &mut Vec<u8>, half: &RingHalf) -> Result<(), Want>
    requires narrow { half.now.width ≤ 8 }
    ensures { OnOk result (body.new.items
        ≡ body.old.items ++ flat_map sent_bytes half.now.states) }
{
    'states: for place in 0..half.len() {
        put_state(body, half.mark(place), half.words(place))?;
    }
    Ok(())
}
