// Pieces of bytes, and how much of them was read.
ghost use Rattle.std.specs.Prelude.{◌≡◌, ◌++◌, ◌+◌, ◌^◌, ◌<◌, ℕ, List, length, min, take, drop, slice_index_or};
ghost use Rattle.outside.specs.Pieces.{first_bytes, without_first, contents, unread};

use std::marker::Model;

#[derive(Drop)]
pub struct Unread {
    pieces: Vec<Vec<u8>>,
    at: usize,
    given: usize,
}

impl Model for Unread {
    ghost use Rattle.std.specs.Prelude.{List, ℕ};
    ghost use Rattle.outside.specs.Pieces.{contents, unread};

    ghost Value = { List (List ℕ) };

    ghost view = { λ u. unread u.at u.given (contents u.pieces.items) };
}

impl Unread {
    pub fn new(pieces: Vec<Vec<u8>>) -> Unread
        ensures { result ≡ contents pieces.items }
    {
        Unread {
            pieces,
            at: 0,
            given: 0,
        }
    }

    /// Writes the next bytes, of one piece, at the front of `into`, and answers how many they are.
    pub fn give(&mut self, into: &mut [u8]) -> usize
        ensures size { result ≡ length (first_bytes (length into.old) self.old) }
        ensures into { into.new ≡ first_bytes (length into.old) self.old ++ drop result into.old }
        ensures rest { self.new ≡ without_first (length into.old) self.old }
    {
        let (at, given) = next_place(&self.pieces, self.at, self.given);
        let size = copy_at(&self.pieces, at, given, into);
        self.at = at;
        self.given = given + size;
        size
    }
}

// The place of the next byte, past pieces that are empty or given.
fn next_place(pieces: &[Vec<u8>], first: usize, given_of_first: usize) -> (usize, usize)
    ensures bytes { (size : ℕ) → first_bytes size (unread result.0 result.1 (contents pieces.now))
        ≡ first_bytes size (unread first given_of_first (contents pieces.now)) }
    ensures rest { (size : ℕ) → without_first size (unread result.0 result.1 (contents pieces.now))
        ≡ without_first size (unread first given_of_first (contents pieces.now)) }
    ensures there { (other : _) → result.0 < length pieces.now →
        result.1 < length (slice_index_or pieces.now result.0 other).items }
{
    let mut at = first;
    let mut given = given_of_first;
    while at < pieces.len() && pieces[at].as_slice().len() <= given {
        at += 1;
        given = 0;
    }
    (at, given)
}

// Copies what fits of the piece at a place, and answers how much it is.
fn copy_at(pieces: &[Vec<u8>], at: usize, given: usize, into: &mut [u8]) -> usize
    requires { (other : _) → at < length pieces.now →
        given < length (slice_index_or pieces.now at other).items }
    ensures size { result ≡ length (first_bytes (length into.old)
        (unread at given (contents pieces.now))) }
    ensures into { into.new ≡ first_bytes (length into.old) (unread at given (contents pieces.now))
        ++ drop result into.old }
    ensures rest { unread at (given + result) (contents pieces.now)
        ≡ without_first (length into.old) (unread at given (contents pieces.now)) }
    ensures fits { given + result < 2 ^ 64 }
{
    if at < pieces.len() {
        copy_first(&pieces[at].as_slice()[given..], into)
    } else {
        0
    }
}

// Copies what fits, and answers how much it is.
fn copy_first(bytes: &[u8], into: &mut [u8]) -> usize
    ensures size { result ≡ min (length bytes.now) (length into.old) }
    ensures into { into.new ≡ take result bytes.now ++ drop result into.old }
{
    let size = bytes.len().min(into.len());
    into[..size].copy_from_slice(&bytes[..size]);
    size
}
