ghost use Rattle.std.specs.Prelude.{◌≡◌, ℕ, ◌<◌, ◌≤◌, ◌^◌, length, take, drop, slice_index, true, false, nat_le, ◌&&◌, is_some};
ghost use Rattle.vert_lex.specs.Places.{marks, place_of};
ghost use Rattle.vert_base.specs.declared.text.Span.{Span};
ghost use Rattle.vert_lex.specs.Text.{through, is_blank, is_comment, tokens_at};
ghost use Rattle.vert_lex.specs.Tokens.{is_digit, is_word, longest};

use crate::bytes::{first, front, is_blank, is_comment, is_digit, is_letter, is_word, skip};
use crate::kind::is_mark;

/// How many bytes at the front may stand in a word behind its first byte.
fn word_length(text: &[u8]) -> usize
    ensures in_range { result ≤ length text.now }
    ensures all { (i : ℕ) → i < result → is_word (slice_index text.now i) ≡ true }
    ensures stops { result < length text.now → is_word (slice_index text.now result) ≡ false }
{
    let mut n = 0;
    'bytes: while n < text.len() && is_word(text[n]) {
        n += 1;
    }
    n
}

/// How many bytes at the front are digits.
fn number_length(text: &[u8]) -> usize
    ensures in_range { result ≤ length text.now }
    ensures all { (i : ℕ) → i < result → is_digit (slice_index text.now i) ≡ true }
    ensures stops { result < length text.now → is_digit (slice_index text.now result) ≡ false }
{
    let mut n = 0;
    'bytes: while n < text.len() && is_digit(text[n]) {
        n += 1;
    }
    n
}

/// How many bytes stand before the end of the line.
fn line_length(text: &[u8]) -> usize
    ensures in_range { result ≤ length text.now }
    ensures all { (i : ℕ) → i < result → slice_index text.now i ≡ 10 → ⊥ }
    ensures stops { result < length text.now → slice_index text.now result ≡ 10 }
{
    let mut n = 0;
    'bytes: while n < text.len() && text[n] != b'\n' {
        n += 1;
    }
    n
}

/// How many bytes of blanks or comment stand at the front: none where a token has to begin.
pub(crate) fn gap_length(text: &[u8]) -> usize
    requires { 0 < length text.now }
    ensures in_range { result ≤ length text.now }
    ensures blank { result ≡ 0 → is_blank (slice_index text.now 0) ≡ false }
    ensures comment { result ≡ 0 → is_comment (slice_index text.now 0) (drop 1 text.now) ≡ false }
    ensures passes { 0 < result → (s : Span) →
        tokens_at false 0 s text.now
        ≡ tokens_at false 0 (through s (take result text.now)) (drop result text.now) }
{
    if is_blank(first(text)) {
        return 1;
    }
    if is_comment(first(text), skip(text, 1)) {
        return line_length(text);
    }
    0
}

/// The length of the longest token at the front, or 0.
pub(crate) fn token_length(text: &[u8]) -> usize
    requires some { 0 < length text.now }
    requires few { length text.now < 2 ^ 32 }
    ensures longest { result ≡ longest (length text.now) text.now }
    ensures within { result ≤ length text.now }
{
    let b = first(text);
    let rest = skip(text, 1);
    if is_letter(b) {
        return 1 + word_length(rest);
    }
    if is_digit(b) {
        return 1 + number_length(rest);
    }
    if begins_with_mark(text, 2) {
        return 2;
    }
    if begins_with_mark(text, 1) {
        return 1;
    }
    0
}

/// Whether the first `n` bytes are a mark.
fn begins_with_mark(text: &[u8], n: usize) -> bool
    ensures { result ≡ (nat_le n (length text.now) && is_some (place_of marks (take n text.now))) }
{
    n <= text.len() && is_mark(front(text, n))
}
