ghost use Rattle.std.specs.Prelude.{◌≡◌, ◌<◌, ◌≤◌, [], ◌∷◌, length, map, MatchOption, IfSome};
ghost use Rattle.std.specs.List.{position_or_len};
ghost use Rattle.std.specs.Option.{option_map};
ghost use Rattle.edge_reader.specs.Lines.{is_line_end, lines_of, without_return, weight_of, capped, is_comment, entry_of_line};

use crate::entry::{Entry, Weight};
use crate::words::{HUGE, SHORT, blank, next_word, number, short_number};

/// How long the first line is, without its line feed.
fn line_len(bytes: &[u8]) -> usize
    ensures value { result ≡ position_or_len is_line_end bytes.now }
    ensures within { result ≤ length bytes.now }
{
    for (i, byte) in bytes.iter().enumerate() {
        if *byte == b'\n' {
            return i;
        }
    }
    bytes.len()
}

/// The first line without its line feed, where there is one, and what stands behind it.
pub fn next_line(bytes: &[u8]) -> Option<(&[u8], &[u8])>
    ensures lines { MatchOption result (lines_of bytes.now ≡ []) (λ found.
        lines_of bytes.now ≡ found.0.now ∷ lines_of found.1.now) }
    ensures shorter { IfSome result (λ found. length found.1.now < length bytes.now) }
{
    if bytes.is_empty() {
        return None;
    }
    let (line, rest) = bytes.split_at(line_len(bytes));
    if rest.is_empty() {
        return Some((line, rest));
    }
    Some((line, &rest[1..]))
}

/// The line without a carriage return at its end.
fn trimmed(line: &[u8]) -> &[u8]
    ensures { result.now ≡ without_return line.now }
{
    match line {
        [front @ .., b'\r'] => front,
        _ => line,
    }
}

fn begins_comment(word: &[u8]) -> bool
    ensures { result ≡ is_comment word.now }
{
    matches!(word, [b'#', ..])
}

/// The weight that a word says, where it is one.
fn weight(word: &[u8]) -> Option<Weight>
    ensures { result ≡ option_map (capped HUGE) (weight_of word.now) }
{
    match word {
        [b'-', digits @ ..] => number(digits).map(|size| Weight {
            negative: true,
            size,
        }),
        _ => number(word).map(|size| Weight {
            negative: false,
            size,
        }),
    }
}

/// What a line without its line feed says.
pub fn read_line(line: &[u8]) -> Entry
    ensures { result ≡ entry_of_line line.now }
{
    let Some((from, rest)) = next_word(trimmed(line)) else {
        return Entry::Skipped;
    };
    if begins_comment(from) {
        return Entry::Skipped;
    }
    let Some((to, rest)) = next_word(rest) else {
        return Entry::Malformed;
    };
    let Some((last, rest)) = next_word(rest) else {
        return Entry::from_numbers(number(from), number(to), Some(Weight::ONE));
    };
    match next_word(rest) {
        Some(_) => Entry::Malformed,
        None => Entry::from_numbers(number(from), number(to), weight(last)),
    }
}

/// What a line of two short numbers with one blank between them says, as most lines are, and what
/// stands behind its line feed. Nothing is said of other lines, nor of one near the end of the text.
#[inline]
fn plain_line(bytes: &[u8]) -> Option<(Entry, &[u8])>
    ensures entries { IfSome result (λ found. map entry_of_line (lines_of bytes.now) ≡ found.0
        ∷ map entry_of_line (lines_of found.1.now)) }
    ensures shorter { IfSome result (λ found. length found.1.now < length bytes.now) }
{
    if bytes.len() < 2 * SHORT {
        return None;
    }
    let (from, separator, rest) = short_number(bytes)?;
    if !blank(separator) {
        return None;
    }
    let (to, end, rest) = short_number(rest)?;
    if end != b'\n' {
        return None;
    }
    let entry = Entry::from_numbers(Some(from as u64), Some(to as u64), Some(Weight::ONE));
    Some((entry, rest))
}

/// What the first line says, where there is one, and what stands behind it.
pub fn next_entry(bytes: &[u8]) -> Option<(Entry, &[u8])>
    ensures entries { MatchOption result (lines_of bytes.now ≡ []) (λ found.
        map entry_of_line (lines_of bytes.now) ≡ found.0
        ∷ map entry_of_line (lines_of found.1.now)) }
    ensures shorter { IfSome result (λ found. length found.1.now < length bytes.now) }
{
    if let Some(found) = plain_line(bytes) {
        return Some(found);
    }
    let (line, rest) = next_line(bytes)?;
    Some((read_line(line), rest))
}
