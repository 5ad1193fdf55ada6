ghost use Rattle.std.specs.Prelude.{◌≡◌, ◌≤◌, ◌*◌, ◌++◌, OnOk, length};
ghost use Rattle.std.specs.List.{flat_map, list_all};
ghost use Rattle.dep_layout.specs.Spelling.{are_typed, suits, word_bytes};
ghost use Rattle.dep_layout.specs.Judgement.{rows_in, word_of, words_in};

use crate::lay_words;
use crate::state::Words;
use vert_base::Want;

// The word that eight bytes spell.
#[tactic(auto, unfolding(crate::specs::Judgement::word_of))]
fn word_of(bytes: &[u8]) -> i64
    requires { length bytes.now ≡ 8 }
    ensures { result ≡ word_of bytes.now }
{
    i64::from_le_bytes([
        bytes[0], bytes[1], bytes[2], bytes[3], bytes[4], bytes[5], bytes[6], bytes[7],
    ])
}

// Whether a word is a Bool, where the lowest bit says that it must be.
fn suits(bools: u32, word: i64) -> bool
    ensures { result ≡ suits bools word }
{
    bools % 2 == 0 || word == 0 || word == 1
}

// Whether the words of a row, at the front of bytes, are Bools where they must be.
fn is_typed(bytes: &[u8], width: usize, bools: u32) -> bool
    requires { 8 * width ≤ length bytes.now }
    ensures { result ≡ are_typed bools (words_in width bytes.now) }
{
    let mut rest = bytes;
    let mut left = bools;
    'words: for _ in 0..width {
        let (word, others) = rest.split_at(8);
        if !suits(left, word_of(word)) {
            return false;
        }
        left /= 2;
        rest = others;
    }
    true
}

/// Whether the words of so many rows are Bools where they must be. It takes no memory.
pub fn are_typed(words: &[u8], rows: usize, width: usize, bools: u32) -> bool
    requires { 8 * width * rows ≤ length words.now }
    ensures { result ≡ list_all (are_typed bools) (rows_in width rows words.now) }
{
    let mut rest = words;
    'rows: for _ in 0..rows {
        if !is_typed(rest, width, bools) {
            return false;
        }
        let (_, others) = rest.split_at(8 * width);
        rest = others;
    }
    true
}

/// The words at the front of bytes.
pub(crate) fn read_words<const W: usize>(bytes: &[u8]) -> Words<W>
    requires { 8 * W ≤ length bytes.now }
    ensures { result.at ≡ words_in W bytes.now }
{
    let mut at = [0; W];
    let mut rest = bytes;
    for i in 0..W {
        let (word, others) = rest.split_at(8);
        at[i] = word_of(word);
        rest = others;
    }
    Words { at }
}

/// Writes the words of a state at the end of bytes.
#[tactic(auto, unfolding(crate::specs::Spelling::word_bytes))]
pub(crate) fn push_words<const W: usize>(bytes: &mut Vec<u8>, words: &Words<W>) -> Result<(), Want>
    ensures { OnOk result (bytes.new.items ≡ bytes.old.items ++ flat_map word_bytes words.now.at) }
{
    lay_words!(bytes, &words.at);
    Ok(())
}
