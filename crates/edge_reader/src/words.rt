ghost use Rattle.std.specs.Prelude.{◌≡◌, ◌<◌, ◌≤◌, ◌+◌, ◌-◌, true, [], ◌∷◌, length, min, IfSome, MatchOption};
ghost use Rattle.std.specs.List.{position_or_len};
ghost use Rattle.std.specs.Option.{option_map};
ghost use Rattle.edge_reader.specs.declared.words.TheConstants.{SHORT};
ghost use Rattle.edge_reader.specs.Words.{BeginsWith, is_blank, is_word_byte, words_of, number_of};
ghost use Rattle.vert_base.specs.Digits.{is_digit};

/// Above every number that a file may hold. Larger ones are read as this one.
pub const HUGE: u64 = 1 << 40;

/// A space or a tab.
#[inline]
pub fn blank(byte: u8) -> bool
    ensures { result ≡ is_blank byte }
{
    byte == b' ' || byte == b'\t'
}

/// How many blanks stand in front.
fn blanks(text: &[u8]) -> usize
    ensures value { result ≡ position_or_len is_word_byte text.now }
    ensures within { result ≤ length text.now }
{
    for (i, byte) in text.iter().enumerate() {
        if !blank(*byte) {
            return i;
        }
    }
    text.len()
}

/// How long the word in front is.
fn word_len(text: &[u8]) -> usize
    ensures value { result ≡ position_or_len is_blank text.now }
    ensures within { result ≤ length text.now }
{
    for (i, byte) in text.iter().enumerate() {
        if blank(*byte) {
            return i;
        }
    }
    text.len()
}

/// The first word, where there is one, and what stands behind it.
pub fn next_word(text: &[u8]) -> Option<(&[u8], &[u8])>
    ensures { MatchOption result (words_of text.now ≡ []) (λ found.
        words_of text.now ≡ found.0.now ∷ words_of found.1.now) }
{
    let front = &text[blanks(text)..];
    if front.is_empty() {
        return None;
    }
    Some(front.split_at(word_len(front)))
}

/// The number that a word says, where it is digits.
pub fn number(word: &[u8]) -> Option<u64>
    ensures { result ≡ option_map (λ value. min value HUGE) (number_of word.now) }
{
    if word.is_empty() {
        return None;
    }
    let mut value = 0u64;
    for byte in word {
        if !byte.is_ascii_digit() {
            return None;
        }
        value = (value * 10 + u64::from(*byte - b'0')).min(HUGE);
    }
    Some(value)
}

/// The value of a digit.
#[inline]
fn digit_value(byte: u8) -> Option<u32>
    ensures digit { IfSome result (λ value. is_digit byte ≡ true) }
    ensures value { IfSome result (λ value. value ≡ byte - 48) }
    ensures small { IfSome result (λ value. value < 10) }
{
    // The difference alone tells digits from all other bytes: one comparison serves.
    let value = u32::from(byte).wrapping_sub(u32::from(b'0'));
    if value > 9 {
        return None;
    }
    Some(value)
}

/// How many bytes a short number has at most, with the one behind it.
pub const SHORT: usize = 8;

/// The digits in front as a number, where there are some and so few that it can't grow too large,
/// the byte behind them, and what stands behind that byte.
#[inline]
pub fn short_number(text: &[u8]) -> Option<(u32, u8, &[u8])>
    requires { SHORT ≤ length text.now }
    ensures says { IfSome result (λ found. BeginsWith text.now found.0 (found.1 ∷ found.2.now)) }
    ensures short { IfSome result (λ found. length text.now ≤ length found.2.now + SHORT) }
    ensures shorter { IfSome result (λ found. length found.2.now < length text.now) }
{
    let mut value = 0u32;
    for i in 0..SHORT {
        let byte = text[i];
        let Some(digit) = digit_value(byte) else {
            if i == 0 {
                return None;
            }
            return Some((value, byte, &text[i + 1..]));
        };
        value = value * 10 + digit;
    }
    None
}
