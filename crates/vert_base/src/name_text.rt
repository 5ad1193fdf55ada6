ghost use Rattle.std.specs.Prelude.{◌≡◌, ◌≤◌, ◌<◌, ◌^◌, ◌++◌, ℕ, true, IfSome, List, decimal, length, take, drop, Some};
ghost use Rattle.std.specs.Option.{IsSomeAnd};
ghost use Rattle.std.specs.Str.Parse.{AllDigits, digits_value};
ghost use Rattle.vert_base.specs.declared.message.Name.{Name};
ghost use Rattle.vert_base.specs.declared.message.NameKind.{NameKind};
ghost use Rattle.vert_base.specs.HeaderBytes.{has_steps};
ghost use Rattle.vert_base.specs.NameTexts.{IsName, kind_text, name_text, number_text, numbers_text, numbers_behind, roundless_text};
ghost use Rattle.vert_base.specs.NameReading.{EndsNumber, are_proper, letter_of, steps_text};

use crate::message::{Name, NameKind};

impl NameKind {
    /// The kind's word in a text.
    pub fn word(self) -> &'static [u8]
        ensures { result.now ≡ kind_text self }
    {
        match self {
            NameKind::Refresh => b"refresh",
            NameKind::Dep => b"dep",
            NameKind::Update => b"update",
            NameKind::Push => b"push",
            NameKind::Tally => b"tally",
            NameKind::Verdict => b"verdict",
        }
    }

    /// Whether messages of the kind have a step and a half.
    pub fn has_steps(self) -> bool
        ensures { result ≡ has_steps self }
    {
        matches!(self, NameKind::Dep | NameKind::Update)
    }
}

impl Name {
    /// The name that a text spells whole, as in the lines of logs.
    pub fn from_text(text: &[u8]) -> Option<Name>
        ensures spelled { IfSome result (λ x. IsName x × (name_text x ≡ text.now)) }
        ensures found { (x : Name) → IsName x → name_text x ≡ text.now → result ≡ Some x }
    {
        let (kind, numbers) = kind_at(text)?;
        let (round, numbers) = number_at(numbers)?;
        name_at(kind, round, numbers)
    }

    /// The name of a round that a text spells without the round.
    pub fn from_roundless(round: u32, text: &[u8]) -> Option<Name>
        ensures round { IfSome result (λ x. x.round ≡ round) }
        ensures spelled { IfSome result (λ x. IsName x × (roundless_text x ≡ text.now)) }
        ensures found { (x : Name) → IsName x → x.round ≡ round → roundless_text x ≡ text.now →
            result ≡ Some x }
    {
        let (kind, numbers) = kind_at(text)?;
        name_at(kind, round, numbers)
    }
}

/// The number that a word spells in decimal, without leading zeros.
pub fn number_in(word: &[u8]) -> Option<u32>
    ensures spelled { IfSome result (λ number. decimal number ≡ word.now) }
    ensures found { (number : ℕ) → number < 2 ^ 32 → decimal number ≡ word.now →
        result ≡ Some number }
{
    if word.is_empty() || word.len() > 1 && word[0] == b'0' {
        return None;
    }
    value_of(word)
}

// The value of digits, where the word is nothing else.
fn value_of(word: &[u8]) -> Option<u32>
    ensures value { IfSome result
        (λ value. AllDigits 10 word.now × (digits_value 10 word.now ≡ value) × (value < 2 ^ 32)) }
    ensures found { AllDigits 10 word.now → digits_value 10 word.now < 2 ^ 32 →
        result ≡ Some (digits_value 10 word.now) }
{
    let mut value: u64 = 0;
    'digits: for byte in word {
        if !byte.is_ascii_digit() {
            return None;
        }
        value = value * 10 + u64::from(*byte - b'0');
        if value > u64::from(u32::MAX) {
            return None;
        }
    }
    Some(value as u32)
}

// How many digits stand at the front.
fn digits_at(text: &[u8]) -> usize
    ensures within { result ≤ length text.now }
    ensures digits { AllDigits 10 (take result text.now) }
    ensures end { EndsNumber (drop result text.now) }
{
    let mut count = 0;
    'digits: while count < text.len() && text[count].is_ascii_digit() {
        count += 1;
    }
    count
}

// The number behind a space at the front, and what stands behind it.
fn number_at(text: &[u8]) -> Option<(u32, &[u8])>
    ensures spelled { IfSome result (λ read. text.now ≡ number_text read.0 ++ read.1.now) }
    ensures found { (number : ℕ) (rest : List ℕ) → number < 2 ^ 32 → EndsNumber rest →
        text.now ≡ number_text number ++ rest →
        IsSomeAnd result (λ read. (read.0 ≡ number) × (read.1.now ≡ rest)) }
{
    if text.is_empty() || text[0] != b' ' {
        return None;
    }
    let (_, digits) = text.split_at(1);
    let (word, rest) = digits.split_at(digits_at(digits));
    Some((number_in(word)?, rest))
}

// The same of a number that a byte holds.
fn byte_at(text: &[u8]) -> Option<(u8, &[u8])>
    ensures spelled { IfSome result (λ read. text.now ≡ number_text read.0 ++ read.1.now) }
    ensures found { (number : ℕ) (rest : List ℕ) → number < 256 → EndsNumber rest →
        text.now ≡ number_text number ++ rest →
        IsSomeAnd result (λ read. (read.0 ≡ number) × (read.1.now ≡ rest)) }
{
    let (number, rest) = number_at(text)?;
    if number > 255 {
        return None;
    }
    Some((number as u8, rest))
}

// The kind with a first letter.
fn kind_with(letter: u8) -> Option<NameKind>
    ensures { (kind : NameKind) → letter_of kind ≡ letter → result ≡ Some kind }
{
    match letter {
        b'r' => Some(NameKind::Refresh),
        b'd' => Some(NameKind::Dep),
        b'u' => Some(NameKind::Update),
        b'p' => Some(NameKind::Push),
        b't' => Some(NameKind::Tally),
        b'v' => Some(NameKind::Verdict),
        _ => None,
    }
}

// The kind whose word stands at the front, and what stands behind it.
fn kind_at(text: &[u8]) -> Option<(NameKind, &[u8])>
    ensures spelled { IfSome result (λ read. text.now ≡ kind_text read.0 ++ read.1.now) }
    ensures found { (kind : NameKind) (rest : List ℕ) → text.now ≡ kind_text kind ++ rest →
        IsSomeAnd result (λ read. (read.0 ≡ kind) × (read.1.now ≡ rest)) }
{
    if text.is_empty() {
        return None;
    }
    let kind = kind_with(text[0])?;
    let rest = text.strip_prefix(kind.word())?;
    Some((kind, rest))
}

// The name of which the kind and the round are read, and the other numbers are the whole text.
fn name_at(kind: NameKind, round: u32, text: &[u8]) -> Option<Name>
    ensures kind { IfSome result (λ x. (x.kind ≡ kind) × (x.round ≡ round)) }
    ensures spelled { IfSome result (λ x. IsName x × (numbers_text (numbers_behind x) ≡ text.now)) }
    ensures found { (x : Name) → IsName x → x.kind ≡ kind → x.round ≡ round →
        numbers_text (numbers_behind x) ≡ text.now → result ≡ Some x }
{
    let (step, half, ends) = steps_at(kind, text)?;
    let (from, ends) = byte_at(ends)?;
    let (to, behind) = byte_at(ends)?;
    if !behind.is_empty() {
        return None;
    }
    Some(Name {
        kind,
        round,
        step,
        half,
        from,
        to,
    })
}

// The step and the half of a kind that has them, each 0 for another, and what stands behind them.
fn steps_at(kind: NameKind, text: &[u8]) -> Option<(u8, u8, &[u8])>
    ensures spelled { IfSome result (λ read.
        (text.now ≡ steps_text kind read.0 read.1 ++ read.2.now)
        × (are_proper kind read.0 read.1 ≡ true)) }
    ensures found { (step half : ℕ) (rest : List ℕ) → step < 256 → half < 256 → EndsNumber rest →
        are_proper kind step half ≡ true → text.now ≡ steps_text kind step half ++ rest →
        IsSomeAnd result (λ read. (read.0 ≡ step) × (read.1 ≡ half) × (read.2.now ≡ rest)) }
{
    if !kind.has_steps() {
        return Some((0, 0, text));
    }
    let (step, behind) = byte_at(text)?;
    let (half, behind) = byte_at(behind)?;
    Some((step, half, behind))
}
