ghost use Rattle.std.specs.Prelude.{◌≡◌, ◌≤◌, length, take, drop, slice_index};
ghost use Rattle.vert_lex.specs.Text.{is_blank, is_comment};
ghost use Rattle.vert_lex.specs.Tokens.{is_letter, is_digit, is_word};

pub(crate) fn is_letter(b: u8) -> bool
    ensures { result ≡ is_letter b }
{
    b == b'_' || (b'a' <= b && b <= b'z') || (b'A' <= b && b <= b'Z')
}

pub(crate) fn is_digit(b: u8) -> bool
    ensures { result ≡ is_digit b }
{
    b'0' <= b && b <= b'9'
}

/// Whether a byte may stand in a word behind its first byte.
pub(crate) fn is_word(b: u8) -> bool
    ensures { result ≡ is_word b }
{
    is_letter(b) || is_digit(b)
}

pub(crate) fn is_blank(b: u8) -> bool
    ensures { result ≡ is_blank b }
{
    b == b' ' || b == b'\t' || b == b'\r' || b == b'\n'
}

/// Whether a comment begins with this byte, given the bytes behind it.
pub(crate) fn is_comment(b: u8, others: &[u8]) -> bool
    ensures { result ≡ is_comment b others.now }
{
    b == b'/' && first(others) == b'/'
}

/// The first byte, or 0 where there is none.
pub(crate) fn first(text: &[u8]) -> u8
    ensures { result ≡ slice_index text.now 0 }
{
    match text {
        [] => 0,
        [b, ..] => *b,
    }
}

/// The bytes behind the first `n`.
pub(crate) fn skip(text: &[u8], n: usize) -> &[u8]
    requires { n ≤ length text.now }
    ensures { result.now ≡ drop n text.now }
{
    &text[n..]
}

/// The first `n` bytes.
pub(crate) fn front(text: &[u8], n: usize) -> &[u8]
    requires { n ≤ length text.now }
    ensures { result.now ≡ take n text.now }
{
    &text[..n]
}
