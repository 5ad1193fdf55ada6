ghost use Rattle.std.specs.Prelude.{◌≡◌, option_map};
ghost use Rattle.std.specs.List.{list_all};
ghost use Rattle.symple_words.specs.Numbers.{is_number, number_in, number_if, number_or};
ghost use Rattle.vert_base.specs.Digits.{is_digit};

/// The most digits of a number.
const DIGITS: usize = 20;

fn all_digits(text: &[u8]) -> bool
    ensures { result ≡ list_all is_digit text.now }
{
    for byte in text {
        if *byte < b'0' || *byte > b'9' {
            return false;
        }
    }
    true
}

/// Whether a text is 1 to 20 decimal digits.
fn is_number(text: &str) -> bool
    ensures { result ≡ is_number text.now }
{
    1 <= text.len() && text.len() <= DIGITS && all_digits(text.as_bytes())
}

/// The number that a text says, where it is in the range.
pub(crate) fn number_in(low: u64, high: u64, text: &str) -> Option<u64>
    ensures { result ≡ number_in low high text.now }
{
    if !is_number(text) {
        return None;
    }
    match text.parse::<u64>() {
        Ok(number) => {
            if low <= number && number <= high {
                Some(number)
            } else {
                None
            }
        }
        Err(_) => None,
    }
}

/// A number that may be left out.
pub(crate) fn number_if(low: u64, high: u64, text: Option<&str>) -> Option<Option<u64>>
    ensures { result ≡ number_if low high (option_map (λ digits. digits.now) text.entry) }
{
    match text {
        None => Some(None),
        Some(text) => match number_in(low, high, text) {
            Some(number) => Some(Some(number)),
            None => None,
        },
    }
}

/// A number, or another one where it is left out.
pub(crate) fn number_or(other: u64, low: u64, high: u64, text: Option<&str>) -> Option<u64>
    ensures { result ≡ number_or other low high (option_map (λ digits. digits.now) text.entry) }
{
    match text {
        None => Some(other),
        Some(text) => number_in(low, high, text),
    }
}
