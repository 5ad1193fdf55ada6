ghost use Rattle.std.specs.Prelude.{◌≡◌, option_map, map};
ghost use Rattle.symple_words.specs.Texts.{is_plain, after_hyphen, name_and_value, option_of, has};

/// Whether a word may be a positional or a value.
pub(crate) fn is_plain(word: &str) -> bool
    ensures { result ≡ is_plain word.now }
{
    match word.as_bytes() {
        [] => false,
        [byte, ..] => *byte != b'-',
    }
}

/// What follows a first hyphen.
fn after_hyphen(word: &str) -> Option<&str>
    ensures { option_map (λ rest. rest.now) result ≡ after_hyphen word.now }
{
    word.strip_prefix('-')
}

/// What stands before the first `=`, and what stands behind it.
fn name_and_value(text: &str) -> (&str, Option<&str>)
    ensures { (result.0.now, option_map (λ value. value.now) result.1) ≡ name_and_value text.now }
{
    match text.split_once('=') {
        Some((name, value)) => (name, Some(value)),
        None => (text, None),
    }
}

/// The name and the value of `--NAME` or `--NAME=VALUE`.
pub(crate) fn option_of(word: &str) -> Option<(&str, Option<&str>)>
    ensures { option_map (λ p. (p.0.now, option_map (λ value. value.now) p.1)) result
        ≡ option_of word.now }
{
    let rest = after_hyphen(after_hyphen(word)?)?;
    if rest.is_empty() {
        return None;
    }
    Some(name_and_value(rest))
}

/// Whether a name is one of these.
pub(crate) fn has(name: &str, names: &[&str]) -> bool
    ensures { result ≡ has name.now (map (λ other. other.now) names.now) }
{
    for other in names {
        if *other == name {
            return true;
        }
    }
    false
}
