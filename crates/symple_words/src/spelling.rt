ghost use Rattle.std.specs.Prelude.{◌≡◌, ◌<◌, ◌+◌, ◌^◌, option_map, OnOk, IfOk, is_some};
ghost use Rattle.symple_words.specs.Spelling.{option_move, place_move, next_move, advanced, is_whole, given_by};
ghost use Rattle.symple_words.specs.Views.{form_of, move_view, tally_view, texts, words_of};

use crate::form::Form;
use crate::text::{has, is_plain, option_of};
use std::alloc::{AllocError, Global};

/// What a word does.
pub(crate) enum Move<'a> {
    /// A name gets its value.
    Gives(&'a str, &'a str),
    /// An option waits for its value, which is the next word.
    Waits(&'a str),
    /// A positional gets its word.
    Places(&'a str, &'a str),
}

/// The names that were read, the option that waits for its value, and how many positionals were read.
#[derive(Drop)]
pub(crate) struct Tally<'a> {
    pub names: Vec<&'a str>,
    pub waiting: Option<&'a str>,
    pub count: usize,
}

/// What an option does behind the names that were read.
fn option_move<'a>(
    form: &Form,
    names: &[&'a str],
    name: &'a str,
    value: Option<&'a str>,
) -> Option<Move<'a>>
    ensures { option_map move_view result
        ≡ option_move (form_of form.now) (texts names.now) name.now
        (option_map (λ text. text.now) value.entry) }
{
    if has(name, names) {
        return None;
    }
    if has(name, form.options) {
        return match value {
            None => Some(Move::Waits(name)),
            Some(text) if is_plain(text) => Some(Move::Gives(name, text)),
            Some(_) => None,
        };
    }
    if has(name, form.flags) && value.is_none() {
        Some(Move::Gives(name, "true"))
    } else {
        None
    }
}

/// What a word does that is no option, behind so many positionals.
fn place_move<'a>(form: &Form, count: usize, word: &'a str) -> Option<Move<'a>>
    ensures { option_map move_view result ≡ place_move (form_of form.now) count word.now }
{
    if !is_plain(word) {
        return None;
    }
    match form.positionals.get(count) {
        Some(name) => Some(Move::Places(*name, word)),
        None => None,
    }
}

/// What the next word does.
fn next_move<'a>(form: &Form, tally: &Tally<'a>, word: &'a str) -> Option<Move<'a>>
    ensures { option_map move_view result
        ≡ next_move (form_of form.now) (tally_view tally.now) word.now }
{
    if let Some(name) = tally.waiting {
        return if is_plain(word) {
            Some(Move::Gives(name, word))
        } else {
            None
        };
    }
    match option_of(word) {
        Some((name, value)) => option_move(form, tally.names.as_slice(), name, value),
        None => place_move(form, tally.count, word),
    }
}

fn advance<'a>(tally: &mut Tally<'a>, step: Move<'a>) -> Result<(), AllocError>
    requires { tally.old.count + 1 < 2 ^ 64 }
    ensures { OnOk result (tally_view tally.new
        ≡ advanced (tally_view tally.old) (move_view step.entry)) }
{
    match step {
        Move::Gives(name, _) => {
            tally.names.push(name)?;
            tally.waiting = None;
            Ok(())
        }
        Move::Waits(name) => {
            tally.waiting = Some(name);
            Ok(())
        }
        Move::Places(name, _) => {
            tally.names.push(name)?;
            tally.waiting = None;
            tally.count += 1;
            Ok(())
        }
    }
}

/// Whether no option waits, and the positionals are as many as named.
fn is_whole(form: &Form, tally: &Tally) -> bool
    ensures { result ≡ is_whole (form_of form.now) (tally_view tally.now).waiting
        (tally_view tally.now).count }
{
    tally.waiting.is_none() && tally.count == form.positionals.len()
}

/// Whether the words behind a command are spelt as its form says.
pub(crate) fn is_spelt(alloc: Global, form: &Form, words: &[String]) -> Result<bool, AllocError>
    ensures { IfOk result (λ spelt.
        spelt ≡ is_some (given_by (form_of form.now) (words_of words.now))) }
{
    let mut tally = Tally {
        names: Vec::new(alloc),
        waiting: None,
        count: 0,
    };
    for word in words {
        match next_move(form, &tally, word.as_str()) {
            Some(step) => advance(&mut tally, step)?,
            None => return Ok(false),
        }
    }
    Ok(is_whole(form, &tally))
}
