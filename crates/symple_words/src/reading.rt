ghost use Rattle.std.specs.Prelude.{◌≡◌, ◌<◌, length, drop, None, IfOk, IfErr};
ghost use Rattle.symple_words.specs.Answers.{ReadsAs, Refuses};
ghost use Rattle.symple_words.specs.Commands.{form_for};
ghost use Rattle.symple_words.specs.Spelling.{given_by};
ghost use Rattle.symple_words.specs.Views.{form_of, words_of};

use crate::asked::command_for;
use crate::fault::WordFault;
use crate::form::Form;
use crate::spelling::is_spelt;
use crate::verb::{Verb, form_for};
use clap::ArgMatches;
use clap::error::ErrorKind;
use std::alloc::Global;

/// Words behind a command that are spelt as its form says, and what clap found in them.
///
/// The code asks `matches` alone; `form` and `words` are there for what is proved of it.
#[derive(Drop)]
pub(crate) struct Reading<'a> {
    pub form: Form,
    pub words: &'a [String],
    pub matches: ArgMatches<'a>,
    pub ghost reads: { ReadsAs (form_of form) (words_of words.now) matches },
}

/// Reads words, of which the first names the command.
pub(crate) fn reading_of<'a>(
    alloc: Global,
    verb: Verb,
    words: &'a [String],
) -> Result<Reading<'a>, WordFault>
    requires some { 0 < length words.now }
    ensures form { IfOk result (λ r. form_of r.form ≡ form_for verb) }
    ensures words { IfOk result (λ r. words_of r.words.now ≡ words_of (drop 1 words.now)) }
    ensures refused { IfErr result (Refuses (given_by (form_for verb) (words_of (drop 1 words.now))
        ≡ None)) }
{
    let form = form_for(verb);
    let behind = &words[1..];
    if !is_spelt(alloc, &form, behind)? {
        return Err(WordFault::Words);
    }
    let command = command_for(alloc, "symple", &form)?;
    match command.try_get_matches_from(words) {
        Ok(matches) => Ok(Reading {
            form,
            words: behind,
            matches,
        }),
        Err(error) => {
            if error.kind() == ErrorKind::OutOfMemory {
                Err(WordFault::Want)
            } else {
                Err(WordFault::Words)
            }
        }
    }
}
