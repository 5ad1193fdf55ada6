ghost use Rattle.std.specs.Prelude.{◌≡◌, false, true, Some, None, IfOk, IfErr, option_map};
ghost use Rattle.std.specs.String.{string_bytes};
ghost use Rattle.symple_words.specs.Answers.{flag_names, Refuses};
ghost use Rattle.symple_words.specs.Lines.{draws_from, graph_form_from, job_from, lines_from, machines_from, machines_or_four, seed_from};
ghost use Rattle.symple_words.specs.Readings.{given_of};
ghost use Rattle.symple_words.specs.Spelling.{has_given, value_at};
ghost use Rattle.symple_words.specs.Texts.{has};
ghost use Rattle.symple_words.specs.Views.{job_view};

use crate::fault::WordFault;
use crate::line::{GraphForm, Job, Lines};
use crate::number::{number_if, number_in, number_or};
use crate::reading::Reading;
use std::alloc::Global;
use vert_base::limits::{MACHINES, VERTICES};

/// How many machines `demo` has where the line doesn't say it.
const DEMO_MACHINES: u64 = 4;

/// The word at a positional or an option.
pub(crate) fn value<'a>(reading: &Reading<'a>, name: &str) -> Option<&'a str>
    requires { has name.now flag_names ≡ false }
    ensures { option_map (λ text. text.now) result ≡ value_at name.now (given_of reading.now) }
{
    reading.matches.get_str(name)
}

/// Whether a flag is given.
pub(crate) fn flag(reading: &Reading, name: &str) -> bool
    requires { has name.now flag_names ≡ true }
    ensures { result ≡ has_given name.now (given_of reading.now) }
{
    reading.matches.get_flag(name)
}

/// A part of a line, which has to be there.
pub(crate) fn found<T: Drop>(part: Option<T>) -> Result<T, WordFault>
    ensures ok { IfOk result (λ value. part ≡ Some value) }
    ensures err { IfErr result (λ fault. (fault ≡ WordFault.Words) × (part ≡ None)) }
{
    match part {
        Some(value) => Ok(value),
        None => Err(WordFault::Words),
    }
}

fn copied(alloc: Global, text: &str) -> Result<String, WordFault>
    ensures ok { IfOk result (λ copy. string_bytes copy ≡ text.now) }
    ensures err { IfErr result (λ fault. fault ≡ WordFault.Want) }
{
    match String::from_str(alloc, text) {
        Ok(copy) => Ok(copy),
        Err(_) => Err(WordFault::Want),
    }
}

/// The word at a positional, which has to be there.
pub(crate) fn name_at(alloc: Global, reading: &Reading, name: &str) -> Result<String, WordFault>
    requires { has name.now flag_names ≡ false }
    ensures ok { IfOk result (λ text. value_at name.now (given_of reading.now)
        ≡ Some (string_bytes text)) }
    ensures err { IfErr result (Refuses (value_at name.now (given_of reading.now) ≡ None)) }
{
    match value(reading, name) {
        Some(text) => copied(alloc, text),
        None => Err(WordFault::Words),
    }
}

/// The word at an option, where there is one.
pub(crate) fn name_if(
    alloc: Global,
    reading: &Reading,
    name: &str,
) -> Result<Option<String>, WordFault>
    requires { has name.now flag_names ≡ false }
    ensures ok { IfOk result (λ copy. value_at name.now (given_of reading.now)
        ≡ option_map (λ text. string_bytes text) copy) }
    ensures err { IfErr result (λ fault. fault ≡ WordFault.Want) }
{
    match value(reading, name) {
        Some(text) => Ok(Some(copied(alloc, text)?)),
        None => Ok(None),
    }
}

/// How the graph is to be read.
pub(crate) fn graph_form_of(reading: &Reading) -> Option<GraphForm>
    ensures { result ≡ graph_form_from (given_of reading.now) }
{
    let vertices = number_if(0, VERTICES as u64, value(reading, "vertices"))?;
    let both = flag(reading, "both");
    let binary = flag(reading, "binary");
    let weighted = flag(reading, "weighted");
    if weighted && !binary || vertices.is_some() && binary {
        return None;
    }
    Some(GraphForm {
        vertices: match vertices {
            Some(number) => Some(number as u32),
            None => None,
        },
        both,
        binary,
        weighted,
    })
}

fn lines_of(reading: &Reading) -> Lines
    ensures { result ≡ lines_from (given_of reading.now) }
{
    Lines {
        rounds: flag(reading, "rounds"),
        reads: flag(reading, "reads"),
        log: flag(reading, "log"),
    }
}

/// How many machines there are.
pub(crate) fn machines_of(reading: &Reading) -> Option<u8>
    ensures { result ≡ machines_from (given_of reading.now) }
{
    let number = number_in(1, MACHINES as u64, value(reading, "machines")?)?;
    Some(number as u8)
}

/// How many machines there are, or 4.
pub(crate) fn machines_or_four(reading: &Reading) -> Option<u8>
    ensures { result ≡ machines_or_four (given_of reading.now) }
{
    let text = value(reading, "machines");
    let number = number_or(DEMO_MACHINES, 1, MACHINES as u64, text)?;
    Some(number as u8)
}

pub(crate) fn draws_of(reading: &Reading) -> Option<u64>
    ensures { result ≡ draws_from (given_of reading.now) }
{
    number_or(0, 0, u64::MAX, value(reading, "draws"))
}

pub(crate) fn seed_of(reading: &Reading) -> Option<u64>
    ensures { result ≡ seed_from (given_of reading.now) }
{
    number_in(0, u64::MAX, value(reading, "seed")?)
}

/// What is run, and on what.
pub(crate) fn job_of(alloc: Global, reading: &Reading) -> Result<Job, WordFault>
    ensures ok { IfOk result (λ job. job_from (given_of reading.now) ≡ Some (job_view job)) }
    ensures err { IfErr result (Refuses (job_from (given_of reading.now) ≡ None)) }
{
    let form = found(graph_form_of(reading))?;
    let lines = lines_of(reading);
    let draws = found(draws_of(reading))?;
    let program = name_at(alloc, reading, "program")?;
    let graph = name_at(alloc, reading, "graph")?;
    Ok(Job {
        program,
        graph,
        form,
        lines,
        draws,
    })
}
