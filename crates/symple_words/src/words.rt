ghost use Rattle.std.specs.Prelude.{◌≡◌, Ok, Some, None, IfOk, IfErr};
ghost use Rattle.symple_words.specs.Answers.{Faults, Refuses};
ghost use Rattle.symple_words.specs.Lines.{line_from, line_of};
ghost use Rattle.symple_words.specs.Ranges.{IsWithin};
ghost use Rattle.symple_words.specs.Readings.{given_of};
ghost use Rattle.symple_words.specs.Views.{line_view, words_of};

use crate::commands::{
    demo_line, free_line, plan_line, record_line, renew_line, replay_line, resume_line, run_line,
    show_line, split_line, worker_line,
};
use crate::fault::WordFault;
use crate::line::Line;
use crate::reading::{Reading, reading_of};
use crate::verb::{Verb, verb_of};
use std::alloc::Global;

/// The line of a command.
fn line_behind(alloc: Global, verb: Verb, reading: &Reading) -> Result<Line, WordFault>
    ensures ok { IfOk result (λ line. line_from verb (given_of reading.now)
        ≡ Some (line_view line)) }
    ensures err { IfErr result (Refuses (line_from verb (given_of reading.now) ≡ None)) }
{
    match verb {
        Verb::Run => run_line(alloc, reading),
        Verb::Record => record_line(alloc, reading),
        Verb::Replay => replay_line(alloc, reading),
        Verb::Resume => resume_line(alloc, reading),
        Verb::Show => show_line(alloc, reading),
        Verb::Free => free_line(alloc, reading),
        Verb::Plan => plan_line(alloc, reading),
        Verb::Demo => demo_line(reading),
        Verb::Renew => renew_line(alloc, reading),
        Verb::Split => split_line(alloc, reading),
        Verb::Worker => worker_line(alloc, reading),
    }
}

/// Reads the words of a command line, without the program's own name.
pub fn read_words(alloc: Global, words: &[String]) -> Result<Line, WordFault>
    ensures read { IfOk result (λ line. line_of (words_of words.now) ≡ Ok (line_view line)) }
    ensures within { IfOk result (λ line. IsWithin (line_view line)) }
    ensures refused { IfErr result (Faults (line_of (words_of words.now))) }
{
    let Some(first) = words.first() else {
        return Err(WordFault::Command);
    };
    let Some(verb) = verb_of(first.as_str()) else {
        return Err(WordFault::Command);
    };
    let reading = reading_of(alloc, verb, words)?;
    line_behind(alloc, verb, &reading)
}
