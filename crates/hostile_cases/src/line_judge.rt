//! A second judge of schedules, written from the rules of their texts alone: which line is the
//! first bad one.

use std::alloc::{AllocError, Global};

/// The form of a text whose every line is good, or the number of its first bad line, which is 1 for
/// the header.
#[derive(Clone, Copy, PartialEq, Eq)]
pub enum Verdict {
    Good(u8),
    Bad(u32),
}

/// What a line says by itself.
#[derive(Clone, Copy)]
enum Said {
    Nothing,
    Round(u32),
    Take,
    Other,
}

/// What is known of the lines so far: the round that holds, and the number of a line that tells a
/// round, whose take must come next.
#[derive(Drop)]
struct Lines {
    form: u8,
    held: u32,
    open: Option<u32>,
}

impl Lines {
    /// The number of the first bad line, where this one, of a number, shows it.
    fn bad_line(&mut self, said: Said, number: u32) -> Option<u32> {
        match (self.open, said) {
            (Some(_), Said::Take) => {
                self.open = None;
                None
            }
            (Some(round_line), _) => Some(round_line),
            (None, Said::Nothing) => Some(number),
            (None, Said::Round(round)) if round == self.held => Some(number),
            (None, Said::Round(round)) => {
                self.held = round;
                self.open = Some(number);
                None
            }
            (None, _) => None,
        }
    }
}

/// Judges a text whose form must be within two.
pub fn judge_lines(
    alloc: Global,
    text: &[u8],
    first_form: u8,
    last_form: u8,
) -> Result<Verdict, AllocError> {
    let pieces: Vec<&[u8]> = text.split(|byte| *byte == b'\n').collect(alloc)?;
    let [header, lines @ .., last] = pieces.as_slice() else {
        return Ok(Verdict::Bad(1));
    };
    let form = form_of(&words(alloc, header)?);
    if form < first_form || form > last_form {
        return Ok(Verdict::Bad(1));
    }
    let mut known = Lines {
        form,
        held: 0,
        open: None,
    };
    let mut number = 1u32;
    for line in lines {
        number = number.saturating_add(1);
        let said = said_in(form, &words(alloc, line)?);
        if let Some(bad) = known.bad_line(said, number) {
            return Ok(Verdict::Bad(bad));
        }
    }
    Ok(end_of(&known, last, number.saturating_add(1)))
}

/// The verdict at what stands behind the last line feed, where all lines before it are good.
fn end_of(known: &Lines, last: &[u8], number: u32) -> Verdict {
    match known.open {
        Some(round_line) => Verdict::Bad(round_line),
        None if last.is_empty() => Verdict::Good(known.form),
        None => Verdict::Bad(number),
    }
}

/// The words of a line, which single spaces part. A line that isn't text has none.
fn words(alloc: Global, line: &[u8]) -> Result<Vec<&str>, AllocError> {
    match str::from_utf8(line) {
        Ok(line) => line.split(' ').collect(alloc),
        Err(_) => Ok(Vec::new(alloc)),
    }
}

/// The form that the words of a first line name, or 0.
fn form_of(words: &[&str]) -> u8 {
    let ["schedule", form, "machines", machines] = words else {
        return 0;
    };
    let (form, most) = match *form {
        "1" => (1, 16),
        "2" => (2, 64),
        "3" => (3, 64),
        _ => return 0,
    };
    match number(machines) {
        Some(machines) if machines >= 1 && machines <= most => form,
        _ => 0,
    }
}

fn said_in(form: u8, words: &[&str]) -> Said {
    match words {
        ["go", machine] if is_byte(machine) => Said::Other,
        ["round", round] if form == 2 => match number(round) {
            Some(round) => Said::Round(round),
            None => Said::Nothing,
        },
        ["take", name @ ..] if is_name(form, name) => Said::Take,
        ["lose" | "again" | "ack" | "drop", name @ ..] if form == 3 && is_name(form, name) =>
            Said::Other,
        _ => Said::Nothing,
    }
}

/// Whether words are the name of a message, with its round or, in form 2, without.
fn is_name(form: u8, words: &[&str]) -> bool {
    let (kind, numbers) = match words {
        [kind, numbers @ ..] if form == 2 => (kind, numbers),
        [kind, round, numbers @ ..] if number(round).is_some() => (kind, numbers),
        _ => return false,
    };
    let count = match *kind {
        "refresh" | "push" | "tally" | "verdict" => 2,
        "dep" | "update" => 4,
        _ => return false,
    };
    numbers.len() == count && numbers.iter().all(|word| is_byte(word))
}

/// The number that a word says in decimal, without leading zeros.
fn number(word: &str) -> Option<u32> {
    if word.starts_with('+') || word.starts_with('0') && word != "0" {
        return None;
    }
    word.parse::<u32>().ok()
}

fn is_byte(word: &str) -> bool {
    match number(word) {
        Some(number) => number < 256,
        None => false,
    }
}
