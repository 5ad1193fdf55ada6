ghost use Rattle.std.specs.Prelude.{◌≡◌, ◌≤◌, ◌<◌, ◌^◌, ◌++◌, ℕ, IfSome, List, ◌∷◌, decimal, length, Some};
ghost use Rattle.std.specs.List.{position_or_len};
ghost use Rattle.std.specs.Option.{IsSomeAnd};
ghost use Rattle.vert_base.specs.declared.message.Event.{Event};
ghost use Rattle.vert_base.specs.declared.message.Name.{Name};
ghost use Rattle.vert_base.specs.NameTexts.{IsName};
ghost use Rattle.delivery_log.specs.declared.form.Form.{Form};
ghost use Rattle.delivery_log.specs.ScheduleTexts.{IsEvent, event_lines, go_line, header_line, header_text, most_machines, round_line, take_line, take_lines, text_of};
ghost use Rattle.delivery_log.specs.LineReading.{IsHeader, IsLine, IsRoundFor, TellsRound, is_line_end};

use crate::form::Form;
use vert_base::{Event, Name, number_in};

// How long the first line is, without its line feed.
fn line_len(text: &[u8]) -> usize
    ensures value { result ≡ position_or_len is_line_end text.now }
    ensures within { result ≤ length text.now }
{
    for (i, byte) in text.iter().enumerate() {
        if *byte == b'\n' {
            return i;
        }
    }
    text.len()
}

/// The first line without its line feed, where it has one, and what stands behind it.
pub fn line_at(text: &[u8]) -> Option<(&[u8], &[u8])>
    ensures line { IfSome result (λ read. IsLine read.0.now) }
    ensures spelled { IfSome result (λ read. text.now ≡ read.0.now ++ 10 ∷ read.1.now) }
    ensures found { (line rest : List ℕ) → IsLine line → text.now ≡ line ++ 10 ∷ rest →
        IsSomeAnd result (λ read. (read.0.now ≡ line) × (read.1.now ≡ rest)) }
{
    let (line, rest) = text.split_at(line_len(text));
    if rest.is_empty() {
        return None;
    }
    let (_, behind) = rest.split_at(1);
    Some((line, behind))
}

// The number behind a word, where both are the whole line.
fn number_behind(word: &[u8], line: &[u8]) -> Option<u32>
    ensures spelled { IfSome result (λ number. line.now ≡ word.now ++ decimal number) }
    ensures found { (number : ℕ) → number < 2 ^ 32 → line.now ≡ word.now ++ decimal number →
        result ≡ Some number }
{
    number_in(line.strip_prefix(word)?)
}

// The machines of a first line in a form.
fn machines_in(form: Form, line: &[u8]) -> Option<u8>
    ensures spelled { IfSome result (λ machines. IsHeader form machines line.now) }
    ensures found { (machines : ℕ) → IsHeader form machines line.now → result ≡ Some machines }
{
    let machines = number_behind(form.header(), line)?;
    if machines < 1 || machines > form.most() {
        return None;
    }
    Some(machines as u8)
}

// The form and the machines of a first line.
fn header_in(line: &[u8]) -> Option<(Form, u8)>
    ensures spelled { IfSome result (λ read. IsHeader read.0 read.1 line.now) }
    ensures found { (form : Form) (machines : ℕ) → IsHeader form machines line.now →
        IsSomeAnd result (λ read. (read.0 ≡ form) × (read.1 ≡ machines)) }
{
    if let Some(machines) = machines_in(Form::Whole, line) {
        return Some((Form::Whole, machines));
    }
    Some((Form::Roundless, machines_in(Form::Roundless, line)?))
}

// The machine of a line that says that one goes.
fn machine_in(line: &[u8]) -> Option<u8>
    ensures spelled { IfSome result (λ machine. line.now ≡ go_line machine) }
    ensures found { (machine : ℕ) → machine < 256 → line.now ≡ go_line machine →
        result ≡ Some machine }
{
    let machine = number_behind(b"go ", line)?;
    if machine > 255 {
        return None;
    }
    Some(machine as u8)
}

// The round that a line tells, where it differs from the one that is held. Form 1 tells none.
fn round_in(form: Form, held: u32, line: &[u8]) -> Option<u32>
    ensures spelled { IfSome result (λ round. TellsRound form held round line.now) }
    ensures found { (round : ℕ) → round < 2 ^ 32 → TellsRound form held round line.now →
        result ≡ Some round }
{
    match form {
        Form::Whole => None,
        Form::Roundless => {
            let round = number_behind(b"round ", line)?;
            if round == held {
                return None;
            }
            Some(round)
        }
    }
}

// The name of a message taken, of the round held where the form names none.
fn name_in(form: Form, held: u32, line: &[u8]) -> Option<Name>
    ensures spelled { IfSome result (λ x.
        IsName x × IsRoundFor form held x × (line.now ≡ take_line form x)) }
    ensures found { (x : Name) → IsName x → IsRoundFor form held x → line.now ≡ take_line form x →
        result ≡ Some x }
{
    let text = line.strip_prefix(b"take ")?;
    match form {
        Form::Whole => Name::from_text(text),
        Form::Roundless => Name::from_roundless(held, text),
    }
}

/// The form and the machines of the first line, and what stands behind it.
pub fn header_at(text: &[u8]) -> Option<(Form, u8, &[u8])>
    ensures few { IfSome result (λ read. (1 ≤ read.1) × (read.1 ≤ most_machines read.0)) }
    ensures spelled { IfSome result (λ read.
        text.now ≡ header_line read.0 read.1 ++ 10 ∷ read.2.now) }
    ensures found { (form : Form) (machines : ℕ) (rest : List ℕ) → 1 ≤ machines →
        machines ≤ most_machines form → text.now ≡ header_line form machines ++ 10 ∷ rest →
        IsSomeAnd result (λ read. (read.0 ≡ form) × (read.1 ≡ machines) × (read.2.now ≡ rest)) }
{
    let (line, rest) = line_at(text)?;
    let (form, machines) = header_in(line)?;
    Some((form, machines, rest))
}

// The name of the message taken in the lines at the front, of which the first is read, how many lines
// these are, and what stands behind them.
fn take_at<'a>(
    form: Form,
    held: u32,
    line: &[u8],
    behind: &'a [u8],
) -> Option<(Name, u32, &'a [u8])>
    requires { IsLine line.now }
    ensures name { IfSome result (λ read. IsName read.0) }
    ensures spelled { IfSome result (λ read.
        line.now ++ 10 ∷ behind.now ≡ text_of (take_lines form held read.0) ++ read.2.now) }
    ensures lines { IfSome result (λ read. read.1 ≡ length (take_lines form held read.0)) }
    ensures found { (x : Name) (rest : List ℕ) → IsName x →
        line.now ++ 10 ∷ behind.now ≡ text_of (take_lines form held x) ++ rest →
        IsSomeAnd result (λ read. (read.0 ≡ x) × (read.2.now ≡ rest)) }
{
    match round_in(form, held, line) {
        None => Some((name_in(form, held, line)?, 1, behind)),
        Some(round) => {
            let (line, behind) = line_at(behind)?;
            Some((name_in(form, round, line)?, 2, behind))
        }
    }
}

/// The event in the lines at the front, how many lines these are, and what stands behind them.
pub fn event_at(form: Form, held: u32, text: &[u8]) -> Option<(Event, u32, &[u8])>
    ensures event { IfSome result (λ read. IsEvent read.0) }
    ensures spelled { IfSome result (λ read.
        text.now ≡ text_of (event_lines form held read.0) ++ read.2.now) }
    ensures lines { IfSome result (λ read. read.1 ≡ length (event_lines form held read.0)) }
    ensures shorter { IfSome result (λ read. length read.2.now < length text.now) }
    ensures found { (event : Event) (rest : List ℕ) → IsEvent event →
        text.now ≡ text_of (event_lines form held event) ++ rest →
        IsSomeAnd result (λ read. (read.0 ≡ event) × (read.2.now ≡ rest)) }
{
    let (line, behind) = line_at(text)?;
    if let Some(machine) = machine_in(line) {
        return Some((Event::Go(machine), 1, behind));
    }
    let (name, lines, behind) = take_at(form, held, line, behind)?;
    Some((Event::Take(name), lines, behind))
}
