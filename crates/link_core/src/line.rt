ghost use Rattle.std.specs.Prelude.{◌≡◌, ◌≤◌, ◌<◌, ◌^◌, ◌++◌, ◌∷◌, ℕ, IfSome, List, Some, codes, decimal, length, slice_index};
ghost use Rattle.std.specs.Option.{IsSomeAnd};
ghost use Rattle.vert_base.specs.declared.message.Name.{Name};
ghost use Rattle.vert_base.specs.NameTexts.{IsName, name_text};
ghost use Rattle.link_core.specs.declared.event.LinkEvent.{LinkEvent};
ghost use Rattle.link_core.specs.declared.event.LinkEvent.TheVariants as link;
ghost use Rattle.link_core.specs.LinkTexts.{IsLinkEvent, event_front, event_line, event_text, header_line, word_text};

use crate::event::LinkEvent;
use delivery_log::line_at;
use vert_base::{Name, number_in};

// What stands behind a word at the front.
fn behind<'a>(word: &[u8], line: &'a [u8]) -> Option<&'a [u8]>
    ensures spelled { IfSome result (λ rest. line.now ≡ word.now ++ rest.now) }
    ensures found { (rest : List ℕ) → line.now ≡ word.now ++ rest →
        IsSomeAnd result (λ read. read.now ≡ rest) }
{
    line.strip_prefix(word)
}

// The number behind a word, where both are the whole line.
fn number_behind(word: &[u8], line: &[u8], most: u32) -> Option<u32>
    ensures spelled { IfSome result (λ number.
        (number ≤ most) × (line.now ≡ word.now ++ decimal number)) }
    ensures found { (number : ℕ) → number ≤ most → line.now ≡ word.now ++ decimal number →
        result ≡ Some number }
{
    let number = number_in(behind(word, line)?)?;
    if number <= most { Some(number) } else { None }
}

// The name behind a word, where both are the whole line.
fn name_behind(word: &[u8], line: &[u8]) -> Option<Name>
    ensures spelled { IfSome result (λ x. IsName x × (line.now ≡ word.now ++ name_text x)) }
    ensures found { (x : Name) → IsName x → line.now ≡ word.now ++ name_text x →
        result ≡ Some x }
{
    Name::from_text(behind(word, line)?)
}

fn byte_at(line: &[u8], place: usize) -> u8
    ensures { result ≡ slice_index line.now place }
{
    if place < line.len() { line[place] } else { 0 }
}

fn go_in(line: &[u8]) -> Option<LinkEvent>
    ensures spelled { IfSome result (λ e. IsLinkEvent e × (line.now ≡ event_front e)) }
    ensures found { (machine : ℕ) → machine < 256 → line.now ≡ event_front (link.Go machine) →
        result ≡ Some (link.Go machine) }
{
    match number_behind(b"go ", line, 255) {
        Some(machine) => Some(LinkEvent::Go(machine as u8)),
        None => None,
    }
}

fn take_in(line: &[u8]) -> Option<LinkEvent>
    ensures spelled { IfSome result (λ e. IsLinkEvent e × (line.now ≡ event_front e)) }
    ensures found { (x : Name) → IsName x → line.now ≡ event_front (link.Take x) →
        result ≡ Some (link.Take x) }
{
    match name_behind(b"take ", line) {
        Some(name) => Some(LinkEvent::Take(name)),
        None => None,
    }
}

fn lose_in(line: &[u8]) -> Option<LinkEvent>
    ensures spelled { IfSome result (λ e. IsLinkEvent e × (line.now ≡ event_front e)) }
    ensures found { (x : Name) → IsName x → line.now ≡ event_front (link.Lose x) →
        result ≡ Some (link.Lose x) }
{
    match name_behind(b"lose ", line) {
        Some(name) => Some(LinkEvent::Lose(name)),
        None => None,
    }
}

fn again_in(line: &[u8]) -> Option<LinkEvent>
    ensures spelled { IfSome result (λ e. IsLinkEvent e × (line.now ≡ event_front e)) }
    ensures found { (x : Name) → IsName x → line.now ≡ event_front (link.Again x) →
        result ≡ Some (link.Again x) }
{
    match name_behind(b"again ", line) {
        Some(name) => Some(LinkEvent::Again(name)),
        None => None,
    }
}

fn ack_in(line: &[u8]) -> Option<LinkEvent>
    ensures spelled { IfSome result (λ e. IsLinkEvent e × (line.now ≡ event_front e)) }
    ensures found { (x : Name) → IsName x → line.now ≡ event_front (link.Ack x) →
        result ≡ Some (link.Ack x) }
{
    match name_behind(b"ack ", line) {
        Some(name) => Some(LinkEvent::Ack(name)),
        None => None,
    }
}

fn drop_in(line: &[u8]) -> Option<LinkEvent>
    ensures spelled { IfSome result (λ e. IsLinkEvent e × (line.now ≡ event_front e)) }
    ensures found { (x : Name) → IsName x → line.now ≡ event_front (link.Drop x) →
        result ≡ Some (link.Drop x) }
{
    match name_behind(b"drop ", line) {
        Some(name) => Some(LinkEvent::Drop(name)),
        None => None,
    }
}

// The event that a line says, told by the first letters of its word.
fn event_in(line: &[u8]) -> Option<LinkEvent>
    ensures spelled { IfSome result (λ e. IsLinkEvent e × (line.now ≡ event_front e)) }
    ensures found { (e : LinkEvent) → IsLinkEvent e → line.now ≡ event_front e →
        result ≡ Some e }
{
    match byte_at(line, 0) {
        b'g' => go_in(line),
        b't' => take_in(line),
        b'l' => lose_in(line),
        b'd' => drop_in(line),
        b'a' if byte_at(line, 1) == b'g' => again_in(line),
        b'a' => ack_in(line),
        _ => None,
    }
}

/// The event in the line at the front, and what stands behind it.
pub(crate) fn event_at(text: &[u8]) -> Option<(LinkEvent, &[u8])>
    ensures event { IfSome result (λ read. IsLinkEvent read.0) }
    ensures spelled { IfSome result (λ read. text.now ≡ event_line read.0 ++ read.1.now) }
    ensures shorter { IfSome result (λ read. length read.1.now < length text.now) }
    ensures found { (e : LinkEvent) (rest : List ℕ) → IsLinkEvent e →
        text.now ≡ event_line e ++ rest →
        IsSomeAnd result (λ read. (read.0 ≡ e) × (read.1.now ≡ rest)) }
{
    let (line, rest) = line_at(text)?;
    Some((event_in(line)?, rest))
}

/// The machines of the first line, and what stands behind it.
pub(crate) fn header_at(text: &[u8]) -> Option<(u8, &[u8])>
    ensures few { IfSome result (λ read. (1 ≤ read.0) × (read.0 ≤ 64)) }
    ensures spelled { IfSome result (λ read. text.now ≡ header_line read.0 ++ read.1.now) }
    ensures found { (machines : ℕ) (rest : List ℕ) → 1 ≤ machines → machines ≤ 64 →
        text.now ≡ header_line machines ++ rest →
        IsSomeAnd result (λ read. (read.0 ≡ machines) × (read.1.now ≡ rest)) }
{
    let (line, rest) = line_at(text)?;
    let machines = number_behind(b"schedule 3 machines ", line, 64)?;
    if machines < 1 {
        return None;
    }
    Some((machines as u8, rest))
}
