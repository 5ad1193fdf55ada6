ghost use Rattle.std.specs.Prelude.{◌≡◌, ◌≢◌, ℕ, ◌≤◌, ◌<◌, length, slice_index, position, is_some, true, Some, if◌then◌else◌, None, nat_lt, IfSome, IfOk, IfErr};
ghost use Rattle.std.specs.String.{string_bytes};
ghost use Rattle.std.specs.Str.{bytes_eq};
ghost use Rattle.std.specs.Str.Parse.{digits_value};
ghost use Rattle.vert_lex.specs.Places.{reserved_words, marks, place_of};
ghost use Rattle.vert_lex.specs.Text.{judged};
ghost use Rattle.vert_lex.specs.Tokens.{is_digit, is_word, kind_of};
ghost use Rattle.vert_lex.specs.View.{plain_kind};

use crate::bytes::{first, is_digit, is_letter};
use crate::token::{LexFault, TokenKind};
use crate::{marks, words};
use std::alloc::{AllocError, Global};
use vert_base::Span;

/// The greatest number of a program.
const GREATEST: u64 = 9_223_372_036_854_775_807;

/// Where a text stands in a table, from 0.
fn place_of(texts: &[&str], text: &[u8]) -> Option<usize>
    ensures place { result ≡ position (λ t. bytes_eq t.now text.now) texts.now }
    ensures within { IfSome result (λ place. place < length texts.now) }
{
    texts.iter().position(|t| t.as_bytes() == text)
}

#[tactic(auto, unfolding(crate::specs::Places::marks))]
fn mark_place(bytes: &[u8]) -> Option<u8>
    ensures { result ≡ place_of marks bytes.now }
{
    let place = place_of(&marks::TEXTS, bytes)?;
    Some(place as u8)
}

#[tactic(auto, unfolding(crate::specs::Places::reserved_words))]
fn reserved_place(word: &[u8]) -> Option<u8>
    ensures { result ≡ place_of reserved_words word.now }
{
    let place = place_of(&words::TEXTS, word)?;
    Some(place as u8)
}

/// Whether these bytes are a mark.
pub(crate) fn is_mark(bytes: &[u8]) -> bool
    ensures { result ≡ is_some (place_of marks bytes.now) }
{
    mark_place(bytes).is_some()
}

/// The number of these digits, unless it is above the greatest.
fn number(digits: &[u8]) -> Option<u64>
    requires { (i : ℕ) → i < length digits.now → is_digit (slice_index digits.now i) ≡ true }
    ensures { result ≡ (if nat_lt 9223372036854775807 (digits_value 10 digits.now) then None
        else Some (digits_value 10 digits.now)) }
{
    let mut value: u64 = 0;
    'digits: for b in digits {
        let digit = u64::from(*b - b'0');
        if value > (GREATEST - digit) / 10 {
            return None;
        }
        value = value * 10 + digit;
    }
    Some(value)
}

/// A word as text.
fn name(alloc: Global, word: &[u8]) -> Result<String, AllocError>
    requires { (i : ℕ) → i < length word.now → is_word (slice_index word.now i) ≡ true }
    ensures { IfOk result (λ text. string_bytes text ≡ word.now) }
{
    let mut text = String::with_capacity(alloc, word.len())?;
    'bytes: for b in word {
        text.push(char::from(*b))?;
    }
    Ok(text)
}

/// What these bytes are, which are the whole of a token at this place.
pub(crate) fn kind_of(alloc: Global, span: Span, bytes: &[u8]) -> Result<TokenKind, LexFault>
    requires { is_some (kind_of bytes.now) ≡ true }
    ensures read { IfOk result (λ kind. judged span (kind_of bytes.now) ≡ Ok (plain_kind kind)) }
    ensures refused { IfErr result (λ fault. fault ≢ LexFault.Want →
        judged span (kind_of bytes.now) ≡ Err fault) }
{
    let b = first(bytes);
    if is_letter(b) {
        return match reserved_place(bytes) {
            Some(place) => Ok(TokenKind::Reserved(place)),
            None => Ok(TokenKind::Name(name(alloc, bytes)?)),
        };
    }
    if is_digit(b) {
        return match number(bytes) {
            Some(value) => Ok(TokenKind::Number(value)),
            None => Err(LexFault::BadNumber(span)),
        };
    }
    match mark_place(bytes) {
        Some(place) => Ok(TokenKind::Mark(place)),
        None => Err(LexFault::BadByte(span)),
    }
}
