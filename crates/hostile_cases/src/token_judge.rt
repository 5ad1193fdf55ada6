//! A second reader of tokens, written from their rules alone: it finds the first fault, or what is
//! printed of the tokens.

use std::alloc::{AllocError, Global};

/// The most bytes of a program.
const MOST: usize = 65_536;

/// The tokens of a text: the code and the place of the first fault L1 to L3, or the tokens joined
/// as they are printed, and the places where they begin.
#[derive(Drop)]
pub enum Tokens {
    Faulty(u8, usize),
    Joined { text: Vec<u8>, begins: Vec<usize> },
}

/// How many bytes what stands at the front has, and whether that is a token; or the code of its
/// fault.
#[derive(Clone, Copy)]
enum Front {
    Blank(usize),
    Token(usize),
    Faulty(u8),
}

/// Reads the tokens of a text.
pub fn judge_tokens(alloc: Global, text: &[u8]) -> Result<Tokens, AllocError> {
    if text.len() > MOST {
        return Ok(Tokens::Faulty(3, 0));
    }
    let (mut joined, mut begins) = (Vec::new(alloc), Vec::new(alloc));
    let mut next = 0usize;
    for place in 0..text.len() {
        if place < next {
            continue;
        }
        let rest = text.get(place..).unwrap_or(&[]);
        match front_of(rest) {
            Front::Blank(len) => next = place.saturating_add(len),
            Front::Faulty(code) => return Ok(Tokens::Faulty(code, place)),
            Front::Token(len) => {
                next = place.saturating_add(len);
                begins.push(place)?;
                join(&mut joined, rest.get(..len).unwrap_or(&[]))?;
            }
        }
    }
    Ok(Tokens::Joined {
        text: joined,
        begins,
    })
}

/// Puts a token at the end of others, and behind it a space or a line end.
fn join(joined: &mut Vec<u8>, token: &[u8]) -> Result<(), AllocError> {
    joined.extend_from_slice(without_zeros(token))?;
    let ends = matches!(token, [b';' | b'{' | b'}']);
    joined.extend_from_slice(if ends { b"\n" } else { b" " })
}

/// A number without the zeros that lead it.
fn without_zeros(token: &[u8]) -> &[u8] {
    let zeros = token.iter().take_while(|byte| **byte == b'0').count();
    match token.get(zeros..) {
        Some([]) => b"0",
        Some(rest) => rest,
        None => token,
    }
}

fn front_of(rest: &[u8]) -> Front {
    match rest {
        [b' ' | b'\t' | b'\r' | b'\n', ..] => Front::Blank(1),
        [b'/', b'/', ..] => Front::Blank(rest.iter().take_while(|byte| **byte != b'\n').count()),
        [b'a'..=b'z' | b'A'..=b'Z' | b'_', ..] => Front::Token(word_len(rest)),
        [b'0'..=b'9', ..] => number_of(rest),
        [b'=' | b'!' | b'<' | b'>' | b'+', b'=', ..] => Front::Token(2),
        [b'&', b'&', ..] | [b'|', b'|', ..] => Front::Token(2),
        [mark, ..] if b"{}();:,.=<>+-*/%!?".contains(mark) => Front::Token(1),
        _ => Front::Faulty(1),
    }
}

fn word_len(rest: &[u8]) -> usize {
    rest.iter()
        .take_while(|byte| byte.is_ascii_alphanumeric() || **byte == b'_')
        .count()
}

/// The number in front.
fn number_of(rest: &[u8]) -> Front {
    let len = rest.iter().take_while(|byte| byte.is_ascii_digit()).count();
    let mut value = 0u64;
    for digit in rest.get(..len).unwrap_or(&[]) {
        value = value
            .saturating_mul(10)
            .saturating_add(u64::from(*digit & 15));
    }
    if i64::try_from(value).is_ok() {
        Front::Token(len)
    } else {
        Front::Faulty(2)
    }
}
