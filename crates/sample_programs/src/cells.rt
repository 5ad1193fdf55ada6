//! Lines of tables: cells between bars, numbers, and texts with their control characters.

use std::alloc::{AllocError, Global};
use std::num::ParseIntError;

/// The cells of a line that are still to be read. They stand between bars, without the blanks around them.
#[derive(Drop)]
pub struct Cells<'a> {
    rest: &'a str,
}

impl<'a> Cells<'a> {
    pub fn new(line: &'a str) -> Cells<'a> {
        Cells { rest: line }
    }

    /// The next cell, which is empty behind the last one.
    pub fn text(&mut self) -> &'a str {
        match self.rest.split_once('|') {
            Some((cell, rest)) => {
                self.rest = rest;
                cell.trim()
            }
            None => {
                let cell = self.rest;
                self.rest = "";
                cell.trim()
            }
        }
    }

    /// The number that is the next cell.
    pub fn number(&mut self) -> Result<u32, ParseIntError> {
        self.text().parse::<u32>()
    }

    /// The number below 256 that is the next cell.
    pub fn byte(&mut self) -> Result<u8, ParseIntError> {
        self.text().parse::<u8>()
    }

    /// The number of 64 bits that is the next cell.
    pub fn word(&mut self) -> Result<i64, ParseIntError> {
        self.text().parse::<i64>()
    }

    /// Whether the next cell is this word.
    pub fn is(&mut self, word: &str) -> bool {
        self.text() == word
    }
}

/// The text that a cell stands for: a slash for a line end, and each other control character by its
/// picture.
pub fn plain(alloc: Global, cell: &str) -> Result<String, AllocError> {
    let mut text = String::new(alloc);
    for mark in cell.chars() {
        match mark {
            '/' => text.push('\n')?,
            '\u{2400}'..='\u{2420}' => text.push((mark as u32 - 0x2400) as u8 as char)?,
            _ => text.push(mark)?,
        }
    }
    Ok(text)
}
