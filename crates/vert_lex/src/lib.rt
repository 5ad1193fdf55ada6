//! Program text as tokens, or the first place where it is none.
#![tactic(auto)]

mod bytes;
mod kind;
mod length;
pub mod marks;
mod place;
mod text;
mod token;
pub mod words;

pub use text::{end_of, lex};
pub use token::{LexFault, Token, TokenKind};
