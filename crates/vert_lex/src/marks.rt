//! The marks, each by its place in the list of all.

/// The texts of the marks by place.
pub(crate) const TEXTS: [&str; 25] = [
    "{", "}", "(", ")", ";", ":", ",", ".", "=", "==", "!=", "<", "<=", ">", ">=", "+", "-", "*",
    "/", "%", "&&", "||", "!", "?", "+=",
];

pub const LEFT_BRACE: u8 = 0; // {

pub const RIGHT_BRACE: u8 = 1; // }

pub const LEFT_PARENTHESIS: u8 = 2; // (

pub const RIGHT_PARENTHESIS: u8 = 3; // )

pub const SEMICOLON: u8 = 4; // ;

pub const COLON: u8 = 5; // :

pub const COMMA: u8 = 6; // ,

pub const DOT: u8 = 7; // .

pub const ASSIGN: u8 = 8; // =

pub const EQUAL: u8 = 9; // ==

pub const NOT_EQUAL: u8 = 10; // !=

pub const LESS: u8 = 11; // <

pub const AT_MOST: u8 = 12; // <=

pub const GREATER: u8 = 13; // >

pub const AT_LEAST: u8 = 14; // >=

pub const PLUS: u8 = 15; // +

pub const MINUS: u8 = 16; // -

pub const STAR: u8 = 17; // *

pub const SLASH: u8 = 18; // /

pub const PERCENT: u8 = 19; // %

pub const AND: u8 = 20; // &&

pub const OR: u8 = 21; // ||

pub const NOT: u8 = 22; // !

pub const QUESTION: u8 = 23; // ?

pub const PLUS_ASSIGN: u8 = 24; // +=
