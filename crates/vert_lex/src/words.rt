//! The reserved words, each by its place in the list of all.

/// The texts of the reserved words by place.
pub(crate) const TEXTS: [&str; 37] = [
    "vertex", "mode", "limit", "auto", "dense", "sparse", "field", "slot", "start", "when", "let",
    "for", "u", "w", "if", "else", "emit", "break", "send", "update", "int", "bool", "min", "max",
    "sum", "first", "true", "false", "id", "n", "round", "indeg", "outdeg", "active", "draw",
    "got", "value",
];

pub const VERTEX: u8 = 0;

pub const MODE: u8 = 1;

pub const LIMIT: u8 = 2;

pub const AUTO: u8 = 3;

pub const DENSE: u8 = 4;

pub const SPARSE: u8 = 5;

pub const FIELD: u8 = 6;

pub const SLOT: u8 = 7;

pub const START: u8 = 8;

pub const WHEN: u8 = 9;

pub const LET: u8 = 10;

pub const FOR: u8 = 11;

pub const U: u8 = 12;

pub const W: u8 = 13;

pub const IF: u8 = 14;

pub const ELSE: u8 = 15;

pub const EMIT: u8 = 16;

pub const BREAK: u8 = 17;

pub const SEND: u8 = 18;

pub const UPDATE: u8 = 19;

pub const INT: u8 = 20;

pub const BOOL: u8 = 21;

pub const MIN: u8 = 22;

pub const MAX: u8 = 23;

pub const SUM: u8 = 24;

pub const FIRST: u8 = 25;

pub const TRUE: u8 = 26;

pub const FALSE: u8 = 27;

pub const ID: u8 = 28;

pub const N: u8 = 29;

pub const ROUND: u8 = 30;

pub const INDEG: u8 = 31;

pub const OUTDEG: u8 = 32;

pub const ACTIVE: u8 = 33;

pub const DRAW: u8 = 34;

pub const GOT: u8 = 35;

pub const VALUE: u8 = 36;
