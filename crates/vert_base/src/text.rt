/// A place in a text: the byte from 0, and its line and column from 1. Columns count bytes.
#[derive(Clone, Copy, Debug, PartialEq, Eq)]
pub struct Span {
    pub at: u32,
    pub line: u32,
    pub column: u32,
}
