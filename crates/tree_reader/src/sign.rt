ghost use Rattle.std.specs.Prelude.{◌≤◌};

use vert_base::Span;

/// A number that fits an `i64`.
#[derive(Clone, Copy)]
pub struct Small {
    pub value: u64,
    ghost small: { value ≤ 9223372036854775807 },
}

/// What a token is, where a name is its place in a table of texts.
#[derive(Clone, Copy)]
pub enum SignKind {
    Reserved(u8),
    Mark(u8),
    Number(Small),
    Name(u32),
}

/// A token with its name's number in place of the name.
#[derive(Clone, Copy)]
pub struct Sign {
    pub span: Span,
    pub kind: SignKind,
}
