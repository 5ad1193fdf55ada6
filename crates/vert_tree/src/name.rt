use vert_base::Span;

/// What a name stands for: the place of its declaration among those of its kind, from 0.
#[derive(Clone, Copy, Debug, PartialEq, Eq)]
pub enum What {
    /// As the parser leaves it.
    Unread,
    Field(u8),
    Slot(u8),
    Local(u8),
    Send(u8),
    Total(u8),
}

/// A name where it stands in the text. `name` is its place in `Program::names`.
#[derive(Clone, Copy, Debug, PartialEq, Eq)]
pub struct Ident {
    pub span: Span,
    pub name: u32,
    pub what: What,
}
