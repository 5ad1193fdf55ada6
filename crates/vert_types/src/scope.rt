use vert_base::ValueType;
use vert_tree::{Program, What};

/// What a name stands for, and the type that it has where it is read. That of a slot is Int.
#[derive(Clone, Copy)]
pub struct Meaning {
    pub what: What,
    pub kind: ValueType,
}

/// A program with what each of its names stands for, by the name's place among them.
#[derive(Clone, Copy)]
pub(crate) struct Scope<'a> {
    pub program: &'a Program,
    pub meanings: &'a [Option<Meaning>],
}

/// What may be read at a place, beside `n`, `round` and names: what is the vertex's own, its
/// `active`, the edge's weight, the neighbour behind `u.`, and slots.
#[derive(Clone, Copy)]
pub(crate) struct Words {
    pub own: bool,
    pub active: bool,
    pub weight: bool,
    pub others: bool,
    pub slots: bool,
}

/// A place of a program: the words that may be read there, and how many names of each sort.
#[derive(Clone, Copy)]
pub(crate) struct Place {
    pub words: Words,
    pub fields: usize,
    pub locals: usize,
    pub sends: usize,
    pub slots: usize,
    pub totals: usize,
}

/// What the statements of a block may do: assign to lets, assign to fields, assign `active`, emit, break.
#[derive(Clone, Copy)]
pub(crate) struct Rights {
    pub locals: bool,
    pub fields: bool,
    pub active: bool,
    pub emits: bool,
    pub breaks: bool,
}

/// What a name is used for: read as it is, read as a slot, read behind `u.`, emitted to, assigned to.
#[derive(Clone, Copy)]
pub(crate) enum Role {
    Read,
    ReadSlot,
    Behind,
    Emitted,
    Assigned(Rights),
}
