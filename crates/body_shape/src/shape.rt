// The forms of the bodies of messages.
ghost use Rattle.std.specs.Prelude.{◌≡◌};
ghost use Rattle.body_shape.specs.Shapes.{longest_of};

/// The form of a message's body. `vertices` counts the vertices of a list or half, `words` the words of
/// each, and bit i of `bools` says that word i is a `Bool`. `slots`, `reduced` and `totals` count those
/// of the program. A verdict may rule `dense` or `sparse` where they are so.
#[derive(Clone, Copy, Debug, PartialEq, Eq)]
pub enum BodyShape {
    Refresh {
        vertices: u32,
        words: u8,
        bools: u32,
    },
    Dep {
        vertices: u32,
        words: u8,
        bools: u8,
    },
    Update {
        vertices: u32,
        slots: u8,
        reduced: u8,
    },
    Push {
        vertices: u32,
        words: u8,
        bools: u8,
    },
    Tally {
        totals: u8,
    },
    Verdict {
        dense: bool,
        sparse: bool,
        totals: u8,
    },
}

impl BodyShape {
    /// The greatest length of a body of this form, in bytes.
    pub fn longest(&self) -> u64
        ensures { result ≡ longest_of self.now }
    {
        match *self {
            BodyShape::Refresh {
                vertices,
                words,
                bools: _,
            } => 8 * u64::from(words) * u64::from(vertices),
            BodyShape::Dep {
                vertices,
                words,
                bools: _,
            } => u64::from(vertices).div_ceil(4) + 8 * u64::from(words) * u64::from(vertices),
            BodyShape::Update {
                vertices,
                slots,
                reduced,
            } => (2 + 8 * u64::from(slots.min(8)) + 8 * u64::from(reduced.min(8)))
                * u64::from(vertices),
            BodyShape::Push {
                vertices,
                words,
                bools: _,
            } => u64::from(vertices).div_ceil(8) + 8 * u64::from(words) * u64::from(vertices),
            BodyShape::Tally { totals } => 24 + 8 * u64::from(totals),
            BodyShape::Verdict {
                dense: _,
                sparse: _,
                totals,
            } => 1 + 8 * u64::from(totals),
        }
    }
}
