ghost use Rattle.std.specs.Prelude.{◌≡◌, pos, replicate};
ghost use Rattle.dep_layout.specs.declared.state.Mark.TheVariants.{Fresh};

/// How far the loop of a vertex has come: not started, running, or left by a `break`.
#[derive(Clone, Copy, Debug, PartialEq, Eq)]
pub enum Mark {
    Fresh,
    Running,
    Broken,
}

/// The lets that a vertex carries, one word each. There are up to 8.
#[derive(Clone, Copy)]
pub struct Words<const W: usize> {
    pub at: [i64; W],
}

/// The ring state of a vertex. The words of one that isn't started are 0.
#[derive(Clone, Copy)]
pub struct DepState<const W: usize> {
    pub mark: Mark,
    pub words: Words<W>,
    ghost still: { mark ≡ Fresh → words.at ≡ replicate W (pos 0) },
}
