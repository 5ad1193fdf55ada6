ghost use Rattle.std.specs.Prelude.{◌≡◌, ◌<◌, [], ◌∷◌, length};
ghost use Rattle.vert_code.specs.Machine.{top, under};

use std::marker::Model;

/// The stack of a machine, which fills it with zeros once and then uses it for run after run.
/// Contracts see it as the list of its values, the topmost first.
#[derive(Drop)]
pub struct Stack {
    values: [i64; 64],
    height: usize,
}

impl Model for Stack {
    ghost use Rattle.std.specs.Prelude.{◌≤◌, ℤ, List, reverse, take};

    ghost Value = { List ℤ };

    // What stands above the height was taken.
    ghost view = { λ s. reverse (take s.height s.values) };

    ghost invariant = { λ s. s.height ≤ 64 };
}

impl Stack {
    /// An empty stack.
    #[inline]
    pub fn new() -> Stack
        ensures { result ≡ [] }
    {
        Stack {
            values: [0; 64],
            height: 0,
        }
    }

    /// Takes all values away.
    #[inline]
    pub(crate) fn clear(&mut self)
        ensures { self.new ≡ [] }
    {
        self.height = 0;
    }

    /// One more value.
    #[inline]
    pub(crate) fn push(&mut self, value: i64)
        requires { length self.old < 64 }
        ensures { self.new ≡ value ∷ self.old }
    {
        self.values[self.height] = value;
        self.height += 1;
    }

    /// Takes the topmost value.
    #[inline]
    pub(crate) fn pop(&mut self) -> i64
        requires { 0 < length self.old }
        ensures value { result ≡ top self.old }
        ensures rest { self.new ≡ under self.old }
    {
        self.height -= 1;
        self.values[self.height]
    }
}
