// Which calls of a double fail.
ghost use Rattle.std.specs.Prelude.{◌≡◌};
ghost use Rattle.outside.specs.Calls.{next_fails, called};

use std::marker::Model;

#[derive(Drop)]
pub struct Calls {
    fails: Vec<u64>,
    count: u64,
}

impl Model for Calls {
    ghost use Rattle.outside.specs.Calls.{Calls as TheCalls};

    ghost Value = { TheCalls };

    ghost view = { λ c. record { fails = c.fails.items; count = c.count } };
}

impl Calls {
    pub fn new(fails: Vec<u64>) -> Calls
        ensures { result ≡ record { fails = fails.items; count = 0 } }
    {
        Calls { fails, count: 0 }
    }

    /// Counts one more call, and tells whether it fails.
    pub fn next_fails(&mut self) -> bool
        ensures fails { result ≡ next_fails self.old }
        ensures counted { self.new ≡ called self.old }
    {
        self.count = self.count.saturating_add(1);
        self.fails.contains(&self.count)
    }
}
