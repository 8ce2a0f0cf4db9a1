ghost use Rattle.std.specs.Prelude.{◌≡◌, ◌↔◌, IsTrue};
ghost use Rattle.zq_outer.specs.Memory.{FailsNext, after_call};

use std::marker::Model;

// Which calls fail, by their numbers from 1.
#[derive(Drop)]
pub(crate) struct FailingCalls {
    fails: Vec<u64>,
    made: u64,
}

impl Model for FailingCalls {
    ghost use Rattle.zq_outer.specs.Memory.{Calls};

    ghost Value = { Calls };

    ghost view = { λ c. record { fails = c.fails.items; made = c.made } };
}

impl FailingCalls {
    pub fn new(fails: Vec<u64>) -> FailingCalls
        ensures { result ≡ record { fails = fails.items; made = 0 } }
    {
        FailingCalls { fails, made: 0 }
    }

    /// Counts one more call, and says whether it fails.
    pub fn next_fails(&mut self) -> bool
        ensures fails { IsTrue result ↔ FailsNext self.old }
        ensures next { self.new ≡ after_call self.old }
    {
        self.made = self.made.saturating_add(1);
        self.fails.contains(&self.made)
    }
}
