ghost use Rattle.std.specs.Prelude.{◌≡◌, ◌↔◌, ◌+◌, ◌≤◌, IsTrue};
ghost use Rattle.zq_net.specs.Patience.{Skipped, RunsOut, skipped_since, most_skipped};

use std::marker::Model;

// So many calls in a row are left out at most.
const MOST_SKIPPED: u32 = 31;

/// How long a socket that isn't known to be ready is left alone, where nobody looks at all sockets.
#[derive(Drop)]
pub(crate) struct Patience {
    calls: u32,
    looks: u64,
}

impl Model for Patience {
    ghost use Rattle.std.specs.Prelude.{◌≤◌};
    ghost use Rattle.zq_net.specs.Patience.{Skipped, most_skipped};

    ghost Value = { Skipped };

    ghost view = { λ p. record { calls = p.calls; looks = p.looks } };

    ghost invariant = { λ p. p.calls ≤ most_skipped };
}

impl Patience {
    pub fn new() -> Patience
        ensures { result ≡ record { calls = 0; looks = 0 } }
    {
        Patience { calls: 0, looks: 0 }
    }

    /// Whether the next call is made although nothing told of readiness, after so many looks.
    pub fn runs_out(&mut self, looks: u64) -> bool
        ensures asks { IsTrue result ↔ RunsOut self.old looks }
        ensures looks { self.new.looks ≡ looks }
        ensures asked { IsTrue result → self.new.calls ≡ 0 }
        ensures skipped { (IsTrue result → ⊥) → self.new.calls ≡ skipped_since self.old looks + 1 }
    {
        if self.looks != looks {
            self.looks = looks;
            self.calls = 0;
        }
        if self.calls == MOST_SKIPPED {
            self.calls = 0;
            return true;
        }
        self.calls += 1;
        false
    }
}
