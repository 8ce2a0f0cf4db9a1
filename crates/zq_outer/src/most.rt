ghost use Rattle.std.specs.Prelude.{◌≡◌, ◌<◌, min};

use std::marker::Model;

// How many octets a call moves at most: one at least.
#[derive(Drop)]
pub(crate) struct Most {
    octets: usize,
}

impl Model for Most {
    ghost use Rattle.std.specs.Prelude.{◌<◌, ℕ};

    ghost Value = { ℕ };

    ghost view = { λ m. m.octets };

    ghost invariant = { λ m. 0 < m.octets };
}

impl Most {
    pub fn new(octets: usize) -> Most
        requires { 0 < octets }
        ensures { result ≡ octets }
    {
        Most { octets }
    }

    /// How many of so many octets a call moves.
    pub fn of(&self, len: usize) -> usize
        ensures value { result ≡ min len self.now }
        ensures some { 0 < len → 0 < result }
    {
        len.min(self.octets)
    }
}
