ghost use Rattle.std.specs.Prelude.{◌≡◌, ◌≤◌, ◌↔◌, ◌++◌, [], length, take, min, IsTrue};

use std::marker::Model;

// Octets that are read from front to back.
#[derive(Drop)]
pub(crate) struct Tape {
    octets: Vec<u8>,
    at: usize,
}

impl Model for Tape {
    ghost use Rattle.std.specs.Prelude.{◌≤◌, List, ℕ, drop, length};

    ghost Value = { List ℕ };

    ghost view = { λ t. drop t.at t.octets.items };

    ghost invariant = { λ t. t.at ≤ length t.octets.items };
}

impl Tape {
    pub fn new(octets: Vec<u8>) -> Tape
        ensures { result ≡ octets.items }
    {
        Tape { octets, at: 0 }
    }

    pub fn is_empty(&self) -> bool
        ensures { IsTrue result ↔ (self.now ≡ []) }
    {
        self.at == self.octets.len()
    }

    /// Moves the next octets to the front of the buffer, so many at most.
    pub fn give(&mut self, buf: &mut [u8], most: usize) -> usize
        requires { most ≤ length buf.old }
        ensures count { result ≡ min most (length self.old) }
        ensures moved { self.old ≡ take result buf.new ++ self.new }
    {
        let n = most.min(self.octets.len() - self.at);
        buf[..n].copy_from_slice(&self.octets[self.at..self.at + n]);
        self.at += n;
        n
    }
}
