ghost use Rattle.std.specs.Prelude.{◌≡◌, ◌≤◌, ◌<◌};
ghost use Rattle.zq_outer.specs.Memory.{piece_size, sizes_after};

use std::marker::Model;

// How many octets each call moves at most: sizes used in turn, the last of which goes on.
#[derive(Drop)]
pub(crate) struct Pieces {
    sizes: Vec<usize>,
    at: usize,
}

impl Model for Pieces {
    ghost use Rattle.std.specs.Prelude.{◌≤◌, List, ℕ, drop, length};

    ghost Value = { List ℕ };

    ghost view = { λ p. drop p.at p.sizes.items };

    ghost invariant = { λ p. p.at ≤ length p.sizes.items };
}

impl Pieces {
    pub fn new(sizes: Vec<usize>) -> Pieces
        ensures { result ≡ sizes.items }
    {
        Pieces { sizes, at: 0 }
    }

    /// How many octets the next call moves at most, where there is room for so many.
    pub fn next(&mut self, room: usize) -> usize
        requires { 0 < room }
        ensures value { result ≡ piece_size self.old room }
        ensures next { self.new ≡ sizes_after self.old }
        ensures within { (1 ≤ result) × (result ≤ room) }
    {
        if self.at == self.sizes.len() {
            return room;
        }
        let size = self.sizes[self.at];
        if self.at + 1 < self.sizes.len() {
            self.at += 1;
        }
        size.min(room).max(1)
    }
}
