ghost use Rattle.std.specs.Prelude.{◌≡◌, ◌≤◌};
ghost use Rattle.zq_outer.specs.Pace.{paced_room, in_turn, after_read, after_given};

use std::collections::VecDeque;
use std::marker::Model;

/// So many reads stall, and then so many octets come.
#[derive(Clone, Copy)]
pub(crate) struct Gap {
    pub stalls: u64,
    pub octets: usize,
}

/// When the octets of a peer come: the piece that is begun, and those behind it.
#[derive(Drop)]
pub(crate) struct Pace {
    first: Gap,
    behind: VecDeque<Gap>,
}

impl Model for Pace {
    ghost use Rattle.zq_outer.specs.Pace.{Paced};

    ghost Value = { Paced };

    ghost view = { λ p. record { first = p.first; behind = p.behind.items } };
}

impl Pace {
    /// These pieces in order.
    pub fn new(pieces: VecDeque<Gap>) -> Pace
        ensures { result ≡ in_turn (record { stalls = 0; octets = 0 }) pieces.items }
    {
        let first = Gap {
            stalls: 0,
            octets: 0,
        };
        let mut pace = Pace {
            first,
            behind: pieces,
        };
        pace.turn();
        pace
    }

    /// How many octets the next read gives at most; a read that gives none stalls.
    pub fn next_read(&mut self) -> usize
        ensures room { result ≡ paced_room self.old }
        ensures next { self.new ≡ after_read self.old }
    {
        if self.first.stalls == 0 {
            return self.first.octets;
        }
        self.first.stalls -= 1;
        self.turn();
        0
    }

    /// So many octets of the piece that is begun were given.
    pub fn gave(&mut self, count: usize)
        requires { count ≤ self.old.first.octets }
        ensures { self.new ≡ after_given count self.old }
    {
        self.first.octets -= count;
        self.turn();
    }

    // Begins the next piece where this one is used up.
    fn turn(&mut self)
        ensures { self.new ≡ in_turn self.old.first self.old.behind }
    {
        if self.first.stalls != 0 || self.first.octets != 0 {
            return;
        }
        if let Some(next) = self.behind.pop_front() {
            self.first = next;
        }
    }
}
