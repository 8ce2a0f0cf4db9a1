ghost use Rattle.std.specs.Prelude.{◌≡◌, OnOk, OnErr};
ghost use Rattle.msg_pipe.specs.BothTurns.{no_turns, with_turns, without_turns};

use crate::turns::Turns;
use std::alloc::{AllocError, Global};
use std::marker::Model;

/// The turns of a socket that sends by turn and receives by turn, each direction in its own order.
#[derive(Drop)]
pub struct BothTurns {
    pub outs: Turns,
    pub ins: Turns,
}

impl Model for BothTurns {
    ghost use Rattle.msg_pipe.specs.BothTurns.{Both};

    ghost Value = { Both };

    ghost view = { λ t. record { outs = t.outs; ins = t.ins } };
}

impl BothTurns {
    /// No places yet.
    pub fn new(alloc: Global) -> BothTurns
        ensures { result ≡ no_turns }
    {
        BothTurns {
            outs: Turns::new(alloc),
            ins: Turns::new(alloc),
        }
    }

    /// Adds a place at the back of both.
    pub fn add(&mut self, place: usize) -> Result<(), AllocError>
        ensures ok { OnOk result (self.new ≡ with_turns place self.old) }
        ensures err { OnErr result (self.new ≡ self.old) }
    {
        self.outs.add(place)?;
        match self.ins.add(place) {
            Ok(()) => return Ok(()),
            Err(fault) => {
                self.outs.take_back();
                return Err(fault);
            }
        }
    }

    /// Removes a place from both. The others keep their orders.
    pub fn remove(&mut self, place: usize)
        ensures { self.new ≡ without_turns place self.old }
    {
        self.outs.remove(place);
        self.ins.remove(place);
    }
}
