ghost use Rattle.std.specs.Prelude.{◌≡◌, ◌∷◌, [], ◌++◌, All, OnOk, OnErr, IsPermutation};
ghost use Rattle.zq_base.specs.declared.kind.Kind.TheVariants.{Pull as PullKind};
ghost use Rattle.spec_pattern.specs.Results.{MatchSend, MatchRecv, IfBack};
ghost use Rattle.msg_pipe.specs.Turns.{without_place};
ghost use Rattle.msg_pipe.specs.Places.{KeepsPlaces};
ghost use Rattle.spec_pattern.specs.AtPlaces.{Sends, Receives};

use fair_queue::receive_by_turn;
use msg_pipe::{Peers, Turns};
use spec_pattern::{RecvFault, SendFault, SendRefusal, Sent};
use std::alloc::{AllocError, Global};
use std::marker::Model;
use zq_base::{Message, PairId};

/// A PULL: it receives from its peers by turn, and never sends (RFC 30, "The PULL Socket Type").
#[derive(Drop)]
pub struct Pull {
    turns: Turns,
}

impl Model for Pull {
    ghost use Rattle.std.specs.Prelude.{ℕ, List};

    ghost Value = { List ℕ };

    ghost view = { λ s. s.turns };
}

impl Pull {
    /// No ends yet.
    pub fn new(alloc: Global) -> Pull
        ensures { result ≡ [] }
    {
        Pull {
            turns: Turns::new(alloc),
        }
    }

    /// The end at this place is attached: its turn comes last.
    pub fn attach(&mut self, place: usize) -> Result<(), AllocError>
        ensures ok { OnOk result (self.new ≡ self.old ++ place ∷ []) }
        ensures err { OnErr result (self.new ≡ self.old) }
    {
        self.turns.add(place)
    }

    /// The end at this place is a peer no longer.
    pub fn detach(&mut self, place: usize)
        ensures { self.new ≡ without_place place self.old }
    {
        self.turns.remove(place);
    }

    /// Receives from the first peer in turn that has a message: `Again` where none has one.
    pub fn recv<E: Peers>(&mut self, peers: &mut E) -> Result<(PairId, Message), RecvFault>
        requires there { All (E.here peers.old) self.old }
        ensures step { MatchRecv result ⊥ (λ answer. Receives E.runs (E.end_at peers.old) PullKind
            peers.old peers.new self.old answer self.new) }
        ensures places { IsPermutation self.old self.new }
        ensures keeps { KeepsPlaces E.here E.end_at E.writable peers.old peers.new }
    {
        receive_by_turn(&mut self.turns, peers)
    }

    /// Refused: a PULL never sends.
    pub fn send<E: Peers>(&mut self, peers: &mut E, message: Message) -> Result<Sent, SendFault>
        ensures step { MatchSend result ⊥ (λ answer. Sends E.runs (E.end_at peers.old)
            (E.writable peers.old) PullKind message peers.old peers.new
            self.old answer self.new) }
        ensures back { IfBack result (λ back. back ≡ message) }
        ensures turns { self.new ≡ self.old }
        ensures peers { peers.new ≡ peers.old }
    {
        Err(SendFault::Refused(SendRefusal::NotSupported, message))
    }
}
