ghost use Rattle.std.specs.Prelude.{◌≡◌, ◌∷◌, [], ◌++◌, All, OnOk, OnErr, IsPermutation};
ghost use Rattle.zq_base.specs.declared.kind.Kind.TheVariants.{Push as PushKind};
ghost use Rattle.spec_pattern.specs.Results.{MatchSend, MatchRecv, IfBack};
ghost use Rattle.msg_pipe.specs.Turns.{without_place};
ghost use Rattle.msg_pipe.specs.Places.{KeepsPlaces};
ghost use Rattle.spec_pattern.specs.AtPlaces.{Sends, Receives};

use load_balancer::send_by_turn;
use msg_pipe::{Peers, Turns};
use spec_pattern::{RecvFault, RecvRefusal, SendFault, Sent};
use std::alloc::{AllocError, Global};
use std::marker::Model;
use zq_base::{Message, PairId};

/// A PUSH: it sends to its peers by turn, and never receives (RFC 30, "The PUSH Socket Type").
#[derive(Drop)]
pub struct Push {
    turns: Turns,
}

impl Model for Push {
    ghost use Rattle.std.specs.Prelude.{ℕ, List};

    ghost Value = { List ℕ };

    ghost view = { λ s. s.turns };
}

impl Push {
    /// No ends yet.
    pub fn new(alloc: Global) -> Push
        ensures { result ≡ [] }
    {
        Push {
            turns: Turns::new(alloc),
        }
    }

    /// The end at this place is attached: its turn comes last.
    pub fn attach(&mut self, place: usize) -> Result<(), AllocError>
        ensures ok { OnOk result (self.new ≡ self.old ++ place ∷ []) }
        ensures err { OnErr result (self.new ≡ self.old) }
    {
        self.turns.add(place)
    }

    /// The end at this place is a peer no longer.
    pub fn detach(&mut self, place: usize)
        ensures { self.new ≡ without_place place self.old }
    {
        self.turns.remove(place);
    }

    /// Sends to the first peer in turn that has room: `Again` where none has, `TooLarge` from 1,024
    /// frames on.
    pub fn send<E: Peers>(&mut self, peers: &mut E, message: Message) -> Result<Sent, SendFault>
        requires there { All (E.here peers.old) self.old }
        ensures step { MatchSend result ⊥ (λ answer. Sends E.runs (E.end_at peers.old)
            (E.writable peers.old) PushKind message peers.old peers.new
            self.old answer self.new) }
        ensures back { IfBack result (λ back. back ≡ message) }
        ensures places { IsPermutation self.old self.new }
        ensures keeps { KeepsPlaces E.here E.end_at E.writable peers.old peers.new }
    {
        send_by_turn(&mut self.turns, peers, message)
    }

    /// Refused: a PUSH never receives.
    pub fn recv<E: Peers>(&mut self, peers: &mut E) -> Result<(PairId, Message), RecvFault>
        ensures step { MatchRecv result ⊥ (λ answer. Receives E.runs (E.end_at peers.old) PushKind
            peers.old peers.new self.old answer self.new) }
        ensures turns { self.new ≡ self.old }
        ensures peers { peers.new ≡ peers.old }
    {
        Err(RecvFault::Refused(RecvRefusal::NotSupported))
    }
}
