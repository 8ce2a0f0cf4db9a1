ghost use Rattle.std.specs.Prelude.{◌≡◌, [], All, OnOk, OnErr, IfOk};
ghost use Rattle.zq_base.specs.declared.kind.Kind.TheVariants.{Pair as PairKind};
ghost use Rattle.spec_pattern.specs.Results.{MatchSend, MatchRecv, IfBack};
ghost use Rattle.msg_pipe.specs.Turns.{without_place};
ghost use Rattle.msg_pipe.specs.Places.{KeepsPlaces};
ghost use Rattle.spec_pattern.specs.AtPlaces.{Sends, Receives};
ghost use Rattle.push_pull.specs.OnePeer.{attach_answer, with_peer};

use fair_queue::receive_by_turn;
use load_balancer::send_by_turn;
use msg_pipe::{Peers, Turns};
use spec_pattern::{Attached, RecvFault, SendFault, Sent};
use std::alloc::{AllocError, Global};
use std::marker::Model;
use zq_base::{Message, PairId};

/// A PAIR: it sends to its one peer and receives from it (zmq_socket(3), "Exclusive pair pattern").
#[derive(Drop)]
pub struct PairSock {
    turns: Turns,
}

impl Model for PairSock {
    ghost use Rattle.std.specs.Prelude.{ℕ, List, ◌≤◌, length};

    ghost Value = { List ℕ };

    ghost view = { λ s. s.turns };

    ghost invariant = { λ s. length s.turns ≤ 1 };
}

impl PairSock {
    /// No peer yet.
    pub fn new(alloc: Global) -> PairSock
        ensures { result ≡ [] }
    {
        PairSock {
            turns: Turns::new(alloc),
        }
    }

    /// The end at this place is the peer, where there was none.
    pub fn attach(&mut self, place: usize) -> Result<Attached, AllocError>
        ensures answer { IfOk result (λ a. a ≡ attach_answer self.old) }
        ensures ok { OnOk result (self.new ≡ with_peer place self.old) }
        ensures err { OnErr result (self.new ≡ self.old) }
    {
        if self.turns.len() > 0 {
            return Ok(Attached::Second);
        }
        self.turns.add(place)?;
        Ok(Attached::Yes)
    }

    /// The end at this place is the peer no longer.
    pub fn detach(&mut self, place: usize)
        ensures { self.new ≡ without_place place self.old }
    {
        self.turns.remove(place);
    }

    /// Sends to the peer: `Again` without one, and where it has no room, `TooLarge` from 1,024
    /// frames on.
    pub fn send<E: Peers>(&mut self, peers: &mut E, message: Message) -> Result<Sent, SendFault>
        requires there { All (E.here peers.old) self.old }
        ensures step { MatchSend result ⊥ (λ answer. Sends E.runs (E.end_at peers.old)
            (E.writable peers.old) PairKind message peers.old peers.new
            self.old answer self.new) }
        ensures back { IfBack result (λ back. back ≡ message) }
        ensures peer { self.new ≡ self.old }
        ensures keeps { KeepsPlaces E.here E.end_at E.writable peers.old peers.new }
    {
        send_by_turn(&mut self.turns, peers, message)
    }

    /// Receives from the peer: `Again` without one, and where it has no message.
    pub fn recv<E: Peers>(&mut self, peers: &mut E) -> Result<(PairId, Message), RecvFault>
        requires there { All (E.here peers.old) self.old }
        ensures step { MatchRecv result ⊥ (λ answer. Receives E.runs (E.end_at peers.old) PairKind
            peers.old peers.new self.old answer self.new) }
        ensures peer { self.new ≡ self.old }
        ensures keeps { KeepsPlaces E.here E.end_at E.writable peers.old peers.new }
    {
        receive_by_turn(&mut self.turns, peers)
    }
}
