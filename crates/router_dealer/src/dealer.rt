ghost use Rattle.std.specs.Prelude.{◌≡◌, All, OnOk, OnErr, IsPermutation};
ghost use Rattle.zq_base.specs.declared.kind.Kind.TheVariants.{Dealer as DealerKind};
ghost use Rattle.spec_pattern.specs.Results.{MatchSend, MatchRecv, IfBack};
ghost use Rattle.msg_pipe.specs.Places.{KeepsPlaces};
ghost use Rattle.msg_pipe.specs.BothTurns.{no_turns, with_turns, without_turns};
ghost use Rattle.spec_pattern.specs.AtPlaces.{Sends, Receives};

use fair_queue::receive_by_turn;
use load_balancer::send_by_turn;
use msg_pipe::{BothTurns, Peers};
use spec_pattern::{RecvFault, SendFault, Sent};
use std::alloc::{AllocError, Global};
use std::marker::Model;
use zq_base::{Message, PairId};

/// A DEALER: it sends to its peers by turn and receives from them by turn (RFC 28, "The DEALER
/// Socket Type").
#[derive(Drop)]
pub struct Dealer {
    turns: BothTurns,
}

impl Model for Dealer {
    ghost use Rattle.msg_pipe.specs.BothTurns.{Both};

    ghost Value = { Both };

    ghost view = { λ s. s.turns };
}

impl Dealer {
    /// No ends yet.
    pub fn new(alloc: Global) -> Dealer
        ensures { result ≡ no_turns }
    {
        Dealer {
            turns: BothTurns::new(alloc),
        }
    }

    /// The end at this place is attached: its turns come last.
    pub fn attach(&mut self, place: usize) -> Result<(), AllocError>
        ensures ok { OnOk result (self.new ≡ with_turns place self.old) }
        ensures err { OnErr result (self.new ≡ self.old) }
    {
        self.turns.add(place)
    }

    /// The end at this place is a peer no longer.
    pub fn detach(&mut self, place: usize)
        ensures { self.new ≡ without_turns place self.old }
    {
        self.turns.remove(place);
    }

    /// Sends to the first peer in turn that has room: `Again` where none has, `TooLarge` from 1,024
    /// frames on.
    pub fn send<E: Peers>(&mut self, peers: &mut E, message: Message) -> Result<Sent, SendFault>
        requires there { All (E.here peers.old) self.old.outs }
        ensures step { MatchSend result ⊥ (λ answer. Sends E.runs (E.end_at peers.old)
            (E.writable peers.old) DealerKind message peers.old peers.new
            self.old.outs answer self.new.outs) }
        ensures back { IfBack result (λ back. back ≡ message) }
        ensures ins { self.new.ins ≡ self.old.ins }
        ensures places { IsPermutation self.old.outs self.new.outs }
        ensures keeps { KeepsPlaces E.here E.end_at E.writable peers.old peers.new }
    {
        send_by_turn(&mut self.turns.outs, peers, message)
    }

    /// Receives from the first peer in turn that has a message: `Again` where none has one.
    pub fn recv<E: Peers>(&mut self, peers: &mut E) -> Result<(PairId, Message), RecvFault>
        requires there { All (E.here peers.old) self.old.ins }
        ensures step { MatchRecv result ⊥ (λ answer. Receives E.runs (E.end_at peers.old)
            DealerKind peers.old peers.new self.old.ins answer self.new.ins) }
        ensures outs { self.new.outs ≡ self.old.outs }
        ensures places { IsPermutation self.old.ins self.new.ins }
        ensures keeps { KeepsPlaces E.here E.end_at E.writable peers.old peers.new }
    {
        receive_by_turn(&mut self.turns.ins, peers)
    }
}
