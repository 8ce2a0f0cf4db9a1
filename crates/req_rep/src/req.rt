ghost use Rattle.std.specs.Prelude.{◌≡◌, ◌<◌, length, drop};

use crate::partner::Partner;
use crate::reply::{Reply, pair_of};
use bytes::Bytes;
use fair_queue::receive_dropping;
use load_balancer::{NextOut, next_out};
use msg_pipe::{BothTurns, Peers};
use spec_pattern::{RecvFault, RecvRefusal, Rule, SendFault, SendRefusal, Sent, Skip};
use std::alloc::{AllocError, Global};
use std::marker::Model;
use zq_base::{Frame, Message, PairId};

/// A REQ: it sends a request to one of its peers by turn, and then receives the reply of that peer
/// (RFC 28, "The REQ Socket Type").
#[derive(Drop)]
pub struct Req {
    turns: BothTurns,
    asked: Partner,
}

impl Model for Req {
    ghost use Rattle.req_rep.specs.Asking.{ReqState};
    ghost use Rattle.req_rep.specs.Partners.{IsReq};

    ghost Value = { ReqState };

    ghost view = { λ r. record { outs = r.turns.outs; ins = r.turns.ins; asked = r.asked } };

    ghost invariant = { λ r. IsReq r.turns.outs r.turns.ins r.asked };
}

impl Req {
    ghost use Rattle.std.specs.Prelude.{◌≡◌, [], ◌∷◌, ◌++◌, All, Contains, OnOk, OnErr, IsPermutation};
    ghost use Rattle.spec_pattern.specs.Results.{MatchSend, MatchRecv, IfBack};
    ghost use Rattle.msg_pipe.specs.Turns.{without_place};
    ghost use Rattle.msg_pipe.specs.Places.{KeepsPlaces};
    ghost use Rattle.req_rep.specs.Asking.{ReqSent, ReqGot, ReqStopped};
    ghost use Rattle.req_rep.specs.Partners.{IsAt, without_partner};

    /// No ends yet, and nothing asked.
    pub fn new(alloc: Global) -> Req
        ensures { result ≡ record { outs = []; ins = []; asked = Partner.Nobody } }
    {
        Req {
            turns: BothTurns::new(alloc),
            asked: Partner::Nobody,
        }
    }

    /// The end at this place is attached: its turns come last.
    pub fn attach(&mut self, place: usize) -> Result<(), AllocError>
        ensures ok { OnOk result (self.new ≡ record {
          outs = self.old.outs ++ place ∷ [];
          ins = self.old.ins ++ place ∷ [];
          asked = self.old.asked;
        }) }
        ensures err { OnErr result (self.new ≡ self.old) }
    {
        self.turns.add(place)
    }

    /// The end at this place is a peer no longer.
    pub fn detach(&mut self, place: usize)
        ensures { self.new ≡ record {
          outs = without_place place self.old.outs;
          ins = without_place place self.old.ins;
          asked = without_partner place self.old.asked;
        } }
    {
        self.turns.remove(place);
        self.asked = self.asked.without(place);
    }

    /// The peer that was asked is one of its peers. It costs nothing.
    pub fn has_asked_a_peer(&self)
        ensures { IsAt (Contains self.now.ins) self.now.asked }
    {
        let _ = &self.asked;
    }

    /// Sends a request to the first peer in turn that has room, behind an empty frame: `Fsm` where
    /// a reply is awaited, `TooLarge` from 1,023 frames on, `Again` where no peer has room. The peer
    /// that was asked is one of its peers.
    pub fn send<E: Peers>(&mut self, peers: &mut E, message: Message) -> Result<Sent, SendFault>
        requires there { All (E.here peers.old) self.old.outs }
        ensures step { MatchSend result ((self.new ≡ self.old) × (peers.new ≡ peers.old))
            (λ answer. ReqSent E.runs (E.end_at peers.old) (E.writable peers.old) message
            peers.old peers.new self.old answer self.new) }
        ensures back { IfBack result (λ back. back ≡ message) }
        ensures ins { self.new.ins ≡ self.old.ins }
        ensures places { IsPermutation self.old.outs self.new.outs }
        ensures partner { IsAt (Contains self.old.ins) self.old.asked }
        ensures keeps { KeepsPlaces E.here E.end_at E.writable peers.old peers.new }
    {
        if !self.asked.is_nobody() {
            return Err(SendFault::Refused(SendRefusal::Fsm, message));
        }
        if message.len() >= Message::MAX_COMMITTED {
            return Err(SendFault::Refused(SendRefusal::TooLarge, message));
        }
        let mut message = message;
        let Ok(()) = message.push_front(Frame::of_bytes(Bytes::new())) else {
            return Err(SendFault::OutOfMemory(message));
        };
        match next_out(&mut self.turns.outs, peers, message) {
            NextOut::Put(place) => {
                self.asked = Partner::At(place);
                return Ok(Sent::One(peers.pair(place)));
            }
            NextOut::AllFull(back) => {
                return Err(SendFault::Refused(SendRefusal::Again, without_front(back)));
            }
            NextOut::NoPeer(back) => {
                return Err(SendFault::Refused(SendRefusal::Again, without_front(back)));
            }
        }
    }

    /// Receives the reply of the peer that was asked: `Fsm` where none was, `Again` where it isn't
    /// there yet. Every other message that comes before it is dropped and told, and where one call
    /// has dropped 256 it answers `Busy`.
    pub fn recv<E: Peers>(
        &mut self,
        peers: &mut E,
        skips: &mut Vec<Skip>,
    ) -> Result<(PairId, Message), RecvFault>
        requires there { All (E.here peers.old) self.old.ins }
        ensures step { MatchRecv result
            (ReqStopped E.runs (E.end_at peers.old) peers.old peers.new
            skips.old.items skips.new.items self.old self.new)
            (λ answer. ReqGot E.runs (E.end_at peers.old) peers.old peers.new
            skips.old.items skips.new.items self.old answer self.new) }
        ensures outs { self.new.outs ≡ self.old.outs }
        ensures places { IsPermutation self.old.ins self.new.ins }
        ensures keeps { KeepsPlaces E.here E.end_at E.writable peers.old peers.new }
    {
        if self.asked.is_nobody() {
            return Err(RecvFault::Refused(RecvRefusal::Fsm));
        }
        let mut reply = Reply {
            asked: pair_of(peers, self.asked),
        };
        match receive_dropping(&mut self.turns.ins, &mut reply, Rule::Stray, peers, skips) {
            Ok((place, message)) => {
                self.asked = Partner::Nobody;
                return Ok((peers.pair(place), message));
            }
            Err(fault) => return Err(fault),
        }
    }
}

// The frames behind the first.
fn without_front(message: Message) -> Message
    requires { 1 < length message }
    ensures { result ≡ drop 1 message }
{
    let mut message = message;
    let _front = message.pop_front();
    message
}
