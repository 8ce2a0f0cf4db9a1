use crate::envelope::put_before;
use crate::partner::Partner;
use crate::request::Envelope;
use fair_queue::receive_dropping;
use msg_pipe::{Peers, PutIn, Turns};
use spec_pattern::{RecvFault, RecvRefusal, Rule, SendFault, SendRefusal, Sent, Skip};
use std::alloc::{AllocError, Global};
use std::marker::Model;
use zq_base::{Message, PairId};

/// A REP: it receives a request from one of its peers by turn, and then sends the reply to that
/// peer (RFC 28, "The REP Socket Type").
#[derive(Drop)]
pub struct Rep {
    ins: Turns,
    owed: Partner,
    envelope: Envelope,
}

impl Model for Rep {
    ghost use Rattle.req_rep.specs.Answering.{RepState};
    ghost use Rattle.req_rep.specs.Partners.{IsRep};

    ghost Value = { RepState };

    ghost view = { λ r. record { ins = r.ins; owed = r.owed; envelope = r.envelope.frames.items } };

    ghost invariant = { λ r. IsRep r.ins r.owed r.envelope.frames.items };
}

impl Rep {
    ghost use Rattle.std.specs.Prelude.{◌≡◌, [], ◌∷◌, ◌++◌, All, Contains, OnOk, OnErr, IsPermutation};
    ghost use Rattle.spec_pattern.specs.Results.{MatchSend, MatchRecv, IfBack};
    ghost use Rattle.msg_pipe.specs.Turns.{without_place};
    ghost use Rattle.msg_pipe.specs.Places.{KeepsPlaces};
    ghost use Rattle.req_rep.specs.Answering.{RepSent, RepGot, RepStopped};
    ghost use Rattle.req_rep.specs.Partners.{IsAt, without_partner};

    /// No ends yet, and no reply owed.
    pub fn new(alloc: Global) -> Rep
        ensures { result ≡ record { ins = []; owed = Partner.Nobody; envelope = [] } }
    {
        Rep {
            ins: Turns::new(alloc),
            owed: Partner::Nobody,
            envelope: Envelope {
                frames: Vec::new(alloc),
            },
        }
    }

    /// The end at this place is attached: its turn comes last.
    pub fn attach(&mut self, place: usize) -> Result<(), AllocError>
        ensures ok { OnOk result (self.new ≡ record {
          ins = self.old.ins ++ place ∷ [];
          owed = self.old.owed;
          envelope = self.old.envelope;
        }) }
        ensures err { OnErr result (self.new ≡ self.old) }
    {
        self.ins.add(place)
    }

    /// The end at this place is a peer no longer.
    pub fn detach(&mut self, place: usize)
        ensures { self.new ≡ record {
          ins = without_place place self.old.ins;
          owed = without_partner place self.old.owed;
          envelope = self.old.envelope;
        } }
    {
        self.ins.remove(place);
        self.owed = self.owed.without(place);
    }

    /// The peer that a reply is owed to is one of its peers. It costs nothing.
    pub fn owes_a_peer(&self)
        ensures { IsAt (Contains self.now.ins) self.now.owed }
    {
        let _ = &self.owed;
    }

    /// Receives a request from the first peer in turn that has one: `Fsm` where a reply is owed,
    /// `Again` where no peer has one. A message without an envelope is dropped and told, and where
    /// one call has dropped 256 it answers `Busy`.
    pub fn recv<E: Peers>(
        &mut self,
        peers: &mut E,
        skips: &mut Vec<Skip>,
    ) -> Result<(PairId, Message), RecvFault>
        requires there { All (E.here peers.old) self.old.ins }
        ensures step { MatchRecv result
            (RepStopped E.runs (E.end_at peers.old) peers.old peers.new
            skips.old.items skips.new.items self.old self.new)
            (λ answer. RepGot E.runs (E.end_at peers.old) peers.old peers.new
            skips.old.items skips.new.items self.old answer self.new) }
        ensures places { IsPermutation self.old.ins self.new.ins }
        ensures keeps { KeepsPlaces E.here E.end_at E.writable peers.old peers.new }
    {
        if !self.owed.is_nobody() {
            return Err(RecvFault::Refused(RecvRefusal::Fsm));
        }
        let Ok(()) = self.envelope.frames.reserve(Message::MAX_COMMITTED) else {
            return Err(RecvFault::OutOfMemory);
        };
        match receive_dropping(
            &mut self.ins,
            &mut self.envelope,
            Rule::BadEnv,
            peers,
            skips,
        ) {
            Ok((place, message)) => {
                self.owed = Partner::At(place);
                return Ok((peers.pair(place), message));
            }
            Err(fault) => return Err(fault),
        }
    }

    /// Sends the reply behind its envelope: `Fsm` where none is owed, `TooLarge` where both have
    /// more than 1,023 frames. Where its peer is gone or can't be written, or its pipe is full, the
    /// reply is dropped, and owed no longer. The peer to which a reply is owed is one of its peers.
    pub fn send<E: Peers>(&mut self, peers: &mut E, message: Message) -> Result<Sent, SendFault>
        requires there { All (E.here peers.old) self.old.ins }
        ensures step { MatchSend result ((self.new ≡ self.old) × (peers.new ≡ peers.old))
            (λ answer. RepSent E.runs (E.end_at peers.old) (E.writable peers.old) message
            peers.old peers.new self.old answer self.new) }
        ensures back { IfBack result (λ back. back ≡ message) }
        ensures ins { self.new.ins ≡ self.old.ins }
        ensures partner { IsAt (Contains self.old.ins) self.old.owed }
        ensures keeps { KeepsPlaces E.here E.end_at E.writable peers.old peers.new }
    {
        if self.owed.is_nobody() {
            return Err(SendFault::Refused(SendRefusal::Fsm, message));
        }
        if self.envelope.frames.len() + message.len() > Message::MAX_COMMITTED {
            return Err(SendFault::Refused(SendRefusal::TooLarge, message));
        }
        let Partner::At(place) = self.owed else {
            self.owed = Partner::Nobody;
            self.envelope.frames.clear();
            return Ok(Sent::Dropped(Rule::ReplyGone));
        };
        if !peers.can_write(place) {
            self.owed = Partner::Nobody;
            self.envelope.frames.clear();
            return Ok(Sent::Dropped(Rule::ReplyGone));
        }
        match put_before(&mut self.envelope.frames, message) {
            Ok(whole) => {
                self.owed = Partner::Nobody;
                match peers.put(place, whole) {
                    PutIn::Ok => return Ok(Sent::One(peers.pair(place))),
                    PutIn::Full(_back) => return Ok(Sent::Dropped(Rule::RouteFull)),
                }
            }
            Err(back) => return Err(SendFault::OutOfMemory(back)),
        }
    }
}
