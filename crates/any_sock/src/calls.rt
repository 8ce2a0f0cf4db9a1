ghost use Rattle.std.specs.Prelude.{◌≡◌, All, Contains, OnOk, OnErr};
ghost use Rattle.pub_sub.specs.XSubs.{MatchXSend, IfXBack};
ghost use Rattle.msg_pipe.specs.Places.{KeepsPlaces};
ghost use Rattle.any_sock.specs.Over.{peer_places, partner_places, HaveSamePlaces, left_of};
ghost use Rattle.any_sock.specs.Calls.{SentOver, SendUndone, SaidUntold, RecvDone, PumpedOver, PumpStopped};

use crate::any_sock::AnySock;
use crate::group::Group;
use msg_pipe::Peers;
use pub_sub::XSendFault;
use spec_pattern::{RecvFault, Sent, Skip};
use std::alloc::{AllocError, Global};
use zq_base::{Message, PairId};

impl AnySock {
    /// Sends by the kind's rule: the answer, and where the message went, are those of the kind
    /// (zmq_msg_send(3)). A message that is refused, or for which memory wants, comes back whole; one
    /// of an XSUB that is a subscription is obeyed, and may be `Untold`. The peer that a REQ asked, or
    /// to which a REP owes a reply, is one of its peers.
    pub fn send<E: Peers>(
        &mut self,
        alloc: Global,
        peers: &mut E,
        message: Message,
    ) -> Result<Sent, XSendFault>
        requires there { All (E.here peers.old) (peer_places self.old) }
        ensures step { MatchXSend result (SendUndone peers.old peers.new self.old self.new)
            (SaidUntold E.runs (E.end_at peers.old) (E.writable peers.old) message
            peers.old peers.new self.old self.new)
            (λ answer. SentOver E.runs (E.end_at peers.old) (E.writable peers.old) message
            peers.old peers.new self.old answer self.new) }
        ensures back { IfXBack result (λ back. back ≡ message) }
        ensures places { HaveSamePlaces (peer_places self.old) (peer_places self.new) }
        ensures partner { All (Contains (peer_places self.old)) (partner_places self.old) }
        ensures left { left_of self.new ≡ left_of self.old }
        ensures keeps { KeepsPlaces E.here E.end_at E.writable peers.old peers.new }
    {
        match self.group() {
            Group::Pipeline => return self.send_pipeline(peers, message),
            Group::RequestReply => return self.send_request_reply(peers, message),
            Group::PublishSubscribe => return self.send_publish_subscribe(alloc, peers, message),
        }
    }

    /// Receives by the kind's rule (zmq_msg_recv(3)); the messages that it drops are told behind
    /// those that were told before. A message that want of memory left comes first.
    pub fn recv<E: Peers>(
        &mut self,
        alloc: Global,
        peers: &mut E,
        skips: &mut Vec<Skip>,
    ) -> Result<(PairId, Message), RecvFault>
        requires there { All (E.here peers.old) (peer_places self.old) }
        ensures step { RecvDone E.runs (E.end_at peers.old) (left_of self.old).to_give
            peers.old peers.new skips.old.items skips.new.items self.old result self.new }
        ensures places { HaveSamePlaces (peer_places self.old) (peer_places self.new) }
        ensures keeps { KeepsPlaces E.here E.end_at E.writable peers.old peers.new }
    {
        match self.group() {
            Group::Pipeline => return self.recv_pipeline(peers),
            Group::RequestReply => return self.recv_request_reply(peers, skips),
            Group::PublishSubscribe => return self.recv_publish_subscribe(alloc, peers, skips),
        }
    }

    /// What comes before each call: a publisher hears what its peers subscribe to and cancel, and a
    /// subscriber tells its peers what it wants. Where memory wants, the message that a publisher took
    /// is obeyed first at the next time, and what a subscriber has left to tell is told then.
    pub fn pump<E: Peers>(&mut self, alloc: Global, peers: &mut E) -> Result<(), AllocError>
        requires there { All (E.here peers.old) (peer_places self.old) }
        ensures ok { OnOk result (PumpedOver E.runs (E.end_at peers.old) (E.writable peers.old)
            peers.old peers.new self.old self.new) }
        ensures err { OnErr result (PumpStopped E.runs (E.end_at peers.old) (E.writable peers.old)
            peers.old peers.new self.old self.new) }
        ensures places { HaveSamePlaces (peer_places self.old) (peer_places self.new) }
        ensures keeps { KeepsPlaces E.here E.end_at E.writable peers.old peers.new }
    {
        match self {
            AnySock::Pub(publisher) => return publisher.hear_peers(alloc, peers),
            AnySock::XPub(publisher) => return publisher.hear_peers(alloc, peers),
            AnySock::Sub(subscriber) => return subscriber.tell(alloc, peers),
            AnySock::XSub(subscriber) => return subscriber.tell(alloc, peers),
            _ => return Ok(()),
        }
    }
}
