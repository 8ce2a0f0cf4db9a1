ghost use Rattle.std.specs.Prelude.{◌≡◌, All, Contains};
ghost use Rattle.pub_sub.specs.XSubs.{MatchXSend, IfXBack};
ghost use Rattle.msg_pipe.specs.Places.{KeepsPlaces};
ghost use Rattle.any_sock.specs.Over.{peer_places, partner_places, HaveSamePlaces, left_of};
ghost use Rattle.any_sock.specs.Calls.{SentOver, SendUndone, SaidUntold, RecvDone};
ghost use Rattle.any_sock.specs.declared.group.Group.TheVariants.{PublishSubscribe};
ghost use Rattle.any_sock.specs.Groups.{group_of};

use crate::any_sock::AnySock;
use msg_pipe::Peers;
use pub_sub::{XSendFault, passed_on};
use spec_pattern::{RecvFault, Sent, Skip};
use std::alloc::Global;
use zq_base::{Message, PairId};

impl AnySock {
    /// Sends as a PUB, an XPUB, a SUB or an XSUB.
    pub(crate) fn send_publish_subscribe<E: Peers>(
        &mut self,
        alloc: Global,
        peers: &mut E,
        message: Message,
    ) -> Result<Sent, XSendFault>
        requires kind { group_of self.old ≡ PublishSubscribe }
        requires there { All (E.here peers.old) (peer_places self.old) }
        ensures step { MatchXSend result (SendUndone peers.old peers.new self.old self.new)
            (SaidUntold E.runs (E.end_at peers.old) (E.writable peers.old) message
            peers.old peers.new self.old self.new)
            (λ answer. SentOver E.runs (E.end_at peers.old) (E.writable peers.old) message
            peers.old peers.new self.old answer self.new) }
        ensures back { IfXBack result (λ back. back ≡ message) }
        ensures places { HaveSamePlaces (peer_places self.old) (peer_places self.new) }
        ensures partner { All (Contains (peer_places self.old)) (partner_places self.old) }
        ensures left { left_of self.new ≡ left_of self.old }
        ensures keeps { KeepsPlaces E.here E.end_at E.writable peers.old peers.new }
    {
        match self {
            AnySock::Pub(publisher) => return passed_on(publisher.send(alloc, peers, message)),
            AnySock::XPub(publisher) => return passed_on(publisher.send(alloc, peers, message)),
            AnySock::Sub(subscriber) => return passed_on(subscriber.send(peers, message)),
            AnySock::XSub(subscriber) => return subscriber.send(alloc, peers, message),
            _ => unreachable!(),
        }
    }

    /// Receives as a PUB, an XPUB, a SUB or an XSUB.
    pub(crate) fn recv_publish_subscribe<E: Peers>(
        &mut self,
        alloc: Global,
        peers: &mut E,
        skips: &mut Vec<Skip>,
    ) -> Result<(PairId, Message), RecvFault>
        requires kind { group_of self.old ≡ PublishSubscribe }
        requires there { All (E.here peers.old) (peer_places self.old) }
        ensures step { RecvDone E.runs (E.end_at peers.old) (left_of self.old).to_give
            peers.old peers.new skips.old.items skips.new.items self.old result self.new }
        ensures places { HaveSamePlaces (peer_places self.old) (peer_places self.new) }
        ensures keeps { KeepsPlaces E.here E.end_at E.writable peers.old peers.new }
    {
        match self {
            AnySock::Pub(publisher) => return publisher.recv(peers),
            AnySock::XPub(publisher) => return publisher.recv(alloc, peers),
            AnySock::Sub(subscriber) => return subscriber.recv(peers, skips),
            AnySock::XSub(subscriber) => return subscriber.recv(peers),
            _ => unreachable!(),
        }
    }
}
