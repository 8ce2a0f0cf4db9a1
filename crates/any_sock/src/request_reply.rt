ghost use Rattle.std.specs.Prelude.{◌≡◌, All, Contains};
ghost use Rattle.pub_sub.specs.XSubs.{MatchXSend, IfXBack};
ghost use Rattle.msg_pipe.specs.Places.{KeepsPlaces};
ghost use Rattle.any_sock.specs.Over.{peer_places, partner_places, HaveSamePlaces, left_of};
ghost use Rattle.any_sock.specs.Calls.{SentOver, SendUndone, SaidUntold, RecvDone};
ghost use Rattle.any_sock.specs.declared.group.Group.TheVariants.{RequestReply};
ghost use Rattle.any_sock.specs.Groups.{group_of};

use crate::any_sock::AnySock;
use msg_pipe::Peers;
use pub_sub::{XSendFault, passed_on};
use spec_pattern::{RecvFault, Sent, Skip};
use zq_base::{Message, PairId};

impl AnySock {
    /// Sends as a DEALER, a REQ, a REP or a ROUTER.
    pub(crate) fn send_request_reply<E: Peers>(
        &mut self,
        peers: &mut E,
        message: Message,
    ) -> Result<Sent, XSendFault>
        requires kind { group_of self.old ≡ RequestReply }
        requires there { All (E.here peers.old) (peer_places self.old) }
        ensures step { MatchXSend result (SendUndone peers.old peers.new self.old self.new)
            (SaidUntold E.runs (E.end_at peers.old) (E.writable peers.old) message
            peers.old peers.new self.old self.new)
            (λ answer. SentOver E.runs (E.end_at peers.old) (E.writable peers.old) message
            peers.old peers.new self.old answer self.new) }
        ensures back { IfXBack result (λ back. back ≡ message) }
        ensures places { HaveSamePlaces (peer_places self.old) (peer_places self.new) }
        ensures partner { All (Contains (peer_places self.old)) (partner_places self.old) }
        ensures left { left_of self.new ≡ left_of self.old }
        ensures keeps { KeepsPlaces E.here E.end_at E.writable peers.old peers.new }
    {
        match self {
            AnySock::Dealer(dealer) => return passed_on(dealer.send(peers, message)),
            AnySock::Req(req) => return passed_on(req.send(peers, message)),
            AnySock::Rep(rep) => return passed_on(rep.send(peers, message)),
            AnySock::Router(router) => return passed_on(router.send(peers, message)),
            _ => unreachable!(),
        }
    }

    /// Receives as a DEALER, a REQ, a REP or a ROUTER.
    pub(crate) fn recv_request_reply<E: Peers>(
        &mut self,
        peers: &mut E,
        skips: &mut Vec<Skip>,
    ) -> Result<(PairId, Message), RecvFault>
        requires kind { group_of self.old ≡ RequestReply }
        requires there { All (E.here peers.old) (peer_places self.old) }
        ensures step { RecvDone E.runs (E.end_at peers.old) (left_of self.old).to_give
            peers.old peers.new skips.old.items skips.new.items self.old result self.new }
        ensures places { HaveSamePlaces (peer_places self.old) (peer_places self.new) }
        ensures keeps { KeepsPlaces E.here E.end_at E.writable peers.old peers.new }
    {
        match self {
            AnySock::Dealer(dealer) => return dealer.recv(peers),
            AnySock::Req(req) => return req.recv(peers, skips),
            AnySock::Rep(rep) => return rep.recv(peers, skips),
            AnySock::Router(router) => return router.recv(peers),
            _ => unreachable!(),
        }
    }
}
