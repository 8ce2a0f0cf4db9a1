ghost use Rattle.std.specs.Prelude.{◌≡◌, List, All, Contains};
ghost use Rattle.spec_pattern.specs.declared.answers.Skip.{Skip};
ghost use Rattle.pub_sub.specs.XSubs.{MatchXSend, IfXBack};
ghost use Rattle.msg_pipe.specs.Places.{KeepsPlaces};
ghost use Rattle.any_sock.specs.Over.{peer_places, partner_places, HaveSamePlaces, left_of};
ghost use Rattle.any_sock.specs.Calls.{SentOver, SendUndone, SaidUntold, RecvDone};
ghost use Rattle.any_sock.specs.declared.group.Group.TheVariants.{Pipeline};
ghost use Rattle.any_sock.specs.Groups.{group_of};

use crate::any_sock::AnySock;
use msg_pipe::Peers;
use pub_sub::{XSendFault, passed_on};
use spec_pattern::{RecvFault, Sent};
use zq_base::{Message, PairId};

impl AnySock {
    /// Sends as a PUSH, a PULL or a PAIR.
    pub(crate) fn send_pipeline<E: Peers>(
        &mut self,
        peers: &mut E,
        message: Message,
    ) -> Result<Sent, XSendFault>
        requires kind { group_of self.old ≡ Pipeline }
        requires there { All (E.here peers.old) (peer_places self.old) }
        ensures step { MatchXSend result (SendUndone peers.old peers.new self.old self.new)
            (SaidUntold E.runs (E.end_at peers.old) (E.writable peers.old) message
            peers.old peers.new self.old self.new)
            (λ answer. SentOver E.runs (E.end_at peers.old) (E.writable peers.old) message
            peers.old peers.new self.old answer self.new) }
        ensures back { IfXBack result (λ back. back ≡ message) }
        ensures places { HaveSamePlaces (peer_places self.old) (peer_places self.new) }
        ensures partner { All (Contains (peer_places self.old)) (partner_places self.old) }
        ensures left { left_of self.new ≡ left_of self.old }
        ensures keeps { KeepsPlaces E.here E.end_at E.writable peers.old peers.new }
    {
        match self {
            AnySock::Push(push) => return passed_on(push.send(peers, message)),
            AnySock::Pull(pull) => return passed_on(pull.send(peers, message)),
            AnySock::Pair(pair) => return passed_on(pair.send(peers, message)),
            _ => unreachable!(),
        }
    }

    /// Receives as a PUSH, a PULL or a PAIR.
    pub(crate) fn recv_pipeline<E: Peers>(
        &mut self,
        peers: &mut E,
    ) -> Result<(PairId, Message), RecvFault>
        requires kind { group_of self.old ≡ Pipeline }
        requires there { All (E.here peers.old) (peer_places self.old) }
        ensures step { (told : List Skip) → RecvDone E.runs (E.end_at peers.old)
            (left_of self.old).to_give peers.old peers.new told told self.old result self.new }
        ensures places { HaveSamePlaces (peer_places self.old) (peer_places self.new) }
        ensures keeps { KeepsPlaces E.here E.end_at E.writable peers.old peers.new }
    {
        match self {
            AnySock::Push(push) => return push.recv(peers),
            AnySock::Pull(pull) => return pull.recv(peers),
            AnySock::Pair(pair) => return pair.recv(peers),
            _ => unreachable!(),
        }
    }
}
