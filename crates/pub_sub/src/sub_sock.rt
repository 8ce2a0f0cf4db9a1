ghost use Rattle.std.specs.Prelude.{◌≡◌, All, IsPermutation};
ghost use Rattle.spec_pattern.specs.Results.{MatchSend, MatchRecv, IfBack};
ghost use Rattle.spec_pattern.specs.declared.answers.SendAnswer.TheVariants.{Refused};
ghost use Rattle.spec_pattern.specs.declared.answers.SendRefusal.TheVariants.{NotSupported};
ghost use Rattle.msg_pipe.specs.Places.{KeepsPlaces};
ghost use Rattle.pub_sub.specs.Subscribing.{KeepsWanted, SubGives, SubStops};

use crate::extent::Plain;
use crate::sub_socket::SubSocket;
use msg_pipe::Peers;
use spec_pattern::{RecvFault, SendFault, SendRefusal, Sent, Skip};
use zq_base::{Message, PairId};

/// A SUB: it tells its peers which topics it wants, and receives by turn the messages that one of
/// them is a prefix of (RFC 29, "The SUB Socket Type").
pub type Sub = SubSocket<Plain>;

impl SubSocket<Plain> {
    /// Receives from the first peer in turn that has a message which a wanted topic is a prefix of.
    /// Every other message that comes before it is dropped and told: `Again` where none is left,
    /// `Busy` where one call has dropped 256.
    pub fn recv<E: Peers>(
        &mut self,
        peers: &mut E,
        skips: &mut Vec<Skip>,
    ) -> Result<(PairId, Message), RecvFault>
        requires there { All (E.here peers.old) self.old.ins }
        ensures step { MatchRecv result
            (SubStops E.runs (E.end_at peers.old) peers.old peers.new
            skips.old.items skips.new.items self.old self.new)
            (λ answer. SubGives E.runs (E.end_at peers.old) peers.old peers.new
            skips.old.items skips.new.items self.old answer self.new) }
        ensures same { KeepsWanted self.old self.new }
        ensures places { IsPermutation self.old.ins self.new.ins }
        ensures keeps { KeepsPlaces E.here E.end_at E.writable peers.old peers.new }
    {
        self.subscriber.recv_wanted(peers, skips)
    }

    /// Refused: a SUB never sends.
    pub fn send<E: Peers>(&self, peers: &mut E, message: Message) -> Result<Sent, SendFault>
        ensures step { MatchSend result ⊥ (λ answer. answer ≡ Refused NotSupported) }
        ensures back { IfBack result (λ back. back ≡ message) }
        ensures peers { peers.new ≡ peers.old }
    {
        Err(SendFault::Refused(SendRefusal::NotSupported, message))
    }
}
