ghost use Rattle.std.specs.Prelude.{◌≡◌, All, IsPermutation};
ghost use Rattle.std.specs.Map.{keys_of};
ghost use Rattle.spec_pattern.specs.Publishing.{saying_of};
ghost use Rattle.spec_pattern.specs.Results.{MatchRecv};
ghost use Rattle.msg_pipe.specs.Places.{KeepsPlaces};
ghost use Rattle.pub_sub.specs.Subscribing.{KeepsFollowers, KeepsWanted};
ghost use Rattle.pub_sub.specs.XSubs.{MatchXSend, IfXBack, XSubGives, XSubSent, SaysUntold};

use crate::extent::Extended;
use crate::sub_socket::SubSocket;
use crate::xsend_fault::XSendFault;
use msg_pipe::Peers;
use spec_pattern::{RecvFault, Sent};
use std::alloc::Global;
use zq_base::{Message, PairId};

/// An XSUB: it subscribes by what it is asked to send, and receives by turn all that its peers send
/// (RFC 29, "The XSUB Socket Type").
pub type XSub = SubSocket<Extended>;

impl SubSocket<Extended> {
    /// Receives from the first peer in turn that has a message, whatever is wanted: `Again` where
    /// none has one.
    pub fn recv<E: Peers>(&mut self, peers: &mut E) -> Result<(PairId, Message), RecvFault>
        requires there { All (E.here peers.old) self.old.ins }
        ensures step { MatchRecv result ⊥ (λ answer. XSubGives E.runs (E.end_at peers.old)
            peers.old peers.new self.old answer self.new) }
        ensures same { KeepsWanted self.old self.new }
        ensures places { IsPermutation self.old.ins self.new.ins }
        ensures keeps { KeepsPlaces E.here E.end_at E.writable peers.old peers.new }
    {
        self.subscriber.recv_all(peers)
    }

    /// Obeys a message of one frame that begins with octet 1 or 0, as a subscription to the topic
    /// behind it or a cancel: `SubLimit` where 65,536 other topics are wanted, and a cancel of a
    /// topic that is not wanted is dropped as `NoSub`. A copy of every other message goes to each
    /// peer that can be written and has room: it is dropped as `NoMatch` where none can be written,
    /// and as `PubFull` where all are full. `TooLarge` from 1,024 frames on.
    pub fn send<E: Peers>(
        &mut self,
        alloc: Global,
        peers: &mut E,
        message: Message,
    ) -> Result<Sent, XSendFault>
        requires there { All (E.here peers.old) (keys_of self.old.followers) }
        ensures step { MatchXSend result ((self.new ≡ self.old) × (peers.new ≡ peers.old))
            (SaysUntold E.runs (E.end_at peers.old) (E.writable peers.old) (saying_of message)
            peers.old peers.new self.old self.new)
            (λ answer. XSubSent E.runs (E.end_at peers.old) (E.writable peers.old) message
            peers.old peers.new self.old answer self.new) }
        ensures back { IfXBack result (λ back. back ≡ message) }
        ensures same { KeepsFollowers self.old self.new }
        ensures keeps { KeepsPlaces E.here E.end_at E.writable peers.old peers.new }
    {
        self.subscriber.send(alloc, peers, message)
    }
}
