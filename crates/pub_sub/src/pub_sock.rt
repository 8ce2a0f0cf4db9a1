ghost use Rattle.std.specs.Prelude.{◌≡◌, ◌++◌, ℕ, false};
ghost use Rattle.std.specs.Map.{keys_of};
ghost use Rattle.spec_pattern.specs.TurnList.{End};
ghost use Rattle.spec_pattern.specs.Results.{MatchRecv};
ghost use Rattle.spec_pattern.specs.declared.answers.RecvRefusal.TheVariants.{NotSupported};
ghost use Rattle.spec_pattern.specs.declared.answers.RecvAnswer.TheVariants.{Refused};
ghost use Rattle.pub_sub.specs.Places.{AreOthers};
ghost use Rattle.pub_sub.specs.Publishers.{no_subscribers, without_subscriber_at, Detaches};

use crate::extent::Plain;
use crate::pub_socket::PubSocket;
use crate::publisher::Publisher;
use msg_pipe::Peers;
use spec_pattern::{RecvFault, RecvRefusal};
use std::alloc::Global;
use std::marker::PhantomData;
use zq_base::{Message, PairId};

/// A PUB: it sends to the peers that subscribed, and hears what they subscribe to (RFC 29, "The PUB
/// Socket Type").
pub type Pub = PubSocket<Plain>;

impl PubSocket<Plain> {
    /// No ends yet.
    pub fn new(alloc: Global) -> Pub
        ensures { result ≡ no_subscribers false false }
    {
        PubSocket {
            publisher: Publisher::new(alloc, false, false),
            extent: PhantomData,
        }
    }

    /// The end at this place is a peer no longer, and its topics go with it: none has its place
    /// then. This takes no memory.
    pub fn detach(&mut self, place: usize)
        ensures gone { self.new ≡ without_subscriber_at place self.old }
        ensures others { AreOthers place (self.new.ins ++ keys_of self.new.subs) }
        ensures defined { (ends : ℕ → End) → Detaches ends place self.old self.new }
    {
        self.publisher.leave(place);
    }

    /// Refused: a PUB never receives.
    pub fn recv<E: Peers>(&self, peers: &mut E) -> Result<(PairId, Message), RecvFault>
        ensures step { MatchRecv result ⊥ (λ answer. answer ≡ Refused NotSupported) }
        ensures peers { peers.new ≡ peers.old }
    {
        Err(RecvFault::Refused(RecvRefusal::NotSupported))
    }
}
