ghost use Rattle.std.specs.Prelude.{◌≡◌, ◌++◌, ℕ, All, true};
ghost use Rattle.std.specs.Map.{keys_of};
ghost use Rattle.spec_pattern.specs.TurnList.{End};
ghost use Rattle.spec_pattern.specs.Results.{MatchRecv};
ghost use Rattle.msg_pipe.specs.Places.{KeepsPlaces};
ghost use Rattle.pub_sub.specs.Places.{AreOthers};
ghost use Rattle.pub_sub.specs.Publishers.{no_subscribers, without_and_told, Detaches, KeepsPeers};
ghost use Rattle.pub_sub.specs.Hearing.{XPubGives, XPubStops};

use crate::extent::Extended;
use crate::pub_socket::PubSocket;
use crate::publisher::Publisher;
use msg_pipe::Peers;
use spec_pattern::RecvFault;
use std::alloc::Global;
use std::marker::PhantomData;
use zq_base::{Message, PairId};

/// An XPUB: a PUB whose user is told what its peers subscribe to and cancel, and what else they
/// send (RFC 29, "The XPUB Socket Type").
pub type XPub = PubSocket<Extended>;

impl PubSocket<Extended> {
    /// No ends yet. With `verbose` the user is told of each add, and otherwise of a topic's first
    /// (zmq_setsockopt(3), "ZMQ_XPUB_VERBOSE").
    pub fn new(alloc: Global, verbose: bool) -> XPub
        ensures { result ≡ no_subscribers verbose true }
    {
        PubSocket {
            publisher: Publisher::new(alloc, verbose, true),
            extent: PhantomData,
        }
    }

    /// The end at this place, which is of this pair, is a peer no longer. The user is told a cancel
    /// of each of its topics that nobody else has, in their order. None has its place then. This
    /// takes no memory.
    pub fn detach(&mut self, pair: PairId, place: usize)
        ensures gone { self.new ≡ without_and_told pair place self.old }
        ensures others { AreOthers place (self.new.ins ++ keys_of self.new.subs) }
        ensures defined { (ends : ℕ → End) → (ends place).pair ≡ pair →
            Detaches ends place self.old self.new }
    {
        self.publisher.leave_told(pair, place);
    }

    /// Gives what waits first for the user; with nothing waiting it hears its peers before that. With
    /// nothing waiting then: `Busy` where it heard 256, and else `Again`. A message that was kept
    /// where memory wanted is obeyed before all this. Want of memory loses nothing.
    pub fn recv<E: Peers>(
        &mut self,
        alloc: Global,
        peers: &mut E,
    ) -> Result<(PairId, Message), RecvFault>
        requires there { All (E.here peers.old) (keys_of self.old.subs) }
        ensures step { MatchRecv result
            (XPubStops E.runs (E.end_at peers.old) peers.old peers.new self.old self.new)
            (λ answer. XPubGives E.runs (E.end_at peers.old) peers.old peers.new
            self.old answer self.new) }
        ensures same { KeepsPeers self.old self.new }
        ensures keeps { KeepsPlaces E.here E.end_at E.writable peers.old peers.new }
    {
        self.publisher.recv(alloc, peers)
    }
}
