ghost use Rattle.std.specs.Prelude.{◌≡◌, ◌<◌, ◌++◌, ℕ, All, length, OnOk, OnErr};
ghost use Rattle.std.specs.Map.{keys_of};
ghost use Rattle.zq_base.specs.Message.{max_octets};
ghost use Rattle.spec_pattern.specs.TurnList.{End};
ghost use Rattle.spec_pattern.specs.PatternCalls.{Subscribe, Unsubscribe};
ghost use Rattle.msg_pipe.specs.Places.{KeepsPlaces};
ghost use Rattle.pub_sub.specs.Places.{AreOthers};
ghost use Rattle.pub_sub.specs.Subscribing.{no_publishers, with_publisher_at, without_publisher_at, Joins, Leaves, KeepsFollowers, MatchChange, TellsPeers, StopsTelling, ChangesAt, ChangesUntold};

use crate::change_fault::ChangeFault;
use crate::extent::Extent;
use crate::subscriber::Subscriber;
use msg_pipe::Peers;
use std::alloc::{AllocError, Global};
use std::marker::{Model, PhantomData};

/// A SUB, or where it is extended an XSUB: what both do.
#[derive(Drop)]
pub struct SubSocket<K: Extent> {
    pub(crate) subscriber: Subscriber,
    pub(crate) extent: PhantomData<K>,
}

impl<K: Extent> Model for SubSocket<K> {
    ghost use Rattle.pub_sub.specs.Subscribing.{SubState};

    ghost Value = { SubState };

    ghost view = { λ s. s.subscriber };
}

impl<K: Extent> SubSocket<K> {
    /// No ends yet, and nothing wanted.
    pub fn new(alloc: Global) -> SubSocket<K>
        ensures { result ≡ no_publishers }
    {
        SubSocket {
            subscriber: Subscriber::new(alloc),
            extent: PhantomData,
        }
    }

    /// The end at this place is attached, behind the others, whose places are lower: its turn comes
    /// last, and it was told nothing.
    pub fn attach(&mut self, alloc: Global, place: usize) -> Result<(), AllocError>
        requires last { All (λ p. p < place) (keys_of self.old.followers) }
        ensures ok { OnOk result (self.new ≡ with_publisher_at place self.old) }
        ensures defined { OnOk result ((ends : ℕ → End) → Joins ends place self.old self.new) }
        ensures err { OnErr result (self.new ≡ self.old) }
    {
        self.subscriber.attach(alloc, place)
    }

    /// The end at this place is a peer no longer: none has its place then. This takes no memory.
    pub fn detach(&mut self, place: usize)
        ensures gone { self.new ≡ without_publisher_at place self.old }
        ensures others { AreOthers place (self.new.ins ++ keys_of self.new.followers) }
        ensures defined { (ends : ℕ → End) → Leaves ends place self.old self.new }
    {
        self.subscriber.leave(place);
    }

    /// Tells each peer, in the order of attachment, the topics that it wants and the peer was not
    /// told, and those that the peer was told and it wants no longer, in their order, while the
    /// peer has room. Where memory wants, what is left is told at the next telling.
    pub fn tell<E: Peers>(&mut self, alloc: Global, peers: &mut E) -> Result<(), AllocError>
        requires there { All (E.here peers.old) (keys_of self.old.followers) }
        ensures told { OnOk result (TellsPeers E.runs (E.end_at peers.old) (E.writable peers.old)
            peers.old peers.new self.old self.new) }
        ensures memory { OnErr result (StopsTelling E.runs (E.end_at peers.old)
            (E.writable peers.old) peers.old peers.new self.old self.new) }
        ensures same { KeepsFollowers self.old self.new }
        ensures keeps { KeepsPlaces E.here E.end_at E.writable peers.old peers.new }
    {
        self.subscriber.tell(alloc, peers)
    }

    /// Subscribes once more to the topic, of at most 16,777,215 octets, and tells its peers.
    /// Subscriptions are counted (zmq_setsockopt(3), "ZMQ_SUBSCRIBE"): `SubLimit` where 65,536
    /// other topics are wanted.
    pub fn subscribe<E: Peers>(
        &mut self,
        alloc: Global,
        peers: &mut E,
        topic: &[u8],
    ) -> Result<(), ChangeFault>
        requires there { All (E.here peers.old) (keys_of self.old.followers) }
        requires short { length topic.now < max_octets }
        ensures step { MatchChange result ((self.new ≡ self.old) × (peers.new ≡ peers.old))
            (ChangesUntold E.runs (E.end_at peers.old) (E.writable peers.old) Subscribe topic.now
            peers.old peers.new self.old self.new)
            (λ answer. ChangesAt E.runs (E.end_at peers.old) (E.writable peers.old) Subscribe
            topic.now peers.old peers.new self.old answer self.new) }
        ensures same { KeepsFollowers self.old self.new }
        ensures keeps { KeepsPlaces E.here E.end_at E.writable peers.old peers.new }
    {
        self.subscriber.subscribe(alloc, peers, topic)
    }

    /// Cancels one subscription to the topic, and tells its peers (zmq_setsockopt(3),
    /// "ZMQ_UNSUBSCRIBE"): `NotSub` where the topic is not wanted.
    pub fn unsubscribe<E: Peers>(
        &mut self,
        alloc: Global,
        peers: &mut E,
        topic: &[u8],
    ) -> Result<(), ChangeFault>
        requires there { All (E.here peers.old) (keys_of self.old.followers) }
        ensures step { MatchChange result ((self.new ≡ self.old) × (peers.new ≡ peers.old))
            (ChangesUntold E.runs (E.end_at peers.old) (E.writable peers.old) Unsubscribe topic.now
            peers.old peers.new self.old self.new)
            (λ answer. ChangesAt E.runs (E.end_at peers.old) (E.writable peers.old) Unsubscribe
            topic.now peers.old peers.new self.old answer self.new) }
        ensures same { KeepsFollowers self.old self.new }
        ensures keeps { KeepsPlaces E.here E.end_at E.writable peers.old peers.new }
    {
        self.subscriber.unsubscribe(alloc, peers, topic)
    }
}
