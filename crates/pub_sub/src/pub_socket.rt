ghost use Rattle.std.specs.Prelude.{◌≡◌, ◌<◌, ℕ, All, OnOk, OnErr};
ghost use Rattle.std.specs.Map.{keys_of};
ghost use Rattle.spec_pattern.specs.TurnList.{End};
ghost use Rattle.spec_pattern.specs.Results.{MatchSend, IfBack};
ghost use Rattle.msg_pipe.specs.Places.{KeepsPlaces};
ghost use Rattle.pub_sub.specs.Known.{AreKnown};
ghost use Rattle.pub_sub.specs.Publishers.{with_subscriber_at, Attaches, KeepsPeers, Publishes};
ghost use Rattle.pub_sub.specs.Hearing.{HearsPeers, StopsHearing};

use crate::extent::Extent;
use crate::publisher::Publisher;
use msg_pipe::Peers;
use spec_pattern::{SendFault, Sent};
use std::alloc::{AllocError, Global};
use std::marker::{Model, PhantomData};
use zq_base::Message;

/// A PUB, or where it is extended an XPUB: what both do.
#[derive(Drop)]
pub struct PubSocket<K: Extent> {
    pub(crate) publisher: Publisher,
    pub(crate) extent: PhantomData<K>,
}

impl<K: Extent> Model for PubSocket<K> {
    ghost use Rattle.std.specs.Prelude.{◌≡◌};
    ghost use Rattle.pub_sub.specs.Publishers.{PubState};

    ghost Value = { PubState };

    ghost view = { λ p. p.publisher };

    ghost invariant = { λ p. p.publisher.tells ≡ K.is_extended };
}

impl<K: Extent> PubSocket<K> {
    /// The end at this place is attached, behind the others, whose places are lower: its turn comes
    /// last, and it has no topic.
    pub fn attach(&mut self, alloc: Global, place: usize) -> Result<(), AllocError>
        requires last { All (λ p. p < place) (keys_of self.old.subs) }
        ensures ok { OnOk result (self.new ≡ with_subscriber_at place self.old) }
        ensures defined { OnOk result ((ends : ℕ → End) → Attaches ends place self.old self.new) }
        ensures err { OnErr result (self.new ≡ self.old) }
    {
        self.publisher.attach(alloc, place)
    }

    /// Its turns, and what is kept, are its peers'. It costs nothing.
    pub fn hears_its_peers(&self)
        ensures { AreKnown self.now }
    {
        self.publisher.hears_its_peers();
    }

    /// Hears its peers by turn, until none has a message, 256 were heard, or 1,000 messages wait
    /// for an XPUB's user. Subscriptions and cancels are obeyed; a PUB discards all else. Where
    /// memory wants, the message that it took is kept, and is the first at the next hearing,
    /// uncounted.
    pub fn hear_peers<E: Peers>(&mut self, alloc: Global, peers: &mut E) -> Result<(), AllocError>
        requires there { All (E.here peers.old) (keys_of self.old.subs) }
        ensures heard { OnOk result (HearsPeers E.runs (E.end_at peers.old)
            peers.old peers.new self.old self.new) }
        ensures memory { OnErr result (StopsHearing E.runs (E.end_at peers.old)
            peers.old peers.new self.old self.new) }
        ensures same { KeepsPeers self.old self.new }
        ensures keeps { KeepsPlaces E.here E.end_at E.writable peers.old peers.new }
    {
        self.publisher.hear_peers(alloc, peers)
    }

    /// Sends to each peer that has a topic which is a prefix of the first frame, in the order of
    /// attachment, where there is room: `TooLarge` from 1,024 frames on. It is dropped as `NoMatch`
    /// where no such peer can be written, and as `PubFull` where all are full.
    pub fn send<E: Peers>(
        &self,
        alloc: Global,
        peers: &mut E,
        message: Message,
    ) -> Result<Sent, SendFault>
        requires there { All (E.here peers.old) (keys_of self.now.subs) }
        ensures step { MatchSend result (peers.new ≡ peers.old) (λ answer.
            Publishes E.runs (E.end_at peers.old) (E.writable peers.old) message
            peers.old peers.new self.now answer) }
        ensures back { IfBack result (λ back. back ≡ message) }
        ensures keeps { KeepsPlaces E.here E.end_at E.writable peers.old peers.new }
    {
        self.publisher.send(alloc, peers, message)
    }
}
