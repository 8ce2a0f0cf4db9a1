ghost use Rattle.std.specs.Prelude.{◌≡◌, ◌<◌, All, length};
ghost use Rattle.zq_base.specs.Message.{max_octets};
ghost use Rattle.spec_pattern.specs.PatternCalls.{Subscribe, Unsubscribe};
ghost use Rattle.msg_pipe.specs.Places.{KeepsPlaces};
ghost use Rattle.any_sock.specs.Over.{peer_places, HaveSamePlaces, left_of};
ghost use Rattle.any_sock.specs.Calls.{MatchChanged, ChangedOver, ChangeUndone, ChangeUntold};

use crate::any_sock::AnySock;
use crate::change_fault::{ChangeFault, of_subscriber};
use msg_pipe::Peers;
use std::alloc::Global;

impl AnySock {
    /// Subscribes once more to the topic, of at most 16,777,215 octets, and tells its peers
    /// (zmq_setsockopt(3), "ZMQ_SUBSCRIBE"): `NoTopics` of a kind that is neither SUB nor XSUB,
    /// `SubLimit` where 65,536 other topics are wanted.
    pub fn subscribe<E: Peers>(
        &mut self,
        alloc: Global,
        peers: &mut E,
        topic: &[u8],
    ) -> Result<(), ChangeFault>
        requires there { All (E.here peers.old) (peer_places self.old) }
        requires short { length topic.now < max_octets }
        ensures step { MatchChanged result (ChangeUndone peers.old peers.new self.old self.new)
            (ChangeUntold E.runs (E.end_at peers.old) (E.writable peers.old) Subscribe topic.now
            peers.old peers.new self.old self.new)
            (λ answer. ChangedOver E.runs (E.end_at peers.old) (E.writable peers.old) Subscribe
            topic.now peers.old peers.new self.old answer self.new) }
        ensures places { HaveSamePlaces (peer_places self.old) (peer_places self.new) }
        ensures left { left_of self.new ≡ left_of self.old }
        ensures keeps { KeepsPlaces E.here E.end_at E.writable peers.old peers.new }
    {
        match self {
            AnySock::Sub(subscriber) => {
                return of_subscriber(subscriber.subscribe(alloc, peers, topic));
            }
            AnySock::XSub(subscriber) => {
                return of_subscriber(subscriber.subscribe(alloc, peers, topic));
            }
            _ => return Err(ChangeFault::NoTopics),
        }
    }

    /// Cancels one subscription to the topic, and tells its peers (zmq_setsockopt(3),
    /// "ZMQ_UNSUBSCRIBE"): `NoTopics` of a kind that is neither SUB nor XSUB, `NotSub` where the
    /// topic is not wanted.
    pub fn unsubscribe<E: Peers>(
        &mut self,
        alloc: Global,
        peers: &mut E,
        topic: &[u8],
    ) -> Result<(), ChangeFault>
        requires there { All (E.here peers.old) (peer_places self.old) }
        ensures step { MatchChanged result (ChangeUndone peers.old peers.new self.old self.new)
            (ChangeUntold E.runs (E.end_at peers.old) (E.writable peers.old) Unsubscribe topic.now
            peers.old peers.new self.old self.new)
            (λ answer. ChangedOver E.runs (E.end_at peers.old) (E.writable peers.old) Unsubscribe
            topic.now peers.old peers.new self.old answer self.new) }
        ensures places { HaveSamePlaces (peer_places self.old) (peer_places self.new) }
        ensures left { left_of self.new ≡ left_of self.old }
        ensures keeps { KeepsPlaces E.here E.end_at E.writable peers.old peers.new }
    {
        match self {
            AnySock::Sub(subscriber) => {
                return of_subscriber(subscriber.unsubscribe(alloc, peers, topic));
            }
            AnySock::XSub(subscriber) => {
                return of_subscriber(subscriber.unsubscribe(alloc, peers, topic));
            }
            _ => return Err(ChangeFault::NoTopics),
        }
    }
}
