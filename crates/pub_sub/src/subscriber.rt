ghost use Rattle.std.specs.Prelude.{◌≡◌, ◌<◌, ◌++◌, All, OnOk, OnErr, IsPermutation};
ghost use Rattle.std.specs.Map.{keys_of};
ghost use Rattle.spec_pattern.specs.Results.{MatchRecv};
ghost use Rattle.spec_pattern.specs.PatternCalls.{Subscribe, Unsubscribe};
ghost use Rattle.msg_pipe.specs.Places.{KeepsPlaces};
ghost use Rattle.spec_pattern.specs.Topics.{IsTopic};
ghost use Rattle.pub_sub.specs.Places.{AreOthers};
ghost use Rattle.pub_sub.specs.Subscribing.{no_publishers, with_publisher_at, without_publisher_at, KeepsFollowers, KeepsWanted, MatchChange, TellsPeers, StopsTelling, ChangesAt, ChangesUntold, SubGives, SubStops};

use crate::change_fault::ChangeFault;
use crate::follower::Follower;
use crate::followers::{find, note_all, tell_all};
use crate::sifter::Sifter;
use fair_queue::receive_dropping;
use msg_pipe::{Peers, Turns};
use spec_pattern::{RecvFault, Rule, Skip};
use std::alloc::{AllocError, Global};
use std::marker::Model;
use sub_table::{Wanted, WantedError};
use zq_base::{Message, PairId};

// A SUB or an XSUB: the turns of its peers, what it wants, and its peers with what each was told.
// Where it is quiet, none of them has anything left to be told.
#[derive(Drop)]
pub(crate) struct Subscriber {
    pub(crate) ins: Turns,
    pub(crate) wanted: Wanted,
    pub(crate) followers: Vec<Follower>,
    pub(crate) quiet: bool,
}

impl Model for Subscriber {
    ghost use Rattle.pub_sub.specs.Followers.{rows_of};
    ghost use Rattle.pub_sub.specs.Subscribing.{SubState, AreFollowed};

    ghost Value = { SubState };

    ghost view = { λ s. record {
      ins = s.ins;
      wanted = s.wanted;
      followers = rows_of s.followers.items;
    } };

    ghost invariant = { λ s. AreFollowed s.wanted s.followers.items s.quiet };
}

impl Subscriber {
    // No ends yet, and nothing wanted.
    pub(crate) fn new(alloc: Global) -> Subscriber
        ensures { result ≡ no_publishers }
    {
        Subscriber {
            ins: Turns::new(alloc),
            wanted: Wanted::new(alloc),
            followers: Vec::new(alloc),
            quiet: true,
        }
    }

    // Tells each peer what differs, in their order, while it has room. Where nothing is left for
    // any of them, none is looked at.
    pub(crate) fn tell<E: Peers>(&mut self, alloc: Global, peers: &mut E) -> Result<(), AllocError>
        requires there { All (E.here peers.old) (keys_of self.old.followers) }
        ensures told { OnOk result (TellsPeers E.runs (E.end_at peers.old) (E.writable peers.old)
            peers.old peers.new self.old self.new) }
        ensures memory { OnErr result (StopsTelling E.runs (E.end_at peers.old)
            (E.writable peers.old) peers.old peers.new self.old self.new) }
        ensures same { KeepsFollowers self.old self.new }
        ensures keeps { KeepsPlaces E.here E.end_at E.writable peers.old peers.new }
    {
        if self.quiet {
            return Ok(());
        }
        self.tell_each(alloc, peers)
    }

    // Looks at each peer, and tells it what differs.
    fn tell_each<E: Peers>(&mut self, alloc: Global, peers: &mut E) -> Result<(), AllocError>
        requires there { All (E.here peers.old) (keys_of self.old.followers) }
        ensures told { OnOk result (TellsPeers E.runs (E.end_at peers.old) (E.writable peers.old)
            peers.old peers.new self.old self.new) }
        ensures memory { OnErr result (StopsTelling E.runs (E.end_at peers.old)
            (E.writable peers.old) peers.old peers.new self.old self.new) }
        ensures same { KeepsFollowers self.old self.new }
        ensures keeps { KeepsPlaces E.here E.end_at E.writable peers.old peers.new }
    {
        self.quiet = false;
        let none = tell_all(alloc, &self.wanted, self.followers.as_mut_slice(), peers)?;
        self.quiet = none;
        Ok(())
    }

    // Subscribes to the topic once more, and tells it.
    pub(crate) fn subscribe<E: Peers>(
        &mut self,
        alloc: Global,
        peers: &mut E,
        topic: &[u8],
    ) -> Result<(), ChangeFault>
        requires there { All (E.here peers.old) (keys_of self.old.followers) }
        requires short { IsTopic topic.now }
        ensures step { MatchChange result ((self.new ≡ self.old) × (peers.new ≡ peers.old))
            (ChangesUntold E.runs (E.end_at peers.old) (E.writable peers.old) Subscribe topic.now
            peers.old peers.new self.old self.new)
            (λ answer. ChangesAt E.runs (E.end_at peers.old) (E.writable peers.old) Subscribe
            topic.now peers.old peers.new self.old answer self.new) }
        ensures same { KeepsFollowers self.old self.new }
        ensures keeps { KeepsPlaces E.here E.end_at E.writable peers.old peers.new }
    {
        match self.wanted.subscribe(alloc, topic) {
            Ok(()) => {}
            Err(WantedError::SubLimit) => return Err(ChangeFault::SubLimit),
            Err(WantedError::OutOfMemory) => return Err(ChangeFault::OutOfMemory),
        }
        note_all(alloc, topic, self.followers.as_mut_slice());
        self.quiet = false;
        match self.tell(alloc, peers) {
            Ok(()) => return Ok(()),
            Err(_) => return Err(ChangeFault::Untold),
        }
    }

    // Cancels one subscription to the topic, and tells it.
    pub(crate) fn unsubscribe<E: Peers>(
        &mut self,
        alloc: Global,
        peers: &mut E,
        topic: &[u8],
    ) -> Result<(), ChangeFault>
        requires there { All (E.here peers.old) (keys_of self.old.followers) }
        ensures step { MatchChange result ((self.new ≡ self.old) × (peers.new ≡ peers.old))
            (ChangesUntold E.runs (E.end_at peers.old) (E.writable peers.old) Unsubscribe topic.now
            peers.old peers.new self.old self.new)
            (λ answer. ChangesAt E.runs (E.end_at peers.old) (E.writable peers.old) Unsubscribe
            topic.now peers.old peers.new self.old answer self.new) }
        ensures same { KeepsFollowers self.old self.new }
        ensures keeps { KeepsPlaces E.here E.end_at E.writable peers.old peers.new }
    {
        match self.wanted.unsubscribe(topic) {
            Ok(()) => {}
            Err(_) => return Err(ChangeFault::NotSub),
        }
        note_all(alloc, topic, self.followers.as_mut_slice());
        self.quiet = false;
        match self.tell(alloc, peers) {
            Ok(()) => return Ok(()),
            Err(_) => return Err(ChangeFault::Untold),
        }
    }

    // Receives by turn what is wanted, and drops and tells the rest.
    pub(crate) fn recv_wanted<E: Peers>(
        &mut self,
        peers: &mut E,
        skips: &mut Vec<Skip>,
    ) -> Result<(PairId, Message), RecvFault>
        requires there { All (E.here peers.old) self.old.ins }
        ensures step { MatchRecv result
            (SubStops E.runs (E.end_at peers.old) peers.old peers.new
            skips.old.items skips.new.items self.old self.new)
            (λ answer. SubGives E.runs (E.end_at peers.old) peers.old peers.new
            skips.old.items skips.new.items self.old answer self.new) }
        ensures same { KeepsWanted self.old self.new }
        ensures places { IsPermutation self.old.ins self.new.ins }
        ensures keeps { KeepsPlaces E.here E.end_at E.writable peers.old peers.new }
    {
        let mut sifter = Sifter {
            wanted: &self.wanted,
        };
        match receive_dropping(&mut self.ins, &mut sifter, Rule::Filtered, peers, skips) {
            Ok((place, message)) => return Ok((peers.pair(place), message)),
            Err(fault) => return Err(fault),
        }
    }

    // The end at this place is attached, behind the others, whose places are lower.
    pub(crate) fn attach(&mut self, alloc: Global, place: usize) -> Result<(), AllocError>
        requires last { All (λ p. p < place) (keys_of self.old.followers) }
        ensures ok { OnOk result (self.new ≡ with_publisher_at place self.old) }
        ensures err { OnErr result (self.new ≡ self.old) }
    {
        self.ins.add(place)?;
        match self.followers.push(Follower::new(alloc, place)) {
            Ok(()) => {
                self.quiet = false;
                return Ok(());
            }
            Err(_failed) => {
                self.ins.take_back();
                return Err(AllocError);
            }
        }
    }

    // The end at this place is a peer no longer: none has its place then.
    pub(crate) fn leave(&mut self, place: usize)
        ensures gone { self.new ≡ without_publisher_at place self.old }
        ensures others { AreOthers place (self.new.ins ++ keys_of self.new.followers) }
    {
        self.ins.remove(place);
        if let Some(index) = find(self.followers.as_slice(), place) {
            let _gone = self.followers.remove(index);
        }
    }
}
