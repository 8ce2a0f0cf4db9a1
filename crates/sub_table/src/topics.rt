use crate::holders::Holders;
use crate::peer_set::PeerSet;
use crate::rows::{drop_topic, first_topic, put_topic};
use crate::topic_set::TopicSet;
use std::alloc::{AllocError, Global};
use std::collections::BTreeMap;
use std::marker::Model;

/// What adding a topic found.
#[derive(Clone, Copy, PartialEq, Eq)]
pub enum Added {
    First,
    Added,
    Known,
    Ignored,
}

/// What cancelling a topic left.
#[derive(Clone, Copy, PartialEq, Eq)]
pub enum Cancelled {
    Last,
    Gone,
    Unknown,
}

/// The topics that peers subscribed to. A peer goes by a number of the caller's, as its place, and
/// a peer that comes later has a greater one.
#[derive(Drop)]
pub struct Topics {
    peers: BTreeMap<usize, TopicSet>,
    holders: Holders,
}

impl Model for Topics {
    ghost use Rattle.std.specs.Prelude.{ℕ, List};
    ghost use Rattle.sub_table.specs.Tables.{AreTied};

    ghost Value = { List (ℕ × List (List ℕ)) };

    ghost view = { λ t. t.peers.entries };

    ghost invariant = { λ t. AreTied t.peers.entries t.holders };
}

impl Topics {
    ghost use Rattle.std.specs.Prelude.{◌≡◌, ◌<◌, ◌≤◌, ◌∷◌, [], ◌++◌, All, ℕ, List, length, nat_eq, is_some, true, false, IfOk, IfSome, IfNone, OnOk, OnErr, MatchOption};
    ghost use Rattle.std.specs.List.Sorted.{IsStrictlySortedBy};
    ghost use Rattle.std.specs.Map.{keys_of, lookup, set_value};
    ghost use Rattle.std.specs.Ordering.{nat_cmp};
    ghost use Rattle.spec_pattern.specs.Topics.{AreInOrder, with_topic, without_topic, topics_of, has_topic, others_have, with_peer, without_peer, after_add, after_cancel, matches, matching, topics_gone};
    ghost use Rattle.sub_table.specs.Tables.{TakesFirst, TakesGone};
    ghost use Rattle.sub_table.specs.View.{is_peer};
    ghost use Rattle.sub_table.specs.Answers.{add_answer, cancel_answer};

    /// The most topics of a peer.
    pub const MAX: usize = 65_536;

    /// No peers.
    pub fn new(alloc: Global) -> Self
        ensures { result ≡ [] }
    {
        Topics {
            peers: BTreeMap::new(alloc),
            holders: Holders::new(alloc),
        }
    }

    /// A peer comes, behind the others.
    pub fn join(&mut self, alloc: Global, peer: usize) -> Result<(), AllocError>
        requires { All (λ p. p < peer) (keys_of self.old) }
        ensures ok { OnOk result (self.new ≡ with_peer peer self.old) }
        ensures err { OnErr result (self.new ≡ self.old) }
    {
        self.peers.insert(peer, TopicSet::new(alloc))?;
        Ok(())
    }

    /// Adds a topic of the peer.
    pub fn add(&mut self, alloc: Global, peer: usize, topic: &[u8]) -> Result<Added, AllocError>
        requires { is_some (lookup (nat_eq peer) self.old) ≡ true }
        ensures reply { IfOk result (λ a. a ≡ add_answer self.old peer topic.now) }
        ensures ok { OnOk result (self.new ≡ after_add nat_eq peer topic.now self.old) }
        ensures err { OnErr result (self.new ≡ self.old) }
    {
        if self.has(peer, topic) {
            return Ok(Added::Known);
        }
        if self.count(peer) >= Topics::MAX {
            return Ok(Added::Ignored);
        }
        let others = self.others_have(peer, topic);
        self.insert(alloc, peer, topic)?;
        if others {
            return Ok(Added::Added);
        }
        Ok(Added::First)
    }

    /// Cancels a topic of the peer.
    pub fn cancel(&mut self, peer: usize, topic: &[u8]) -> Cancelled
        ensures reply { result ≡ cancel_answer self.old peer topic.now }
        ensures next { self.new ≡ after_cancel nat_eq peer topic.now self.old }
    {
        let had = self.has(peer, topic);
        let others = self.others_have(peer, topic);
        self.remove(peer, topic);
        if !had {
            Cancelled::Unknown
        } else if others {
            Cancelled::Gone
        } else {
            Cancelled::Last
        }
    }

    /// The peers that have a topic which is a prefix of the octets, in the order in which they
    /// came. A prefix is looked up once, and only where a topic is as long.
    pub fn matching(&self, alloc: Global, octets: &[u8]) -> Result<Vec<usize>, AllocError>
        ensures { IfOk result (λ v. v.items ≡ matching nat_eq self.now octets.now) }
    {
        let found = self.found(alloc, octets)?;
        let peers = found.into_vec(alloc)?;
        Ok(peers)
    }

    /// Takes out the next topic that goes with the peer, since nobody else has it. Where none is
    /// left, the peer goes: none has its number then.
    pub fn next_gone(&mut self, peer: usize) -> Option<Vec<u8>>
        ensures { MatchOption result
            ((topics_gone nat_eq self.old peer ≡ []) × (self.new ≡ without_peer nat_eq peer self.old)
            × All (λ p. nat_eq peer p ≡ false) (keys_of self.new))
            (λ t. TakesGone peer t.items self.old self.new) }
    {
        'topics: while let Some(topic) = self.take_first(peer) {
            if !self.others_have(peer, topic.as_slice()) {
                return Some(topic);
            }
        }
        self.peers.remove(&peer);
        None
    }

    /// The peer goes, with all its topics: none has its number then.
    pub fn leave(&mut self, peer: usize)
        ensures gone { self.new ≡ without_peer nat_eq peer self.old }
        ensures others { All (λ p. nat_eq peer p ≡ false) (keys_of self.new) }
    {
        'topics: while let Some(_topic) = self.next_gone(peer) {}
    }

    /// How many topics the peer has. They are in order, each once.
    pub fn count(&self, peer: usize) -> usize
        ensures value { result ≡ length (topics_of nat_eq self.now peer) }
        ensures order { AreInOrder (topics_of nat_eq self.now peer) }
    {
        match self.peers.get(&peer) {
            Some(topics) => return topics.len(),
            None => return 0,
        }
    }

    /// Whether the peer has the topic.
    pub fn has(&self, peer: usize, topic: &[u8]) -> bool
        ensures { result ≡ has_topic nat_eq self.now peer topic.now }
    {
        match self.peers.get(&peer) {
            Some(topics) => return topics.has(topic),
            None => return false,
        }
    }

    // Whether a peer other than this one has the topic.
    fn others_have(&self, peer: usize, topic: &[u8]) -> bool
        ensures { result ≡ others_have nat_eq self.now peer topic.now }
    {
        self.holders.has_other(topic, peer)
    }

    // Puts a topic among the peer's.
    fn insert(&mut self, alloc: Global, peer: usize, topic: &[u8]) -> Result<(), AllocError>
        requires here { is_some (lookup (nat_eq peer) self.old) ≡ true }
        requires new { has_topic nat_eq self.old peer topic.now ≡ false }
        ensures ok { OnOk result (self.new ≡
            set_value (nat_eq peer) self.old (with_topic topic.now (topics_of nat_eq self.old peer))) }
        ensures err { OnErr result (self.new ≡ self.old) }
    {
        self.holders.add(alloc, topic, peer)?;
        match put_topic(&mut self.peers, alloc, peer, topic) {
            Ok(()) => return Ok(()),
            Err(e) => {
                self.holders.remove(topic, peer);
                return Err(e);
            }
        }
    }

    // Takes a topic out of the peer's.
    fn remove(&mut self, peer: usize, topic: &[u8])
        ensures { self.new ≡ after_cancel nat_eq peer topic.now self.old }
    {
        self.holders.remove(topic, peer);
        drop_topic(&mut self.peers, peer, topic);
    }

    // Takes out the first of the peer's topics.
    fn take_first(&mut self, peer: usize) -> Option<Vec<u8>>
        ensures { MatchOption result
            ((topics_of nat_eq self.old peer ≡ []) × (self.new ≡ self.old))
            (λ t. TakesFirst peer t.items self.old self.new) }
    {
        match first_topic(&mut self.peers, peer) {
            Some(topic) => {
                self.holders.remove(topic.as_slice(), peer);
                return Some(topic);
            }
            None => return None,
        }
    }

    // The peers that have a topic which is a prefix of the octets.
    fn found(&self, alloc: Global, octets: &[u8]) -> Result<PeerSet, AllocError>
        ensures order { IsStrictlySortedBy nat_cmp (keys_of self.now) }
        ensures found { IfOk result (λ peers. (q : ℕ) →
            is_peer peers q ≡ matches (topics_of nat_eq self.now q) octets.now) }
    {
        let mut found = PeerSet::new(alloc);
        let mut from = 0;
        'prefixes: while let Some(end) = self.next_end(from, octets.len()) {
            self.holders.add_to(&octets[..end], &mut found)?;
            from = end + 1;
        }
        Ok(found)
    }

    // The least length from this one on that a topic has, up to the last.
    fn next_end(&self, from: usize, last: usize) -> Option<usize>
        ensures some { IfSome result (λ n. (from ≤ n) × (n ≤ last)
            × ((q : ℕ) (t : List ℕ) → from ≤ length t → length t < n → has_topic nat_eq self.now q t ≡ false)) }
        ensures none { IfNone result ((q : ℕ) (t : List ℕ) → from ≤ length t → length t ≤ last →
            has_topic nat_eq self.now q t ≡ false) }
    {
        match self.holders.next_length(from) {
            Some(end) => {
                if end > last {
                    return None;
                }
                return Some(end);
            }
            None => return None,
        }
    }
}
