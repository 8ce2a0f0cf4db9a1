use crate::lengths::Lengths;
use crate::peer_set::PeerSet;
use std::alloc::{AllocError, Global};
use std::collections::BTreeMap;
use std::marker::Model;

/// The peers of each topic that has any, and how long these topics are.
#[derive(Drop)]
pub(crate) struct Holders {
    by_topic: BTreeMap<Vec<u8>, PeerSet>,
    lengths: Lengths,
}

impl Model for Holders {
    ghost use Rattle.std.specs.Prelude.{List, ℕ};
    ghost use Rattle.std.specs.Map.{keys_of};
    ghost use Rattle.sub_table.specs.Lengths.{AreLengths};
    ghost use Rattle.sub_table.specs.View.{entries_of};

    ghost Value = { List (List ℕ × List ℕ) };

    ghost view = { λ h. entries_of h.by_topic.entries };

    ghost invariant = { λ h. AreLengths (keys_of (entries_of h.by_topic.entries)) h.lengths };
}

impl Holders {
    ghost use Rattle.std.specs.Prelude.{◌≡◌, ◌≤◌, ◌<◌, ◌&&◌, ◌||◌, ℕ, List, None, not, [], length, nat_eq, is_some, true, IsTrue, OnOk, OnErr, IfSome, IfNone};
    ghost use Rattle.std.specs.List.{list_any};
    ghost use Rattle.std.specs.Map.{lookup};
    ghost use Rattle.std.specs.Option.{option_map};
    ghost use Rattle.std.specs.Str.{bytes_eq};
    ghost use Rattle.sub_table.specs.View.{holders_of, holds, is_peer, Gains, Loses};

    /// No topics.
    pub(crate) fn new(alloc: Global) -> Self
        ensures { result ≡ [] }
    {
        Holders {
            by_topic: BTreeMap::new(alloc),
            lengths: Lengths::new(alloc),
        }
    }

    /// The least length from this one on that a topic has.
    pub(crate) fn next_length(&self, from: usize) -> Option<usize>
        ensures some { IfSome result (λ n. (from ≤ n)
            × ((t : List ℕ) → from ≤ length t → length t < n → holders_of self.now t ≡ [])) }
        ensures none { IfNone result ((t : List ℕ) → from ≤ length t → holders_of self.now t ≡ []) }
    {
        self.lengths.next(from)
    }

    /// The peers of the topic.
    pub(crate) fn peers(&self, topic: &[u8]) -> Option<&PeerSet>
        ensures { option_map (λ p. p.now) result ≡ lookup (bytes_eq topic.now) self.now }
    {
        self.by_topic.get(topic)
    }

    /// Whether a peer other than this one has the topic.
    pub(crate) fn has_other(&self, topic: &[u8], peer: usize) -> bool
        ensures { result ≡ list_any (λ q. not (nat_eq peer q)) (holders_of self.now topic.now) }
    {
        match self.peers(topic) {
            Some(peers) => return peers.has_other(peer),
            None => return false,
        }
    }

    /// Adds the topic's peers to these. Where memory wants, some of them.
    pub(crate) fn add_to(&self, topic: &[u8], found: &mut PeerSet) -> Result<(), AllocError>
        ensures ok { OnOk result ((q : ℕ) →
            is_peer found.new q ≡ (is_peer found.old q || holds self.now topic.now q)) }
    {
        match self.peers(topic) {
            Some(peers) => return found.add_all(peers),
            None => return Ok(()),
        }
    }

    /// The peer has the topic.
    pub(crate) fn add(&mut self, alloc: Global, topic: &[u8], peer: usize) -> Result<(), AllocError>
        ensures ok { OnOk result (Gains topic.now peer self.old self.new) }
        ensures err { OnErr result ((t : List ℕ) (q : ℕ) → holds self.new t q ≡ holds self.old t q) }
    {
        match self.by_topic.get_mut(topic) {
            Some(peers) => match peers.add(peer) {
                Ok(()) => return Ok(()),
                Err(e) => return Err(e),
            },
            None => return self.begin(alloc, topic, peer),
        }
    }

    /// The peer has the topic no longer.
    pub(crate) fn remove(&mut self, topic: &[u8], peer: usize)
        ensures { Loses topic.now peer self.old self.new }
    {
        if self.leaves_none(topic, peer) {
            self.by_topic.remove(topic);
            self.lengths.remove(topic.len());
        }
    }

    // The peer has a topic that nobody has.
    fn begin(&mut self, alloc: Global, topic: &[u8], peer: usize) -> Result<(), AllocError>
        requires { lookup (bytes_eq topic.now) self.old ≡ None }
        ensures ok { OnOk result (Gains topic.now peer self.old self.new) }
        ensures err { OnErr result ((t : List ℕ) (q : ℕ) → holds self.new t q ≡ holds self.old t q) }
    {
        let key = Vec::from_slice(alloc, topic)?;
        let mut peers = PeerSet::new(alloc);
        peers.add(peer)?;
        self.lengths.add(topic.len())?;
        match self.by_topic.insert(key, peers) {
            Ok(_) => return Ok(()),
            Err(e) => {
                self.lengths.remove(topic.len());
                return Err(e.into());
            }
        }
    }

    // Takes the peer out, and says whether it was the topic's last.
    fn leaves_none(&mut self, topic: &[u8], peer: usize) -> bool
        ensures loses { Loses topic.now peer self.old self.new }
        ensures none { IsTrue result → (holders_of self.new topic.now ≡ [])
            × (is_some (lookup (bytes_eq topic.now) self.new) ≡ true) }
    {
        match self.by_topic.get_mut(topic) {
            Some(peers) => {
                peers.remove(peer);
                return peers.is_empty();
            }
            None => return false,
        }
    }
}
