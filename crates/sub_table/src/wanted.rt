use crate::lengths::Lengths;
use crate::topic_set::TopicSet;
use std::alloc::{AllocError, Global};
use std::collections::BTreeMap;
use std::marker::Model;

/// Why a topic is not subscribed to.
#[derive(Clone, Copy, PartialEq, Eq)]
pub enum WantedError {
    SubLimit,
    OutOfMemory,
}

impl From<AllocError> for WantedError {
    ghost use Rattle.std.specs.Prelude.{◌≡◌};
    ghost use Rattle.sub_table.specs.declared.wanted.WantedError.TheVariants.{OutOfMemory};

    ghost from_gives = { λ _ e. e ≡ OutOfMemory };

    fn from(_: AllocError) -> Self {
        WantedError::OutOfMemory
    }
}

/// The topic is not subscribed to.
#[derive(Clone, Copy, PartialEq, Eq)]
pub struct NotSub;

/// The topics that a socket wants, each with the number of its subscriptions.
#[derive(Drop)]
pub struct Wanted {
    counts: BTreeMap<Vec<u8>, u64>,
    lengths: Lengths,
}

impl Model for Wanted {
    ghost use Rattle.std.specs.Prelude.{List, ℕ};
    ghost use Rattle.sub_table.specs.View.{entries_of};
    ghost use Rattle.sub_table.specs.Tables.{AreCounts};

    ghost Value = { List (List ℕ × ℕ) };

    ghost view = { λ w. entries_of w.counts.entries };

    ghost invariant = { λ w. AreCounts (entries_of w.counts.entries) w.lengths };
}

impl Wanted {
    ghost use Rattle.std.specs.Prelude.{◌≡◌, ◌↔◌, ◌||◌, ◌≤◌, ◌<◌, ℕ, List, [], length, true, false, IsTrue, IsOk, IfSome, IfNone, OnOk, OnErr, IsErrOf, if◌then◌else◌};
    ghost use Rattle.std.specs.Map.{keys_of, lookup, set_value, remove_entry};
    ghost use Rattle.std.specs.BTreeMap.{insert_entry};
    ghost use Rattle.std.specs.Str.{bytes_eq};
    ghost use Rattle.spec_pattern.specs.Topics.{AreInOrder, is_among, topic_cmp};
    ghost use Rattle.spec_pattern.specs.Wanted.{wants, is_at_limit, with_one_more, with_one_less, matches_wanted};

    /// The most distinct topics.
    pub const MAX: usize = 65_536;

    /// No topics.
    pub fn new(alloc: Global) -> Self
        ensures { result ≡ [] }
    {
        Wanted {
            counts: BTreeMap::new(alloc),
            lengths: Lengths::new(alloc),
        }
    }

    /// Subscribes to the topic once more.
    pub fn subscribe(&mut self, alloc: Global, topic: &[u8]) -> Result<(), WantedError>
        ensures limit { IsErrOf result WantedError.SubLimit
            ↔ ((wants self.old topic.now ≡ false) × (is_at_limit self.old ≡ true)) }
        ensures ok { OnOk result (self.new ≡ with_one_more topic.now self.old) }
        ensures err { OnErr result (self.new ≡ self.old) }
    {
        if let Some(count) = self.count(topic) {
            self.set(topic, count.saturating_add(1));
            return Ok(());
        }
        if self.is_at_limit() {
            return Err(WantedError::SubLimit);
        }
        self.begin(alloc, topic)?;
        Ok(())
    }

    /// Cancels one subscription to the topic.
    pub fn unsubscribe(&mut self, topic: &[u8]) -> Result<(), NotSub>
        ensures wanted { IsOk result ↔ IsTrue (wants self.old topic.now) }
        ensures ok { OnOk result (self.new ≡ with_one_less topic.now self.old) }
        ensures err { OnErr result (self.new ≡ self.old) }
    {
        let Some(count) = self.count(topic) else {
            return Err(NotSub);
        };
        if count <= 1 {
            self.end(topic);
        } else {
            self.set(topic, count - 1);
        }
        Ok(())
    }

    /// Whether the topic is wanted. The topics that are wanted stand in order.
    pub fn wants(&self, topic: &[u8]) -> bool
        ensures value { result ≡ wants self.now topic.now }
        ensures order { AreInOrder (keys_of self.now) }
    {
        self.counts.contains_key(topic)
    }

    /// Whether one of the topics is a prefix of the octets. A prefix is looked up once, and only
    /// where a topic is as long.
    pub fn matches(&self, octets: &[u8]) -> bool
        ensures { result ≡ matches_wanted self.now octets.now }
    {
        let mut from = 0;
        'prefixes: while let Some(end) = self.next_end(from, octets.len()) {
            if self.wants(&octets[..end]) {
                return true;
            }
            from = end + 1;
        }
        false
    }

    /// Whether as many topics are wanted as may be.
    pub fn is_at_limit(&self) -> bool
        ensures { result ≡ is_at_limit self.now }
    {
        self.counts.len() >= Wanted::MAX
    }

    /// Adds the topics to a set. Where memory wants, some of them.
    pub(crate) fn add_to(&self, alloc: Global, topics: &mut TopicSet) -> Result<(), AllocError>
        ensures ok { OnOk result ((t : List ℕ) →
            is_among topics.new t ≡ (is_among topics.old t || wants self.now t)) }
    {
        'topics: for topic in self.counts.keys() {
            topics.add(alloc, topic.as_slice())?;
        }
        Ok(())
    }

    /// The octet behind which the topic is told: 1 where it is wanted, and 0 where it is not.
    pub(crate) fn octet(&self, topic: &[u8]) -> u8
        ensures { result ≡ (if wants self.now topic.now then 1 else 0) }
    {
        if self.wants(topic) { 1 } else { 0 }
    }

    // How many more subscriptions than cancels a wanted topic has.
    fn count(&self, topic: &[u8]) -> Option<u64>
        ensures { result ≡ lookup (bytes_eq topic.now) self.now }
    {
        self.counts.get(topic).copied()
    }

    // Sets the count of a topic that is wanted.
    fn set(&mut self, topic: &[u8], count: u64)
        ensures { self.new ≡ set_value (bytes_eq topic.now) self.old count }
    {
        match self.counts.get_mut(topic) {
            Some(slot) => {
                *slot = count;
                return;
            }
            None => return,
        }
    }

    // Puts a topic in its place, with one subscription.
    fn begin(&mut self, alloc: Global, topic: &[u8]) -> Result<(), AllocError>
        requires { wants self.old topic.now ≡ false }
        ensures ok { OnOk result (self.new ≡ insert_entry topic_cmp self.old topic.now 1) }
        ensures err { OnErr result (self.new ≡ self.old) }
    {
        let key = Vec::from_slice(alloc, topic)?;
        self.lengths.add(topic.len())?;
        match self.counts.insert(key, 1) {
            Ok(_) => return Ok(()),
            Err(e) => {
                self.lengths.remove(topic.len());
                return Err(e.into());
            }
        }
    }

    // Takes a topic out that is wanted.
    fn end(&mut self, topic: &[u8])
        requires { wants self.old topic.now ≡ true }
        ensures { self.new ≡ remove_entry (bytes_eq topic.now) self.old }
    {
        self.counts.remove(topic);
        self.lengths.remove(topic.len());
    }

    // The least length from this one on that a topic has, up to the last.
    fn next_end(&self, from: usize, last: usize) -> Option<usize>
        ensures some { IfSome result (λ n. (from ≤ n) × (n ≤ last)
            × ((t : List ℕ) → from ≤ length t → length t < n → wants self.now t ≡ false)) }
        ensures none { IfNone result ((t : List ℕ) → from ≤ length t → length t ≤ last →
            wants self.now t ≡ false) }
    {
        match self.lengths.next(from) {
            Some(end) => {
                if end > last {
                    return None;
                }
                return Some(end);
            }
            None => return None,
        }
    }
}
