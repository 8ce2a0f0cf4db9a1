use std::alloc::{AllocError, Global};
use std::collections::BTreeSet;
use std::marker::Model;

/// Topics in the order of their octets, each once.
#[derive(Drop)]
pub struct TopicSet {
    topics: BTreeSet<Vec<u8>>,
}

impl Model for TopicSet {
    ghost use Rattle.std.specs.Prelude.{List, ℕ};
    ghost use Rattle.spec_pattern.specs.Topics.{AreInOrder};
    ghost use Rattle.sub_table.specs.View.{topics_in};

    ghost Value = { List (List ℕ) };

    ghost view = { λ t. topics_in t.topics.keys };

    ghost invariant = { λ t. AreInOrder (topics_in t.topics.keys) };
}

impl TopicSet {
    ghost use Rattle.std.specs.Prelude.{◌≡◌, ◌∷◌, ◌||◌, ◌&&◌, not, [], ℕ, List, length, IfSome, OnOk, OnErr, MatchOption};
    ghost use Rattle.std.specs.Str.{bytes_eq};
    ghost use Rattle.spec_pattern.specs.Topics.{AreInOrder, is_among, with_topic, without_topic};

    /// No topics.
    pub fn new(alloc: Global) -> Self
        ensures { result ≡ [] }
    {
        TopicSet {
            topics: BTreeSet::new(alloc),
        }
    }

    /// How many topics there are.
    pub fn len(&self) -> usize
        ensures value { result ≡ length self.now }
        ensures order { AreInOrder self.now }
    {
        self.topics.len()
    }

    /// Whether the topic is there.
    pub fn has(&self, topic: &[u8]) -> bool
        ensures value { result ≡ is_among self.now topic.now }
        ensures order { AreInOrder self.now }
    {
        self.topics.contains(topic)
    }

    /// The first topic in order.
    pub fn first(&self) -> Option<&[u8]>
        ensures first { MatchOption result (self.now ≡ [])
            (λ t. (rest : List (List ℕ)) × (self.now ≡ t.now ∷ rest)) }
        ensures order { AreInOrder self.now }
    {
        match self.topics.first() {
            Some(topic) => Some(topic.as_slice()),
            None => None,
        }
    }

    /// Adds a topic, where it is not there.
    pub fn add(&mut self, alloc: Global, topic: &[u8]) -> Result<(), AllocError>
        ensures ok { OnOk result (self.new ≡ with_topic topic.now self.old) }
        ensures members { OnOk result ((t : List ℕ) →
            is_among self.new t ≡ (bytes_eq topic.now t || is_among self.old t)) }
        ensures err { OnErr result (self.new ≡ self.old) }
    {
        let topic = Vec::from_slice(alloc, topic)?;
        self.topics.insert(topic)?;
        Ok(())
    }

    /// Adds all of these topics. Where memory wants, some of them.
    pub(crate) fn add_all(&mut self, alloc: Global, others: &TopicSet) -> Result<(), AllocError>
        ensures ok { OnOk result ((t : List ℕ) →
            is_among self.new t ≡ (is_among self.old t || is_among others.now t)) }
    {
        'topics: for topic in &others.topics {
            self.add(alloc, topic.as_slice())?;
        }
        Ok(())
    }

    /// Takes a topic out, where it is there.
    pub fn remove(&mut self, topic: &[u8])
        ensures topics { self.new ≡ without_topic topic.now self.old }
        ensures members { (t : List ℕ) →
            is_among self.new t ≡ (not (bytes_eq topic.now t) && is_among self.old t) }
    {
        self.topics.remove(topic);
    }

    /// Takes out the first topic in order.
    pub fn take_first(&mut self) -> Option<Vec<u8>>
        ensures first { MatchOption result ((self.old ≡ []) × (self.new ≡ []))
            (λ t. self.old ≡ t.items ∷ self.new) }
        ensures members { IfSome result (λ gone. (t : List ℕ) →
            is_among self.new t ≡ (not (bytes_eq gone.items t) && is_among self.old t)) }
    {
        match self.topics.pop_first() {
            Some(topic) => return Some(topic),
            None => return None,
        }
    }
}
