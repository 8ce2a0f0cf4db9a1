use crate::topic_set::TopicSet;
use crate::wanted::Wanted;
use std::alloc::{AllocError, Global};
use std::marker::Model;

/// The topics that a peer was told, and those of which it may have to be told.
#[derive(Drop)]
pub struct Told {
    topics: TopicSet,
    suspects: TopicSet,
    lost: bool,
}

impl Model for Told {
    ghost use Rattle.sub_table.specs.Telling.{ToldState};

    ghost Value = { ToldState };

    ghost view = { λ t. record { told = t.topics; suspects = t.suspects; lost = t.lost } };
}

impl Told {
    ghost use Rattle.std.specs.Prelude.{◌≡◌, [], true, false, IfOk, OnOk, OnErr};
    ghost use Rattle.std.specs.Option.{option_map};
    ghost use Rattle.spec_pattern.specs.Topics.{is_among, with_topic, without_topic};
    ghost use Rattle.spec_pattern.specs.Wanted.{Wanted, difference};
    ghost use Rattle.sub_table.specs.Telling.{IsKnown, IsSettled, WantsAlike, IsStale};

    /// Nothing was told, and anything may have to be.
    pub fn new(alloc: Global) -> Self
        ensures { result ≡ record { told = []; suspects = []; lost = true } }
    {
        Told {
            topics: TopicSet::new(alloc),
            suspects: TopicSet::new(alloc),
            lost: true,
        }
    }

    /// The first topic in order that is in one and not in the other, behind octet 1 where it is
    /// wanted and 0 where it is not.
    pub fn difference(
        &mut self,
        alloc: Global,
        wanted: &Wanted,
    ) -> Result<Option<(u8, Vec<u8>)>, AllocError>
        requires { IsKnown wanted.now self.old }
        ensures value { IfOk result (λ d.
            option_map (λ c. (c.0, c.1.items)) d ≡ difference self.old.told wanted.now) }
        ensures told { self.new.told ≡ self.old.told }
        ensures known { IsKnown wanted.now self.new }
    {
        self.settle(alloc, wanted)?;
        let next = self.first(alloc, wanted)?;
        Ok(next)
    }

    /// Whether the peer was told the topic.
    pub fn is_told(&self, topic: &[u8]) -> bool
        ensures { result ≡ is_among self.now.told topic.now }
    {
        self.topics.has(topic)
    }

    /// Notes that the peer was told the topic.
    pub fn add(&mut self, alloc: Global, wanted: &Wanted, topic: &[u8]) -> Result<(), AllocError>
        ensures ok { OnOk result (self.new.told ≡ with_topic topic.now self.old.told) }
        ensures known { IsKnown wanted.now self.old → IsKnown wanted.now self.new }
        ensures err { OnErr result (self.new ≡ self.old) }
    {
        self.topics.add(alloc, topic)?;
        self.lost = self.lost || !(wanted.wants(topic) || self.suspects.has(topic));
        Ok(())
    }

    /// Notes that the peer was told that the topic is cancelled, or was not told it after all.
    pub fn cancel(&mut self, wanted: &Wanted, topic: &[u8])
        ensures told { self.new.told ≡ without_topic topic.now self.old.told }
        ensures known { IsKnown wanted.now self.old → IsKnown wanted.now self.new }
    {
        self.topics.remove(topic);
        self.lost = self.lost || (wanted.wants(topic) && !self.suspects.has(topic));
    }

    /// Notes that the topic is wanted, or is wanted no longer. Where memory wants, all topics are
    /// looked through at the next difference.
    pub fn note(&mut self, alloc: Global, topic: &[u8])
        ensures told { self.new.told ≡ self.old.told }
        ensures known { (v w : Wanted) → WantsAlike topic.now v w → IsKnown v self.old →
            IsKnown w self.new }
    {
        match self.suspects.add(alloc, topic) {
            Ok(()) => return,
            Err(_) => {
                self.lost = true;
                return;
            }
        }
    }

    // Looks through all topics where it must, and drops what differs no longer from the front.
    fn settle(&mut self, alloc: Global, wanted: &Wanted) -> Result<(), AllocError>
        requires { IsKnown wanted.now self.old }
        ensures settled { OnOk result (IsSettled wanted.now self.new) }
        ensures told { self.new.told ≡ self.old.told }
        ensures known { IsKnown wanted.now self.new }
    {
        self.find_all(alloc, wanted)?;
        'suspects: while self.is_first_stale(wanted) {
            self.suspects.take_first();
        }
        Ok(())
    }

    // Looks through all topics where it must.
    fn find_all(&mut self, alloc: Global, wanted: &Wanted) -> Result<(), AllocError>
        requires { IsKnown wanted.now self.old }
        ensures ok { OnOk result (self.new.lost ≡ false) }
        ensures told { self.new.told ≡ self.old.told }
        ensures known { IsKnown wanted.now self.new }
    {
        if !self.lost {
            return Ok(());
        }
        self.suspect_all(alloc, wanted)
    }

    // Suspects every topic that is wanted or was told.
    fn suspect_all(&mut self, alloc: Global, wanted: &Wanted) -> Result<(), AllocError>
        requires { self.old.lost ≡ true }
        ensures ok { OnOk result (self.new.lost ≡ false) }
        ensures told { self.new.told ≡ self.old.told }
        ensures known { IsKnown wanted.now self.new }
    {
        wanted.add_to(alloc, &mut self.suspects)?;
        self.suspects.add_all(alloc, &self.topics)?;
        self.lost = false;
        Ok(())
    }

    // Whether the first suspect is told and wanted, or neither.
    fn is_first_stale(&self, wanted: &Wanted) -> bool
        ensures { IsStale wanted.now self.now result }
    {
        match self.suspects.first() {
            Some(topic) => return self.topics.has(topic) == wanted.wants(topic),
            None => return false,
        }
    }

    // The first suspect, with its octet.
    fn first(&self, alloc: Global, wanted: &Wanted) -> Result<Option<(u8, Vec<u8>)>, AllocError>
        requires known { IsKnown wanted.now self.now }
        requires settled { IsSettled wanted.now self.now }
        ensures { IfOk result (λ d.
            option_map (λ c. (c.0, c.1.items)) d ≡ difference self.now.told wanted.now) }
    {
        match self.suspects.first() {
            Some(topic) => {
                let octet = wanted.octet(topic);
                let topic = Vec::from_slice(alloc, topic)?;
                return Ok(Some((octet, topic)));
            }
            None => return Ok(None),
        }
    }
}
