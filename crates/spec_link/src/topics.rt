ghost use Rattle.std.specs.Prelude.{◌≡◌, [], None, OnOk, OnErr};
ghost use Rattle.spec_pattern.specs.Publishing.{saying_of, Adds, Cancels};
ghost use Rattle.spec_link.specs.Topics.{with_saying, with_again, NextAgain, IsLeft};
ghost use Rattle.spec_pattern.specs.Topics.{IsTopic};

use crate::again::adds_of;
use std::alloc::{AllocError, Global};
use std::collections::{BTreeSet, VecDeque};
use std::marker::Model;
use sub_table::{Saying, saying_of};
use zq_base::Message;

/// The topics that a session took for its peer, and the messages that say them again at a link.
#[derive(Drop)]
pub struct LinkTopics {
    topics: BTreeSet<Vec<u8>>,
    again: Option<VecDeque<Message>>,
}

impl Model for LinkTopics {
    ghost use Rattle.std.specs.Prelude.{option_map};
    ghost use Rattle.sub_table.specs.View.{topics_in};
    ghost use Rattle.spec_link.specs.Topics.{Topics, AreShort};

    ghost Value = { Topics };

    ghost view = { λ t. record {
      taken = topics_in t.topics.keys;
      again = option_map (λ q. q.items) t.again;
    } };

    ghost invariant = { λ t. AreShort (topics_in t.topics.keys) };
}

impl LinkTopics {
    /// No topics, and no messages.
    pub fn new(alloc: Global) -> LinkTopics
        ensures { result ≡ record { taken = []; again = None } }
    {
        LinkTopics {
            topics: BTreeSet::new(alloc),
            again: None,
        }
    }

    // Adds a topic.
    fn add(&mut self, alloc: Global, topic: &[u8]) -> Result<(), AllocError>
        requires short { IsTopic topic.now }
        ensures ok { OnOk result (self.new ≡ with_saying (Adds topic.now) self.old) }
        ensures err { OnErr result (self.new ≡ self.old) }
    {
        let octets = Vec::from_slice(alloc, topic)?;
        self.topics.insert(octets)?;
        Ok(())
    }

    // Takes a topic out.
    fn remove(&mut self, topic: &[u8])
        ensures { self.new ≡ with_saying (Cancels topic.now) self.old }
    {
        self.topics.remove(topic);
    }

    /// Notes what a message says that was taken for the peer (RFC 29): a topic that is subscribed
    /// to, or cancelled.
    pub fn note(&mut self, alloc: Global, message: &Message) -> Result<(), AllocError>
        ensures ok { OnOk result (self.new ≡ with_saying (saying_of message.now) self.old) }
        ensures err { OnErr result (self.new ≡ self.old) }
    {
        match saying_of(message) {
            Saying::Adds(topic) => return self.add(alloc, topic),
            Saying::Cancels(topic) => {
                self.remove(topic);
                return Ok(());
            }
            Saying::Other => return Ok(()),
        }
    }

    /// Makes the messages that say all topics again, unless they are there.
    pub fn prepare(&mut self, alloc: Global) -> Result<(), AllocError>
        ensures ok { OnOk result (self.new ≡ with_again self.old) }
        ensures err { OnErr result (self.new ≡ self.old) }
    {
        match &self.again {
            Some(_) => return Ok(()),
            None => {}
        }
        let messages = adds_of(alloc, &self.topics)?;
        self.again = Some(messages);
        Ok(())
    }

    /// Whether a topic is still to be said again.
    pub fn is_left(&self) -> bool
        ensures { IsLeft result self.now.again }
    {
        match &self.again {
            None => return false,
            Some(messages) => {
                if messages.is_empty() {
                    return false;
                }
                return true;
            }
        }
    }

    /// The message that says the next topic again, where one is left.
    pub fn next(&mut self) -> Option<Message>
        ensures { NextAgain self.old result self.new }
    {
        match &mut self.again {
            None => return None,
            Some(messages) => return messages.pop_front(),
        }
    }

    /// A link is over: at the next one all topics are said again.
    pub fn link_over(&mut self)
        ensures { self.new ≡ record self.old { again = None } }
    {
        self.again = None;
    }
}
