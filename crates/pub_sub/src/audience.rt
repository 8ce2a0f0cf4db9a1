ghost use Rattle.std.specs.Prelude.{◌≡◌, ◌≤◌, ◌+◌, ◌++◌, ◌&&◌, [], length, nat_eq, cond, true, false, IfOk, OnOk, OnErr};
ghost use Rattle.std.specs.Map.{keys_of};
ghost use Rattle.spec_pattern.specs.Topics.{topics_gone, without_peer, after_add, after_cancel, IsTopic};
ghost use Rattle.spec_pattern.specs.Publishing.{Adds, Cancels, saying_of};
ghost use Rattle.pub_sub.specs.Places.{is_place, AreOthers};
ghost use Rattle.pub_sub.specs.Notes.{with_room};
ghost use Rattle.pub_sub.specs.Publishers.{subs_after_at, is_news_at, cancels_of};
ghost use Rattle.pub_sub.specs.Audiences.{CanTell, is_news_of, gain_of};

use crate::inbox::Inbox;
use std::alloc::{AllocError, Global};
use sub_table::{Added, Cancelled, Saying, Topics, saying_of};
use zq_base::{Message, PairId};

// The peers' topics, and what waits for the user: for one who hears each add, or news alone, or for
// nobody.
#[derive(Drop)]
pub(crate) struct Audience {
    pub(crate) topics: Topics,
    pub(crate) inbox: Inbox,
    pub(crate) verbose: bool,
    pub(crate) tells: bool,
}

impl Audience {
    // Obeys what the peer at this place says: whether the user is to be told, for which there is
    // room.
    pub(crate) fn heed(
        &mut self,
        alloc: Global,
        place: usize,
        message: &Message,
    ) -> Result<bool, AllocError>
        requires known { is_place (keys_of self.old.topics) place ≡ true }
        requires can { CanTell self.old.tells self.old.inbox.spare self.old.topics 0 }
        ensures ok { OnOk result (self.new ≡ record self.old {
          topics = subs_after_at place (saying_of message.now) self.old.topics;
          inbox = with_room self.new.inbox.spare self.old.inbox;
        }) }
        ensures news { IfOk result (λ b. b ≡ (self.old.tells
            && is_news_at self.old.verbose self.old.topics place (saying_of message.now))) }
        ensures can { IfOk result (λ b.
            CanTell self.new.tells self.new.inbox.spare self.new.topics (cond b 1 0)) }
        ensures err { OnErr result (self.new ≡ self.old) }
    {
        match saying_of(message) {
            Saying::Adds(topic) => return self.add(alloc, place, topic),
            Saying::Cancels(topic) => return Ok(self.cancel(place, topic)),
            Saying::Other => return self.hear(),
        }
    }

    // Adds a topic of the peer at this place.
    fn add(&mut self, alloc: Global, place: usize, topic: &[u8]) -> Result<bool, AllocError>
        requires known { is_place (keys_of self.old.topics) place ≡ true }
        requires short { IsTopic topic.now }
        requires can { CanTell self.old.tells self.old.inbox.spare self.old.topics 0 }
        ensures ok { OnOk result (self.new ≡ record self.old {
          topics = after_add nat_eq place topic.now self.old.topics;
          inbox = with_room self.new.inbox.spare self.old.inbox;
        }) }
        ensures news { IfOk result (λ b. b ≡ (self.old.tells
            && is_news_at self.old.verbose self.old.topics place (Adds topic.now))) }
        ensures can { IfOk result (λ b.
            CanTell self.new.tells self.new.inbox.spare self.new.topics (cond b 1 0)) }
        ensures err { OnErr result (self.new ≡ self.old) }
    {
        if !self.tells {
            self.topics.add(alloc, place, topic)?;
            return Ok(false);
        }
        self.inbox.reserve(2)?;
        match self.topics.add(alloc, place, topic) {
            Ok(added) => return Ok(self.take_in(added)),
            Err(fault) => {
                self.inbox.release(2);
                return Err(fault);
            }
        }
    }

    // Cancels a topic of the peer at this place.
    fn cancel(&mut self, place: usize, topic: &[u8]) -> bool
        requires known { is_place (keys_of self.old.topics) place ≡ true }
        requires can { CanTell self.old.tells self.old.inbox.spare self.old.topics 0 }
        ensures ok { self.new ≡ record self.old {
          topics = after_cancel nat_eq place topic.now self.old.topics;
          inbox = with_room self.new.inbox.spare self.old.inbox;
        } }
        ensures news { result ≡ (self.old.tells
            && is_news_at self.old.verbose self.old.topics place (Cancels topic.now)) }
        ensures can { CanTell self.new.tells self.new.inbox.spare self.new.topics (cond result 1 0) }
    {
        match self.topics.cancel(place, topic) {
            Cancelled::Last => return self.tells,
            Cancelled::Gone => {
                if self.tells {
                    self.inbox.release(1);
                }
                return false;
            }
            Cancelled::Unknown => return false,
        }
    }

    // Takes in a message that is no subscription.
    fn hear(&mut self) -> Result<bool, AllocError>
        requires can { CanTell self.old.tells self.old.inbox.spare self.old.topics 0 }
        ensures ok { OnOk result (self.new ≡ record self.old {
          inbox = with_room self.new.inbox.spare self.old.inbox;
        }) }
        ensures news { IfOk result (λ b. b ≡ self.old.tells) }
        ensures can { IfOk result (λ b.
            CanTell self.new.tells self.new.inbox.spare self.new.topics (cond b 1 0)) }
        ensures err { OnErr result (self.new ≡ self.old) }
    {
        if !self.tells {
            return Ok(false);
        }
        self.inbox.reserve(1)?;
        Ok(true)
    }

    // Whether an add is told, of whose room for two this keeps as much as is wanted.
    fn take_in(&mut self, added: Added) -> bool
        requires { 2 ≤ self.old.inbox.spare }
        ensures ok { self.new ≡ record self.old {
          inbox = with_room self.new.inbox.spare self.old.inbox;
        } }
        ensures news { result ≡ is_news_of self.old.verbose added }
        ensures room { self.new.inbox.spare + 2
            ≡ self.old.inbox.spare + (gain_of added + cond result 1 0) }
    {
        match added {
            Added::First => return true,
            Added::Added => {
                if !self.verbose {
                    self.inbox.release(1);
                }
                return self.verbose;
            }
            Added::Known => {
                self.inbox.release(2);
                return false;
            }
            Added::Ignored => {
                self.inbox.release(2);
                return false;
            }
        }
    }

    // The peer at this place goes, and the user is told of the topics that nobody else has.
    pub(crate) fn leave(&mut self, pair: PairId, place: usize)
        requires tells { self.old.tells ≡ true }
        requires can { CanTell self.old.tells self.old.inbox.spare self.old.topics 0 }
        ensures ok { self.new ≡ record self.old {
          topics = without_peer nat_eq place self.old.topics;
          inbox = record {
            notices = self.old.inbox.notices
                ++ cancels_of pair (topics_gone nat_eq self.old.topics place);
            spare = self.new.inbox.spare;
          };
        } }
        ensures can { CanTell self.new.tells self.new.inbox.spare self.new.topics 0 }
        ensures others { AreOthers place (keys_of self.new.topics) }
    {
        let rest = self.inbox.spare() - self.topics.count(place);
        'topics: while let Some(topic) = self.topics.next_gone(place) {
            self.inbox.push_cancel(pair, topic);
        }
        let spare = self.inbox.spare();
        self.inbox.release(spare - rest);
    }
}
