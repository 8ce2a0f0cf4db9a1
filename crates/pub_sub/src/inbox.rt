ghost use Rattle.std.specs.Prelude.{◌≡◌, ◌<◌, ◌≤◌, ◌+◌, ◌-◌, [], ◌∷◌, length, IfOk, OnOk, OnErr, MatchOption};
ghost use Rattle.zq_base.specs.Message.{max_octets};
ghost use Rattle.spec_pattern.specs.Pipe.{IsCommittable};
ghost use Rattle.pub_sub.specs.Notes.{notice, cancel, nothing_waits, with_room, with_notice};
ghost use Rattle.spec_pattern.specs.Topics.{IsTopic};

use crate::note::Note;
use bytes::Bytes;
use mailbox::Mailbox;
use std::alloc::{AllocError, Global};
use std::marker::Model;
use zq_base::{Frame, Message, PairId};

// What waits for the user, in order, and room for what will come without memory.
#[derive(Drop)]
pub(crate) struct Inbox {
    notes: Mailbox<Note>,
}

impl Model for Inbox {
    ghost use Rattle.std.specs.Prelude.{map, All};
    ghost use Rattle.pub_sub.specs.Notes.{InboxState, notice_of, IsTellable};

    ghost Value = { InboxState };

    ghost view = { λ i. record { notices = map notice_of i.notes.commands; spare = i.notes.spare } };

    ghost invariant = { λ i. All IsTellable i.notes.commands };
}

impl Inbox {
    // Nothing waits, and no room is kept.
    pub(crate) fn new(alloc: Global) -> Inbox
        ensures { result ≡ nothing_waits }
    {
        Inbox {
            notes: Mailbox::new(alloc),
        }
    }

    // How many wait.
    pub(crate) fn len(&self) -> usize
        ensures { result ≡ length self.now.notices }
    {
        self.notes.len()
    }

    // How much room is kept.
    pub(crate) fn spare(&self) -> usize
        ensures { result ≡ self.now.spare }
    {
        self.notes.spare()
    }

    // Keeps room for so many more.
    pub(crate) fn reserve(&mut self, more: usize) -> Result<(), AllocError>
        ensures ok { OnOk result (self.new ≡ with_room (self.old.spare + more) self.old) }
        ensures err { OnErr result (self.new ≡ self.old) }
    {
        self.notes.reserve(more)
    }

    // Gives up room that was kept.
    pub(crate) fn release(&mut self, fewer: usize)
        requires { fewer ≤ self.old.spare }
        ensures { self.new ≡ with_room (self.old.spare - fewer) self.old }
    {
        self.notes.release(fewer);
    }

    // A message of this pair's peer waits.
    pub(crate) fn push(&mut self, pair: PairId, message: Message)
        requires { 0 < self.old.spare }
        ensures { self.new ≡ with_notice (notice pair message) self.old }
    {
        self.notes.send(Note::Heard(pair, message));
    }

    // A topic that this pair's peer had is cancelled.
    pub(crate) fn push_cancel(&mut self, pair: PairId, topic: Vec<u8>)
        requires room { 0 < self.old.spare }
        requires short { IsTopic topic.items }
        ensures { self.new ≡ with_notice (notice pair (cancel topic.items)) self.old }
    {
        self.notes.send(Note::Cancelled(pair, topic));
    }

    // Takes out what waits first.
    pub(crate) fn take_front(
        &mut self,
        alloc: Global,
    ) -> Result<Option<(PairId, Message)>, AllocError>
        ensures ok { IfOk result (λ r. MatchOption r
            ((self.old.notices ≡ []) × (self.new ≡ self.old))
            (λ n. (self.old.notices ≡ notice n.0 n.1 ∷ self.new.notices)
            × (self.new.spare ≡ self.old.spare))) }
        ensures err { OnErr result (self.new ≡ self.old) }
    {
        match self.notes.take_front() {
            Some(Note::Heard(pair, message)) => return Ok(Some((pair, message))),
            Some(Note::Cancelled(pair, topic)) => match one_frame(alloc, 0, topic.as_slice()) {
                Ok(message) => return Ok(Some((pair, message))),
                Err(fault) => {
                    self.notes.put_back(Note::Cancelled(pair, topic));
                    return Err(fault);
                }
            },
            None => return Ok(None),
        }
    }
}

// A message of one frame: an octet, and a topic behind it.
pub(crate) fn one_frame(alloc: Global, octet: u8, topic: &[u8]) -> Result<Message, AllocError>
    requires { IsTopic topic.now }
    ensures value { IfOk result (λ m. m ≡ (octet ∷ topic.now) ∷ []) }
    ensures fits { IfOk result (λ m. IsCommittable m) }
{
    let mut octets = Vec::with_capacity(alloc, topic.len() + 1)?;
    octets.push_reserved(octet);
    octets.extend_from_slice(topic)?;
    let mut frames = Vec::with_capacity(alloc, 1)?;
    match Bytes::from_vec(octets) {
        Ok(body) => {
            frames.push_reserved(Frame::of_bytes(body));
            return Ok(Message::of_frames(frames));
        }
        Err(_failed) => return Err(AllocError),
    }
}
