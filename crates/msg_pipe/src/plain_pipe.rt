ghost use Rattle.std.specs.Prelude.{◌≡◌, ◌+◌, ◌≤◌, ◌++◌, All, true, length, take, drop};
ghost use Rattle.std.specs.VecDeque.{deque_len, deque_capacity};
ghost use Rattle.spec_pattern.specs.PipeStep.{most_commits};
ghost use Rattle.spec_pattern.specs.Pipe.{IsCommittable};

use crate::pipes::{Committed, Front, PutIn, Taken};
use std::alloc::{AllocError, AllocFailed, Global};
use std::collections::VecDeque;
use std::mem;
use zq_base::{Frame, Log, Message, Settled};

/// The most messages that are ever committed to one pipe.
const MOST: u64 = 4_611_686_018_427_387_902;

/// A pipe of one thread. It keeps the messages that wait and counts the others; `past` has those
/// that were taken, for proofs alone, and takes no memory.
#[derive(Drop)]
pub struct PlainPipe {
    pub(crate) capacity: usize,
    pub(crate) waiting: VecDeque<Message>,
    pub(crate) parts: Vec<Frame>,
    pub(crate) past: Log<Message, ()>,
    pub(crate) taken: u64,
    pub(crate) committed: u64,
    pub(crate) freed: u64,
    pub(crate) seen: u64,
    pub(crate) full_looks: u64,
    pub(crate) empty_looks: u64,
    pub(crate) sealed: bool,
    pub(crate) ended: bool,
    ghost room: { (deque_len waiting ≤ capacity) × (capacity ≤ deque_capacity waiting) },
    ghost counts: { (taken ≡ length past.items) × (committed ≡ taken + deque_len waiting)
        × (committed ≤ most_commits) },
    ghost looks: { (freed ≤ taken) × (taken ≤ seen) × (seen ≤ committed) },
    ghost end: { ended ≡ true → (sealed ≡ true) × (deque_len waiting ≡ 0) },
    ghost whole: { All IsCommittable waiting.items },
}

impl PlainPipe {
    ghost use Rattle.std.specs.Prelude.{◌≡◌, ◌-◌, ◌≤◌, ◌∷◌, [], All, false, length, IfOk, IfErr, OnOk, OnErr};
    ghost use Rattle.std.specs.VecDeque.{deque_capacity};
    ghost use Rattle.spec_pattern.specs.Pipe.{IsCommittable};
    ghost use Rattle.spec_pattern.specs.Half.{fresh_writing, fresh_reading, with_part, without_parts, with_delimiter, AreHalves};
    ghost use Rattle.msg_pipe.specs.Told.{Puts, PutsMany, SeesRoom, CommitsParts, Finds, FrontFinds, SeesAll, front_of, end_of};
    ghost use Rattle.msg_pipe.specs.PlainPipe.{plain_writing, plain_reading, plain_taken, plain_committed};

    /// A pipe with room for so many messages.
    pub fn new(alloc: Global, capacity: usize) -> Result<PlainPipe, AllocError>
        ensures writing { IfOk result (λ p. plain_writing p ≡ fresh_writing capacity) }
        ensures reading { IfOk result (λ p. plain_reading p ≡ fresh_reading) }
    {
        let waiting = VecDeque::with_capacity(alloc, capacity)?;
        Ok(PlainPipe::over(alloc, capacity, waiting))
    }

    // A new pipe over an empty queue that has the room.
    fn over(alloc: Global, capacity: usize, waiting: VecDeque<Message>) -> PlainPipe
        requires empty { waiting.items ≡ [] }
        requires room { capacity ≤ deque_capacity waiting }
        ensures writing { plain_writing result ≡ fresh_writing capacity }
        ensures reading { plain_reading result ≡ fresh_reading }
    {
        PlainPipe {
            capacity,
            waiting,
            parts: Vec::new(alloc),
            past: Log::new(),
            taken: 0,
            committed: 0,
            freed: 0,
            seen: 0,
            full_looks: 0,
            empty_looks: 0,
            sealed: false,
            ended: false,
        }
    }

    /// Adds a frame to the message that is being built.
    pub(crate) fn part(&mut self, frame: Frame) -> Result<(), AllocFailed<Frame>>
        ensures ok { OnOk result (plain_writing self.new ≡
            with_part (frame ∷ []) (plain_writing self.old)) }
        ensures err { OnErr result (plain_writing self.new ≡ plain_writing self.old) }
        ensures back { IfErr result (λ e. e.value ≡ frame) }
        ensures reading { plain_reading self.new ≡ plain_reading self.old }
    {
        self.parts.push(frame)
    }

    /// Commits the message that was built, or finds the pipe full and keeps the parts.
    pub(crate) fn commit(&mut self) -> Committed
        requires open { self.old.sealed ≡ false }
        requires whole { IsCommittable self.old.parts.items }
        ensures commit { CommitsParts (plain_writing self.old) result (plain_writing self.new) }
        ensures exact { self.new.freed ≡ length (plain_taken self.old) }
        ensures reading { plain_reading self.new ≡ plain_reading self.old }
    {
        let alloc = *self.parts.allocator();
        let parts = mem::replace(&mut self.parts, Vec::new(alloc));
        match self.put(Message::of_frames(parts)) {
            PutIn::Ok => Committed::Ok,
            PutIn::Full(message) => {
                self.parts = message.into_frames();
                Committed::Full
            }
        }
    }

    /// Forgets the parts.
    pub(crate) fn rollback(&mut self)
        ensures forgets { plain_writing self.new ≡ without_parts (plain_writing self.old) }
        ensures reading { plain_reading self.new ≡ plain_reading self.old }
    {
        self.parts.clear();
    }

    /// Commits a message, or finds the pipe full.
    pub fn put(&mut self, message: Message) -> PutIn
        requires open { (plain_writing self.old).sealed ≡ false }
        requires whole { IsCommittable message }
        ensures put { Puts (plain_writing self.old) message result (plain_writing self.new) }
        ensures exact { (plain_writing self.new).freed ≡ length (plain_taken self.old) }
        ensures reading { plain_reading self.new ≡ plain_reading self.old }
    {
        if !self.room() {
            return PutIn::Full(message);
        }
        self.waiting.push_back_reserved(message);
        self.committed += 1;
        PutIn::Ok
    }

    /// Commits messages from the front, as many as there is room for, and says how many. The rest
    /// stays. It takes no memory, and of no message it looks at nothing.
    pub(crate) fn put_many(&mut self, messages: &mut VecDeque<Message>) -> usize
        requires open { (plain_writing self.old).sealed ≡ false }
        requires whole { All IsCommittable messages.old.items }
        ensures many { PutsMany (plain_writing self.old) messages.old.items result
            messages.new.items (plain_writing self.new) }
        ensures exact { (messages.old.items ≡ [] → ⊥) →
            (plain_writing self.new).freed ≡ length (plain_taken self.old) }
        ensures reading { plain_reading self.new ≡ plain_reading self.old }
    {
        if messages.is_empty() {
            return 0;
        }
        if !self.room() {
            return 0;
        }
        let free = self.capacity - self.waiting.len();
        let few = (MOST - self.committed) as usize;
        let count = free.min(few).min(messages.len());
        move_front(messages, count, &mut self.waiting);
        self.committed += count as u64;
        count
    }

    /// Looks whether there is room for a message, and puts none.
    pub(crate) fn room(&mut self) -> bool
        requires open { (plain_writing self.old).sealed ≡ false }
        ensures room { SeesRoom (plain_writing self.old) result (plain_writing self.new) }
        ensures exact { (plain_writing self.new).freed ≡ length (plain_taken self.old) }
        ensures reading { plain_reading self.new ≡ plain_reading self.old }
    {
        self.freed = self.taken;
        if self.waiting.len() == self.capacity || self.committed == MOST {
            self.full_looks = self.full_looks.saturating_add(1);
            return false;
        }
        true
    }

    /// Writes the delimiter, behind all that was committed.
    pub fn seal(&mut self)
        ensures seals { plain_writing self.new ≡ with_delimiter (plain_writing self.old) }
        ensures reading { plain_reading self.new ≡ plain_reading self.old }
    {
        self.sealed = true;
    }

    /// Takes the oldest message.
    pub fn take(&mut self) -> Taken
        ensures take { Finds (plain_reading self.old) result (plain_reading self.new) }
        ensures exact { SeesAll (plain_writing self.old) (front_of result)
            (plain_reading self.new) }
        ensures writing { plain_writing self.new ≡ plain_writing self.old }
    {
        self.seen = self.committed;
        match self.waiting.pop_front() {
            Some(message) => {
                self.past = self.past.and(&message, &());
                self.taken += 1;
                Taken::Item(message)
            }
            None => {
                if self.meets_end() {
                    return Taken::Delimiter;
                }
                Taken::Empty
            }
        }
    }

    /// Looks at the front and takes nothing.
    pub(crate) fn front(&mut self) -> Front
        ensures front { FrontFinds (plain_reading self.old) result (plain_reading self.new) }
        ensures exact { SeesAll (plain_writing self.old) result (plain_reading self.new) }
        ensures writing { plain_writing self.new ≡ plain_writing self.old }
    {
        self.seen = self.committed;
        if self.taken < self.committed {
            return Front::Message;
        }
        if self.meets_end() {
            return Front::Delimiter;
        }
        Front::Empty
    }

    // A look that finds no message: it says whether the delimiter stands there, and is counted if not.
    fn meets_end(&mut self) -> bool
        requires none { self.old.committed ≡ self.old.taken }
        requires seen { self.old.seen ≡ self.old.committed }
        ensures front { FrontFinds (plain_reading self.old) (end_of result)
            (plain_reading self.new) }
        ensures exact { SeesAll (plain_writing self.old) (end_of result) (plain_reading self.new) }
        ensures writing { plain_writing self.new ≡ plain_writing self.old }
    {
        if self.sealed {
            self.ended = true;
            return true;
        }
        self.empty_looks = self.empty_looks.saturating_add(1);
        false
    }

    /// The counts so far: the messages committed, taken and left.
    pub fn counts(&self) -> Settled
        ensures sent { result.sent ≡ length (plain_committed self.now) }
        ensures got { result.got ≡ length (plain_taken self.now) }
        ensures rest { result.rest ≡ result.sent - result.got }
    {
        Settled {
            sent: self.committed,
            got: self.taken,
            rest: self.committed - self.taken,
        }
    }

    /// Tells the counts, and gives the memory back with the messages that are left.
    pub fn settle(&mut self) -> Settled
        ensures sent { result.sent ≡ length (plain_committed self.old) }
        ensures got { result.got ≡ length (plain_taken self.old) }
        ensures rest { result.rest ≡ result.sent - result.got }
        ensures halves { AreHalves (plain_writing self.old) (plain_reading self.old) }
    {
        let settled = Settled {
            sent: self.committed,
            got: self.taken,
            rest: self.committed - self.taken,
        };
        let alloc = *self.parts.allocator();
        *self = PlainPipe::over(alloc, 0, VecDeque::new(alloc));
        settled
    }
}

// Moves so many items from the front of one queue to the back of another, which has room for them.
fn move_front<T>(from: &mut VecDeque<T>, count: usize, to: &mut VecDeque<T>)
    requires some { count ≤ deque_len from.old }
    requires room { deque_len to.old + count ≤ deque_capacity to.old }
    ensures moved { to.new.items ≡ to.old.items ++ take count from.old.items }
    ensures rest { from.new.items ≡ drop count from.old.items }
    ensures len { deque_len to.new ≡ deque_len to.old + count }
    ensures capacity { deque_capacity to.new ≡ deque_capacity to.old }
{
    'items: for _moved in 0..count {
        match from.pop_front() {
            Some(item) => to.push_back_reserved(item),
            None => unreachable!(),
        }
    }
}
