ghost use Rattle.std.specs.Prelude.{◌≡◌, ◌+◌, ◌%◌, ◌<◌, ◌≤◌, ◌∷◌, [], true, false, length, IfErr, OnOk, OnErr};
ghost use Rattle.std.specs.Arc.{arc_value};
ghost use Rattle.spec_pattern.specs.PipeStep.{most_commits};
ghost use Rattle.spec_pattern.specs.Pipe.{IsCommittable, max_capacity};

use crate::plays::{Fill, LookAtLimit, LookAtRoom, LookForRoom, Shut};
use crate::table::{FILLED, FREE, PipeSeat, PipeTable, SEALED};
use crate::waker::Waker;
use msg_pipe::{Committed, PutIn};
use std::alloc::{AllocFailed, Global};
use std::mem;
use std::sync::Arc;
use zq_base::{Frame, Message};

/// The most messages that are ever committed to one pipe.
pub(crate) const MOST: u64 = 4_611_686_018_427_387_902;

/// The writing half of a pipe between threads.
#[derive(Drop)]
pub struct SharedOut {
    pub(crate) table: Arc<PipeTable, Global>,
    pub(crate) seat: PipeSeat,
    pub(crate) reader: Waker,
    pub(crate) parts: Vec<Frame>,
    pub(crate) capacity: usize,
    pub(crate) next: usize,
    pub(crate) committed: u64,
    ghost ties: { (seat.table_id ≡ (arc_value table).shared.table_id)
        × ((arc_value table).shared.key ≡ capacity) },
    ghost places: { ((arc_value table).shared.table_id.words ≡ capacity + 1)
        × ((arc_value table).shared.table_id.slots ≡ capacity + 1) },
    ghost small: { (0 < capacity) × (capacity ≤ max_capacity) },
    ghost counted: { (committed ≡ length seat.me.0.writing.committed)
        × (committed ≤ most_commits) },
    ghost place: { next ≡ length seat.me.0.writing.committed % (capacity + 1) },
    ghost idle: { (seat.me.0.writes ≡ true) × (seat.me.0.writing.lent ≡ false)
        × (seat.me.1 ≡ []) },
}

impl SharedOut {
    ghost use Rattle.std.specs.Prelude.{◌≡◌, ◌+◌, ◌%◌, ◌∷◌, [], false, length, IfErr, OnOk, OnErr};
    ghost use Rattle.spec_pattern.specs.Pipe.{IsCommittable};
    ghost use Rattle.spec_pattern.specs.Half.{with_part, without_parts, with_delimiter};
    ghost use Rattle.msg_pipe.specs.Told.{Puts, SeesRoom, CommitsParts};
    ghost use Rattle.shared_pipe.specs.Halves.{writing_of, name_of_out};

    /// The place behind the next one.
    pub(crate) fn after(&self) -> usize
        ensures { result ≡
            (length (writing_of self.now).committed + 1) % ((writing_of self.now).capacity + 1) }
    {
        if self.next == self.capacity {
            0
        } else {
            self.next + 1
        }
    }

    /// Adds a frame to the message that is being built.
    pub(crate) fn part(&mut self, frame: Frame) -> Result<(), AllocFailed<Frame>>
        ensures ok { OnOk result (writing_of self.new ≡
            with_part (frame ∷ []) (writing_of self.old)) }
        ensures err { OnErr result (writing_of self.new ≡ writing_of self.old) }
        ensures back { IfErr result (λ e. e.value ≡ frame) }
        ensures name { name_of_out self.new ≡ name_of_out self.old }
    {
        self.parts.push(frame)
    }

    /// Forgets the parts.
    pub(crate) fn rollback(&mut self)
        ensures forgets { writing_of self.new ≡ without_parts (writing_of self.old) }
        ensures name { name_of_out self.new ≡ name_of_out self.old }
    {
        self.parts.clear();
    }

    /// Commits the message that was built, or finds the pipe full and keeps the parts.
    pub(crate) fn commit(&mut self) -> Committed
        requires open { (writing_of self.old).sealed ≡ false }
        requires whole { IsCommittable (writing_of self.old).parts }
        ensures commit { CommitsParts (writing_of self.old) result (writing_of self.new) }
        ensures name { name_of_out self.new ≡ name_of_out self.old }
    {
        let alloc = *self.parts.allocator();
        let parts = mem::replace(&mut self.parts, Vec::new(alloc));
        match self.put(Message::of_frames(parts)) {
            PutIn::Ok => Committed::Ok,
            PutIn::Full(message) => {
                self.parts = message.into_frames();
                Committed::Full
            }
        }
    }

    /// Commits a message and wakes the reader, or finds the pipe full.
    pub(crate) fn put(&mut self, message: Message) -> PutIn
        requires open { (writing_of self.old).sealed ≡ false }
        requires whole { IsCommittable message }
        ensures put { Puts (writing_of self.old) message result (writing_of self.new) }
        ensures name { name_of_out self.new ≡ name_of_out self.old }
    {
        match self.lay(message) {
            PutIn::Ok => {
                self.reader.wake();
                PutIn::Ok
            }
            PutIn::Full(back) => PutIn::Full(back),
        }
    }

    /// Commits a message, or finds the pipe full. It wakes nobody.
    pub(crate) fn lay(&mut self, message: Message) -> PutIn
        requires open { (writing_of self.old).sealed ≡ false }
        requires whole { IsCommittable message }
        ensures put { Puts (writing_of self.old) message result (writing_of self.new) }
        ensures name { name_of_out self.new ≡ name_of_out self.old }
    {
        let after = self.after();
        let table = &self.table.shared;
        if self.committed == MOST {
            table.load::<LookAtLimit>(&mut self.seat, after);
            return PutIn::Full(message);
        }
        if table.load::<LookForRoom>(&mut self.seat, after) != FREE {
            return PutIn::Full(message);
        }
        table.exchange(&mut self.seat, self.next, Some(message));
        table.store::<Fill>(&mut self.seat, self.next, FILLED);
        self.next = after;
        self.committed += 1;
        PutIn::Ok
    }

    /// Looks whether there is room for a message, and puts none.
    pub(crate) fn room(&mut self) -> bool
        ensures room { SeesRoom (writing_of self.old) result (writing_of self.new) }
        ensures name { name_of_out self.new ≡ name_of_out self.old }
    {
        let after = self.after();
        let table = &self.table.shared;
        if self.committed == MOST {
            table.load::<LookAtLimit>(&mut self.seat, after);
            return false;
        }
        table.load::<LookAtRoom>(&mut self.seat, after) == FREE
    }

    /// Writes the delimiter and wakes the reader.
    pub(crate) fn seal(&mut self)
        requires open { (writing_of self.old).sealed ≡ false }
        ensures seals { writing_of self.new ≡ with_delimiter (writing_of self.old) }
        ensures name { name_of_out self.new ≡ name_of_out self.old }
    {
        self.table
            .shared
            .store::<Shut>(&mut self.seat, self.next, SEALED);
        self.reader.wake();
    }
}
