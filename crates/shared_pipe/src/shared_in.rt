ghost use Rattle.std.specs.Prelude.{◌≡◌, ◌+◌, ◌-◌, ◌%◌, ◌<◌, ◌≤◌, [], true, false, length};
ghost use Rattle.std.specs.Arc.{arc_value};
ghost use Rattle.spec_pattern.specs.PipeStep.{most_commits};
ghost use Rattle.spec_pattern.specs.Pipe.{max_capacity};

use crate::plays::{Compare, LookAtFront, LookForItem, Vacate};
use crate::shared_out::SharedOut;
use crate::table::{FREE, Halves, PipeSeat, PipeTable, SEALED};
use crate::waker::Waker;
use msg_pipe::{Front, Taken};
use std::alloc::Global;
use std::sync::Arc;
use zq_base::Settled;

/// The reading half of a pipe between threads.
#[derive(Drop)]
pub struct SharedIn {
    pub(crate) table: Arc<PipeTable, Global>,
    pub(crate) seat: PipeSeat,
    pub(crate) writer: Waker,
    pub(crate) capacity: usize,
    pub(crate) next: usize,
    pub(crate) taken: u64,
    ghost ties: { (seat.table_id ≡ (arc_value table).shared.table_id)
        × ((arc_value table).shared.key ≡ capacity) },
    ghost places: { ((arc_value table).shared.table_id.words ≡ capacity + 1)
        × ((arc_value table).shared.table_id.slots ≡ capacity + 1) },
    ghost small: { (0 < capacity) × (capacity ≤ max_capacity) },
    ghost counted: { (taken ≡ length seat.me.0.reading.taken) × (taken ≤ most_commits) },
    ghost place: { next ≡ length seat.me.0.reading.taken % (capacity + 1) },
    ghost idle: { (seat.me.0.reads ≡ true) × (seat.me.0.reading.drawn ≡ false)
        × (seat.me.1 ≡ []) },
}

impl SharedIn {
    ghost use Rattle.std.specs.Prelude.{◌≡◌, ◌+◌, ◌-◌, ◌%◌, length};
    ghost use Rattle.spec_pattern.specs.Half.{AreHalves};
    ghost use Rattle.msg_pipe.specs.Told.{Finds, FrontFinds};
    ghost use Rattle.shared_pipe.specs.Halves.{writing_of, reading_of, name_of_out, name_of_in};

    // The place behind the next one.
    fn after(&self) -> usize
        ensures { result ≡ (length (reading_of self.now).taken + 1) % (self.now.capacity + 1) }
    {
        if self.next == self.capacity {
            0
        } else {
            self.next + 1
        }
    }

    /// Takes the oldest message and wakes the writer.
    pub(crate) fn take(&mut self) -> Taken
        ensures take { Finds (reading_of self.old) result (reading_of self.new) }
        ensures name { name_of_in self.new ≡ name_of_in self.old }
    {
        let after = self.after();
        let table = &self.table.shared;
        let found = table.load::<LookForItem>(&mut self.seat, self.next);
        if found == FREE {
            return Taken::Empty;
        }
        if found == SEALED {
            return Taken::Delimiter;
        }
        let item = table.exchange(&mut self.seat, self.next, None);
        table.store::<Vacate>(&mut self.seat, self.next, FREE);
        self.next = after;
        self.taken += 1;
        self.writer.wake();
        match item {
            Some(message) => Taken::Item(message),
            None => unreachable!(),
        }
    }

    /// Looks at the front and takes nothing.
    pub(crate) fn front(&mut self) -> Front
        ensures front { FrontFinds (reading_of self.old) result (reading_of self.new) }
        ensures name { name_of_in self.new ≡ name_of_in self.old }
    {
        let found = self
            .table
            .shared
            .load::<LookAtFront>(&mut self.seat, self.next);
        if found == FREE {
            return Front::Empty;
        }
        if found == SEALED {
            return Front::Delimiter;
        }
        Front::Message
    }

    /// Joins the two halves of one pipe, and tells the counts.
    pub(crate) fn settle(self, out: SharedOut) -> Settled
        requires pair { name_of_in self ≡ name_of_out out }
        ensures sent { result.sent ≡ length (writing_of out).committed }
        ensures got { result.got ≡ length (reading_of self).taken }
        ensures rest { result.rest ≡ result.sent - result.got }
        ensures halves { AreHalves (writing_of out) (reading_of self) }
    {
        let SharedIn {
            table,
            mut seat,
            taken: got,
            ..
        } = self;
        let SharedOut {
            seat: other,
            committed: sent,
            ..
        } = out;
        table.shared.join_seat::<Halves>(&mut seat, other);
        table.shared.load::<Compare>(&mut seat, 0);
        Settled {
            sent,
            got,
            rest: sent - got,
        }
    }
}
