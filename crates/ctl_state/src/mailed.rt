use std::alloc::{AllocError, Global};
use std::cell::Cell;
use zq_base::SlotId;

/// The mailboxes that were put into since they were last read, each of them once. Nothing is promised
/// of it: it is for waking alone.
#[derive(Drop)]
pub(crate) struct Mailed {
    slots: Vec<SlotId>,
    // For each mailbox the round in which it was last put into. No mailbox is new in round 0.
    rounds: Vec<u64>,
    round: u64,
    // Whether the slots are those of a round that was read. The next put begins a new one.
    is_read: Cell<bool>,
}

impl Mailed {
    /// Of no mailbox. It takes no memory.
    pub(crate) fn new(alloc: Global) -> Mailed {
        Mailed {
            slots: Vec::new(alloc),
            rounds: Vec::new(alloc),
            round: 1,
            is_read: Cell::new(false),
        }
    }

    /// Keeps room for the mailbox of this number, where those before it have theirs.
    pub(crate) fn reserve(&mut self, place: usize) -> Result<(), AllocError> {
        if self.rounds.len() <= place {
            self.rounds.push(0)?;
        }
        self.slots.reserve(self.rounds.len())?;
        Ok(())
    }

    /// The mailbox was put into. It takes no memory, since room was kept.
    pub(crate) fn note(&mut self, slot: SlotId) {
        if self.is_read.replace(false) {
            self.slots.clear();
            self.round = self.round.wrapping_add(1);
        }
        if self.is_new(slot.0 as usize) && self.slots.len() < self.slots.capacity() {
            self.slots.push_reserved(slot);
        }
    }

    // Whether the mailbox is put into for the first time in this round.
    fn is_new(&mut self, place: usize) -> bool {
        let round = self.round;
        match self.rounds.get_mut(place) {
            Some(last) => {
                let had = *last;
                *last = round;
                return had != round;
            }
            None => return false,
        }
    }

    /// Those mailboxes, in the order of their first puts.
    pub(crate) fn read(&self) -> &[SlotId] {
        if self.is_read.replace(true) {
            return &[];
        }
        self.slots.as_slice()
    }
}
