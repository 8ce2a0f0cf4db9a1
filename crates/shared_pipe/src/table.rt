//! The table of a pipe: for capacity c it has c + 1 places, each a word and a slot.
//!
//! The writer looks at the word of the place behind the next: where it is free, so is the next. It
//! lays the message into the next slot, and one store of the next word makes it visible. The reader
//! looks at the word of the oldest place, takes the message out of the slot, and one store gives the
//! place back. The delimiter is a word alone. Each half has a seat of the table, of no memory, which
//! knows what it did and what its looks saw; the rule of the table says that this is true of the
//! other half.
ghost use Rattle.shared_pipe.specs.Rule.{IsSomePipe, fresh_view, writer_of, reader_of, both_of, no_view};

use crate::view::View;
use atomic_table::{Join, Seat, Split, Table, TableRule};
use std::alloc::Global;
use zq_base::Message;

/// The word of a place that has no message.
pub(crate) const FREE: u64 = 0;

/// The word of a place whose message waits.
pub(crate) const FILLED: u64 = 1;

/// The word of the place behind the last message of a sealed pipe.
pub(crate) const SEALED: u64 = 2;

/// The rule of a pipe, told its capacity.
pub struct PipeRule;

impl TableRule<Option<Message>, View, usize> for PipeRule {
    ghost holds = { IsSomePipe };

    ghost first = { λ c. fresh_view };
}

pub(crate) type PipeTable = Table<Option<Message>, View, usize, PipeRule, Global>;

/// What a half steps with. It takes no memory.
pub type PipeSeat = Seat<Option<Message>, View>;

/// The two halves part, and come together.
pub struct Halves;

impl Split<View> for Halves {
    ghost left = { writer_of };

    ghost right = { reader_of };
}

impl Join<View> for Halves {
    ghost both = { both_of };

    ghost spent = { no_view };
}
