//! Prints the journal of a run, and parts of messages.
#![tactic(auto)]

mod answer;
mod entry;
mod journal;
mod number;
mod object;
mod part;
mod report;
mod row;

pub use journal::print;
pub use number::push_number;
pub use part::{push_part, push_parts};
pub use spec_run::{
    ActorLines, Answer, Entry, Journal, ObjectLine, ObjectRow, PipeRow, SettledRow,
};
