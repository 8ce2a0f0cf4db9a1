//! The ends of one owner with their halves, by place, over any pipes: what each event of an end
//! does to its halves, and what calls did, read off their steps.
#![tactic(auto)]

mod changes;
mod ends;
mod finding;
mod giving;
mod halving;
mod held_laws;
mod laws;
mod looking;
mod pipes;
mod placing;
mod plain;
mod row;
mod table;

pub use changes::PipeChange;
pub use ends::Ends;
pub use finding::find;
pub use giving::give_ends;
pub use halving::{seal, set_state, settle, yield_writer};
pub use held_laws::{
    calls_keep_ends_sound, calls_leave_others, halves_fit_still, others_stay_sound,
    sound_ends_are_held, stretches_leave_others,
};
pub use laws::{
    calls_are_read_exactly, calls_are_read_loosely, calls_keep_ends_held,
    two_workers_keep_the_order,
};
pub use looking::look;
pub use pipes::HeldPipes;
pub use placing::{give_back, join, make, prepare, take_back};
pub use row::EndRow;
pub use table::{EndTable, Place};
