//! Laws of the control plane over its definitions alone: whatever order commands are delivered in,
//! what is asked to end ends, an object after all that it owns, and each command comes once, for
//! one that lives. What callers read off their own items is so in the control state.
#![tactic(auto)]

mod attached;
mod bounds;
mod counts;
mod held;
mod laws;
mod moves;
mod others;
mod rows;
mod sockets;
mod workers;

pub use attached::{ends_are_attached_once, no_end_is_there_before_its_plug};
pub use bounds::{
    ending_is_bounded, first_room_is_so, history_room_is_kept, outputs_wait, room_is_kept,
    worked_counts_are_so,
};
pub use counts::{commands_come_once, worked_runs_take_so_many};
pub use held::{
    ends_are_here, holders_have_what_is_said, lent_holders_have_it, other_holders_stay,
};
pub use laws::{a_quiescent_root_has_ended, letters_are_for_the_living, runs_are_kept};
pub use moves::{
    a_rest_has_its_reason, each_event_is_made_of_steps, no_never_cell_is_met,
    the_oldest_command_may_come,
};
pub use others::other_ends_stay;
pub use rows::{
    children_and_ends_go_first, each_step_moves_ends_by_the_table, each_step_moves_the_tree,
    nothing_comes_for_an_ended_object,
};
pub use sockets::{had_objects_are_there, known_sockets_have_kinds, sockets_are_open};
pub use workers::workers_may_ask;
