//! Laws of what a call on one open socket, or of the reaper, leaves of all else on one thread: the
//! other open sockets, the steps past, the closed sockets and what is on its way to them.
#![tactic(auto)]

mod asked;
mod laws;
mod reaped;
mod reaper;
mod reaping;
mod rows;
mod standing;

pub use asked::asks_its_own;
pub use laws::{
    calls_send_none, closed_are_apart, closes_are_on, coming_join_still, endings_send_none,
    held_places_are_apart, lines_are_on, none_is_sent, objects_are_there, old_ends_came,
    other_places_stay, others_agree_still, others_are_kept, others_say_the_same, others_stay_owned,
    owned_are_apart, pipes_settled_were_read, sends_no_other, sends_none_at_all,
};
pub use reaped::{
    bound_ends_stand, closed_binds_fit, given_may_be_taken, given_stay, items_bring, no_plugs,
    none_came, reaped_ends_go_on, reaper_calls_stand, reaper_calls_stand_however,
    reaper_calls_stand_so, reaper_came_so, reaper_ends_go_on_however, reaper_goes_so,
    reapers_calls_are_so, served_are_had, taken_are_had,
};
pub use reaper::{
    asked_go_on, no_socket_comes, one_socket_comes, reaper_calls_go_on,
    reaper_changes_are_of_pipes, reaper_counts_go_on, reaper_ends_are_here, reaper_ends_came,
    reaper_ends_go_on, reaper_ends_were_asked, reaper_looks_go_on,
};
pub use reaping::{
    keeps_only_taken, keeps_taken, keeps_unsealed, looks_are_shut, looks_keep, looks_stand,
    open_agree_still, open_has_none, reaper_keeps_given, reaper_keeps_names, reaper_keeps_taken,
    reaper_keeps_unsealed, reaper_leaves_there,
};
pub use rows::{calls_tell_drops, drops_go_on, ended_are_told, ended_goes_on, tables_go_on};
pub use standing::{
    asked_stay, calls_are_told, calls_stand, else_behind, else_stay, own_join_still, reapers_keep,
    reaps_are_told,
};
