//! Laws of an open socket and its caller in the one order of a context: what its holder is told is
//! what a run says of it, and what one call leaves of the steps past, of pipes' names and of
//! counts.
#![tactic(auto)]

mod calls;
mod desk_laws;
mod laws;
mod names;
mod open;
mod own;
mod past;
mod settling;
mod standing;

pub use calls::{closes_stand, message_calls_stand, socket_calls_stand, still_calls_stand};
pub use desk_laws::{
    binds_fit_still, coming_ends_are_new, ends_stay_its, held_ends_are_its, moments_are_last,
    no_moment_no_item, others_stay, requests_alone_send, sockets_are_alone, sockets_stay_open,
};
pub use laws::{
    calls_are_counted, counts_go_on, given_goes_on, open_sockets_change, past_goes_on,
    past_stays_over_control, rows_are_counted, sides_stand_on, steps_are_at_rows,
};
pub use names::{names_stand_on, names_stay};
pub use open::{
    active_ends_stay, calls_draw_none, ends_are_few, ends_can_join, ends_go_on, identities_go_on,
    items_pass, one_end_reads_on, open_ends_are_left, open_goes_on, peers_come_and_go,
    requests_are_answered, sockets_have_their_peers, states_are_held, stops_are_told,
    stops_keep_peers, told_ends_are_left, told_ends_go_on, turns_are_so, worked_items_are_met,
};
pub use own::{
    made_pipes_hold, others_make_none, own_places_go_on, own_places_stay, places_are_held,
};
pub use past::{
    changes_are_of_pipes, changes_go_on, ends_are_sealed_once, held_rows_are_named,
    made_names_go_on, messages_go_on, names_are_made, pipes_are_settled, quiet_calls_go_on,
    seals_are_new, settled_ends_are_gone, socket_calls_go_on, steps_are_said,
};
pub use settling::reasons_stay;
pub use standing::{
    asides_go_on, calls_go_on, cores_are_orderly, looks_are_asides, makings_are_asides,
    root_asks_are_asides,
};
