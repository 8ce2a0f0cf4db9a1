//! Laws of how a run is replayed: a script has one journal by its seed and turns, or by its events,
//! and is done in as many turns as its lines tell; what journals say; and what the lines of a
//! script that is read may ask.
#![tactic(auto)]

mod bounds;
mod done;
mod events;
mod journals;
mod laws;
mod reading;

pub use bounds::{scripts_are_done_in_time, scripts_make_so_much};
pub use done::{
    local_scripts_run_locally, resting_reapers_have_ended, runs_are_done_in_time,
    worked_runs_have_their_times,
};
pub use events::{
    events_have_one_journal, turns_are_events, turns_have_the_journal_of_their_events,
    worked_events_are_chosen,
};
pub use journals::{
    done_journals_are_whole, journals_by_events_say_as_much, journals_count_messages,
    journals_list_objects, local_pairs_are_made,
};
pub use laws::{
    a_script_has_one_run_journal, actors_finish_in_time, counts_are_not_read,
    local_runs_have_sockets_alone, sockets_have_their_mailboxes,
};
pub use reading::scripts_that_are_read_may_be_asked;
