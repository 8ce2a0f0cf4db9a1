//! Laws of runs: each object ends once, after what it owns; where the root has ended nothing is
//! left; and what goes in turns, or by events, goes by each worker's own deeds.
#![tactic(auto)]

mod laws;

pub use laws::{
    capacities_stay, done_runs_leave_nothing, events_are_local, objects_end_once_and_in_order,
    seals_are_told, steps_stay_exact, turns_are_local,
};
