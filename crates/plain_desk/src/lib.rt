//! The control plane of a context whose callers take turns, as each of them reaches it: the one
//! order of their events and looks.
#![tactic(auto)]

mod accepting;
mod asking;
mod closing;
mod deliveries;
mod followed;
mod laws;
mod looks;
mod mark;
mod notes;
mod one_desk;
mod pairs;
mod plane;
mod queue;
mod reaping;
mod requests;
mod serving;
mod shows;
mod standing;
mod tcp;
mod waking;
mod worker_asking;
mod worker_asks;

pub use laws::{
    an_event_fits, its_names_fit, looks_change_nothing, one_event_more, one_look_more,
    one_moment_more, order_goes_on, other_moments_stay,
};
pub use mark::Mark;
pub use one_desk::OneDesk;
