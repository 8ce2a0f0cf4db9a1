//! The control events of a context in their order, with the state that they led to: each call adds
//! the event that its contract names, with room kept for all that may still come.
#![tactic(auto)]

mod accepted;
mod asking;
mod binds;
mod closed;
mod closing;
mod connecting;
mod delimiters;
mod deliveries;
mod dialing;
mod disconnects;
mod end_asks;
mod enders;
mod fulfilling;
mod heard;
mod history;
mod joining;
mod listening;
mod mailboxes;
mod making;
mod noting;
mod outputs;
mod over_asks;
mod refused;
mod settled;
mod shaken;
mod shows;
mod soundness;
mod unbinding;

pub use heard::Heard;
pub use history::History;
pub use settled::PipeCounts;
