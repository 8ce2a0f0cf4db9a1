//! The handshake of one side by NULL or PLAIN: what it says, and what becomes of it.
#![tactic(auto)]

mod answer;
mod commands;
mod mech;
mod peer;
mod steps;

pub use answer::Answer;
pub use mech::Mech;
