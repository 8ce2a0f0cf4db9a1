//! The calls of the reaper on its desk, with the closed sockets and all pipes: a letter, and the
//! look behind it, and what was done to the pipes.
#![tactic(auto)]

mod laws;
mod lent;
mod looking;
mod reaper;
mod steps;

pub use laws::reaps_go_on;
pub use looking::look_on;
pub use reaper::{deliver_at, deliver_first, look, meet};
pub use steps::{reap_at, reap_once, stands};
