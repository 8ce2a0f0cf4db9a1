//! Copies of one message to many peers: one at each place with room, told exactly, or none where
//! memory wants.
#![tactic(auto)]

mod sending;

pub use sending::send_to;
pub use spec_pattern::Report;
