//! A socket of any of the eleven kinds over its attached ends: one type, of which each call is that
//! of its kind.
#![tactic(auto)]

mod any_sock;
mod calls;
mod change_fault;
mod group;
mod laws;
mod pipeline;
mod publish_subscribe;
mod request_reply;
mod topics;

pub use any_sock::AnySock;
pub use change_fault::ChangeFault;
