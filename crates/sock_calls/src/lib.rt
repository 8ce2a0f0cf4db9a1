//! A socket's binds and connects, its close and its commands, over any desk: its ends are moved
//! with their pipes into a holder and back.
#![tactic(auto)]

mod laws;
mod lent;
mod moving;
mod socket;

pub use laws::{given_ends_stay, halves_may_join, other_sockets_fit};
pub use socket::Socket;
