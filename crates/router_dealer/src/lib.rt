//! The sockets of the request-reply pattern that route messages: a DEALER sends and receives by
//! turn, a ROUTER names its peers.
#![tactic(auto)]

mod dealer;
mod held;
mod identity;
mod laws;
mod names;
mod route;
mod router;

pub use dealer::Dealer;
pub use identity::is_identity;
pub use laws::places_stand_for_their_ends;
pub use router::Router;
