//! The sockets of the request-reply pattern over their attached ends: a REQ asks, a REP answers.
#![tactic(auto)]

mod envelope;
mod partner;
mod rep;
mod reply;
mod req;
mod request;

pub use partner::Partner;
pub use rep::Rep;
pub use req::Req;
