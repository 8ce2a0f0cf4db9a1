//! The sockets of the pipeline pattern over their attached ends, PUSH and PULL, and PAIR over its
//! one end.
#![tactic(auto)]

mod pair_sock;
mod pull;
mod push;

pub use pair_sock::PairSock;
pub use pull::Pull;
pub use push::Push;
