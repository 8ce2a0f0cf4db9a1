//! The topics that peers subscribed to, those that a socket wants, and those that it told its
//! peers.
#![tactic(auto)]

mod holders;
mod lengths;
mod peer_set;
mod rows;
mod saying;
mod told;
mod topic_set;
mod topics;
mod wanted;

pub use saying::{Saying, saying_of};
pub use told::Told;
pub use topic_set::TopicSet;
pub use topics::{Added, Cancelled, Topics};
pub use wanted::{NotSub, Wanted, WantedError};
