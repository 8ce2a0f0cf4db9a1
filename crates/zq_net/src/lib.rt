//! Hosts and links over TCP, by readiness: no call of theirs waits but `rest`. A socket that isn't
//! known to be ready is left alone, so that an idle link costs no call of the system.
#![tactic(auto)]

mod answer;
mod net_host;
mod net_link;
mod patience;
mod ready;
mod watch;
mod watched;

pub use net_host::NetHost;
pub use net_link::NetLink;
