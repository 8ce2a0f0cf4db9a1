//! Tests of the outside in memory and over TCP, and of sessions over links in memory.
#![tactic(auto)]

#[cfg(test)]
mod breach;
#[cfg(test)]
mod calls;
#[cfg(test)]
mod checks;
#[cfg(test)]
mod cut_peer;
#[cfg(test)]
mod dials;
#[cfg(test)]
mod drawn;
#[cfg(test)]
mod fed;
#[cfg(test)]
mod histories;
#[cfg(test)]
mod lane;
#[cfg(test)]
mod listeners;
#[cfg(test)]
mod looks;
#[cfg(test)]
mod many;
#[cfg(test)]
mod memory_links;
#[cfg(test)]
mod memory_peers;
#[cfg(test)]
mod net;
#[cfg(test)]
mod net_links;
#[cfg(test)]
mod options;
#[cfg(test)]
mod outer;
#[cfg(test)]
mod pair_run;
#[cfg(test)]
mod plans;
#[cfg(test)]
mod seat;
#[cfg(test)]
mod session_checks;
#[cfg(test)]
mod sessions;
#[cfg(test)]
mod terms;
#[cfg(test)]
mod topics;
#[cfg(test)]
mod two_sessions;
