//! Tests of calls that no script makes, and of vectors that none reaches.
#![tactic(auto)]

#[cfg(test)]
mod addresses;
#[cfg(test)]
mod answers;
#[cfg(test)]
mod asker;
#[cfg(test)]
mod checks;
#[cfg(test)]
mod desks;
#[cfg(test)]
mod holders;
#[cfg(test)]
mod journals;
#[cfg(test)]
mod mailboxes;
#[cfg(test)]
mod many_messages;
#[cfg(test)]
mod many_topics;
#[cfg(test)]
mod many_wanted;
#[cfg(test)]
mod names;
#[cfg(test)]
mod notes;
#[cfg(test)]
mod ownership;
#[cfg(test)]
mod pipe_ends;
#[cfg(test)]
mod pipes;
#[cfg(test)]
mod rooms;
#[cfg(test)]
mod sockets;
#[cfg(test)]
mod sub_table_tests;
#[cfg(test)]
mod wakes;
