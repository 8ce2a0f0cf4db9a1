//! A socket that is lent to its caller for a line, with the pipes of its ends and the desk: its
//! calls on messages, its requests, its commands and its close, as a run tells them.
#![tactic(auto)]

mod answers;
mod asks;
mod calls;
mod endings;
mod kinds;
mod lent_desk;
mod lent_looks;
mod lent_mails;
mod looks;
mod mails;
mod ranks;
mod readers;
mod sock;
mod steps;
mod taking;

pub use endings::close_lent;
pub use lent_desk::LentDesk;
pub use looks::look;
pub use mails::{pump, recv, send, subscribe, unsubscribe};
pub use sock::LentSock;
