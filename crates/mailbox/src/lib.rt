//! A queue of commands for one owner, first in first out. Room is taken ahead by `reserve`, so that
//! a `send` needs no memory.
#![tactic(auto)]

mod mailbox;

pub use mailbox::Mailbox;
