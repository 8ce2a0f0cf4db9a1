//! The life of a pipe's end: what it does when it is asked to end and when the other end's commands
//! come.
#![tactic(auto)]

mod end;

pub use end::End;
pub use spec_control::{EndCommands, EndEvent, EndId, EndState, Reason};
