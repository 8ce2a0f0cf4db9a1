//! Reads scripts, exactly or to their first fault: what each actor is to do, line by line.
#![tactic(auto)]

mod call;
mod endpoint;
mod fault;
mod group;
mod known;
mod laws;
mod line;
mod name;
mod options;
mod part;
mod read;
mod statement;
mod verb;
mod words;

pub use fault::{Cause, ReadScript, ScriptFault};
pub use laws::a_printed_part_is_read_back;
pub use read::read_script;
pub use statement::Statement;
