//! The greeting, command bodies and metadata of ZMTP: written and read.
#![tactic(auto)]

mod command;
mod greeting;
mod login;
mod metadata;

pub use command::{CommandError, read_command, write_command};
pub use greeting::Greeting;
pub use login::{read_login, write_login, write_reason};
pub use metadata::{MetaError, is_meta, read_meta, write_meta};
