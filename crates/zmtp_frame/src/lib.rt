//! Frame heads of ZMTP 3.0: they are written, and read octet by octet. No call takes memory.
#![tactic(auto)]

mod flags;
mod head;
mod reader;
mod scan;
mod step;

pub use flags::{read_flags, size_limit, write_flags};
pub use head::{Head, encode_head};
pub use reader::FrameReader;
pub use spec_zmtp::{Flags, FrameKind};
pub use step::Step;
