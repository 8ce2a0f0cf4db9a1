//! One side of a link: what lies between the octets of a link and the two pipes of a session's end,
//! and what dials for the next one.
#![tactic(auto)]

mod behind;
mod catch_up;
mod dialler;
mod dropping;
mod read_part;
mod saying;
mod side;
mod side_calls;
mod wire;
mod write_part;

pub use behind::Behind;
pub use dialler::{Dial, Dialler};
pub use read_part::Heard;
pub use side::{LinkSide, let_go};
pub use wire::Fetched;
pub use write_part::{Written, is_over};
