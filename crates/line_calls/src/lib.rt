//! What an actor's line does to its open socket, over any body of its steps: a pump of its letters,
//! and a call.
#![tactic(auto)]

mod calling;
mod connecting;
mod found;
mod fronts;
mod messages;
mod pumping;
mod steps;
mod taking;

pub use calling::call;
pub use found::{Found, Reader};
pub use pumping::pump;
pub use steps::OpenSteps;
pub use taking::take_letter;
