//! The ends of closed sockets with their halves, as the reaper has them until they end, over any
//! pipes.
#![tactic(auto)]

mod closed;
mod coming;
mod ending;
mod holding;
mod laws;
mod reading;
mod room;
mod sockets;
mod stretch;

pub use closed::Closed;
pub use coming::{joined, noted_as};
pub use ending::{halves_of, look, seal, settle, turn, yield_out};
pub use laws::{
    closed_ends_stay, given_ends_stay, halves_join_still, looks_go_on, sockets_stay_sound,
};
pub use reading::reads_on;
pub use room::keep_place;
pub use sockets::{ClosedSocket, ClosedSockets, make_room, none};
pub use stretch::Stretch;
