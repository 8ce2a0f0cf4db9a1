//! A socket with its ends, over any pipes: its calls on messages, its looks at an end that reads
//! on, and what the control plane asks of it.
#![tactic(auto)]

mod any;
mod awaiting;
mod cores;
mod holder;
mod holding;
mod joins;
mod joint;
mod looks;
mod over;
mod since;
mod sock;
mod turns;

pub use awaiting::awaits;
pub use cores::{pump_core, recv_core, send_core, subscribe_core, unsubscribe_core};
pub use holder::SockHolder;
pub use joins::Joins;
pub use joint::{JoinNote, Joint};
pub use looks::look_in;
pub use since::{Since, Undoable, Undoing};
pub use sock::{OpenSocket, Room, SockCore, SockOver};
pub use turns::{note, note_seal};
