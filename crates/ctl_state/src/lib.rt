//! What the control plane keeps between two events: of whatever control state it stands for, each
//! call is one small update.
#![tactic(auto)]

mod belongings;
mod bits;
mod boxes;
mod children;
mod command;
mod detail;
mod empty;
mod ending;
mod ends;
mod hold;
mod hold_change;
mod hold_list;
mod hold_table;
mod links;
mod lists;
mod mail;
mod mailed;
mod making;
mod names;
mod object_children;
mod object_endings;
mod object_lists;
mod objects;
mod pair;
mod pairs;
mod reads;
mod room_list;
mod state;
mod tells;

pub use bits::{lowest_bit, set_bit};
pub use command::Command;
pub use detail::{Detail, Made};
pub use hold::{Held, Hold};
pub use room_list::RoomList;
pub use state::State;
