//! A session drives one engine over one link at a time, and moves whole messages between the link
//! and the pipes of its end; it dials, lingers and says its topics anew. Beside it stands what
//! listens.
#![tactic(auto)]

mod at_link;
mod beginning;
mod counting;
mod course;
mod dialling;
mod ending;
mod ends;
mod handing;
mod laws;
mod life;
mod life_dues;
mod life_handing;
mod listener;
mod moving;
mod parts;
mod passing;
mod rows;
mod session;
mod tally;
mod topics;
mod turned;
mod turning;
mod turns;
mod writing;

pub use laws::what_is_kept_is_of_a_link_run;
pub use life::{Asked, Life, ReadMode};
pub use life_handing::{hand_out, waits};
pub use listener::{Accepted, Listener};
pub use session::Session;
pub use tally::{Carried, Tally};
pub use topics::{new_topics, note, prepare, say_anew};
pub use turned::Turned;
