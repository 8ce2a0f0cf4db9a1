//! The run of a script on one thread, in turns or by any list of events, over any core that makes,
//! calls, closes and reaps sockets: each actor line by line, and the journal of it.
#![tactic(auto)]

mod actor;
mod answers;
mod cores;
mod event;
mod events;
mod fetching;
mod laws;
mod letters;
mod lines;
mod made;
mod marks;
mod play;
mod script;
mod seats;
mod sockets;
mod steps;
mod tale_laws;
mod world;

pub use actor::Actor;
pub use answers::reply_answer;
pub use cores::{Core, Shown};
pub use event::Event;
pub use laws::{
    items_of_runs_are_the_workers, nobody_else_has_items, runs_are_on_one_thread,
    runs_go_by_events, runs_go_in_turns, sides_go_on, what_no_event_does_is_refused,
};
pub use letters::Letters;
pub use made::Made;
pub use marks::{ActMark, PieceMark, StepMark};
pub use play::run;
pub use script::play_script;
pub use sockets::Sockets;
pub use steps::Steps;
pub use tale_laws::{tales_go_on, tales_tell_all};
pub use world::{World, play_events};
