//! Links, sessions and listeners as definitions: the run of a link, a session's turn, the topics
//! that it says again at each new link, and the rows that are read off its history.
#![tactic(auto)]

mod again;
mod due;
mod laws;
mod row;
mod topics;

pub use due::Due;
pub use laws::{
    all_but_one_are_written, messages_are_taken_one_by_one, one_message_is_in_flight,
    so_many_are_written_and_no_other, topics_come_first, what_is_put_was_taken_across_a_link,
    what_is_said_whole_is_written, worked_links_run, worked_topics_are_said,
};
pub use row::{LinkEnd, ListenerRow, SessionRow};
pub use topics::LinkTopics;
