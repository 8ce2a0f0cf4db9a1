//! Pipes of whole messages: what every body of them keeps, and plain queues that meet it. A message
//! is visible whole, at its commit alone.
#![tactic(auto)]

mod both_turns;
mod laws;
mod peers;
mod pipes;
mod plain_pipe;
mod plain_pipes;
mod turns;

pub use both_turns::BothTurns;
pub use laws::{
    a_put_is_its_parts_and_its_commit, exact_looks_find_how_the_pipe_stands, halves_are_a_pipe,
    halves_that_fit_are_a_pipe,
};
pub use peers::Peers;
pub use pipes::{Committed, Front, Pipes, PutIn, Taken};
pub use plain_pipe::PlainPipe;
pub use plain_pipes::{PlainIn, PlainOut, PlainPipes};
pub use turns::Turns;
