//! A call of the program, over whatever makes the texts of its runs: the words as a request, a
//! source's octets, what `hear` tells of them, and the text that a sink takes. The same over a
//! reader and a writer, with the exit code.
#![tactic(auto)]

mod calls;
mod command;
mod command_line;
mod edge;
mod hearing;
mod input;
mod laws;
mod lines;
mod number;
mod output;
mod read;
mod request;
mod runs;
mod speech;
mod status;
mod streams;
mod texts;

pub use calls::call;
pub use command_line::words;
pub use edge::{Ended, serve};
pub use hearing::{Heard, hear};
pub use laws::texts_work;
pub use read::read_words;
pub use request::{Request, WordsError};
pub use runs::Runs;
pub use status::Status;
