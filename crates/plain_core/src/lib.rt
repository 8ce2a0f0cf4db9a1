//! The core of a run on one thread: the desk, the pipes of all sockets and the tale of what was
//! done, and what is shown of them in a journal.
#![tactic(auto)]

mod answers;
mod asking;
mod calling;
mod context;
mod cores;
mod drops;
mod ending;
mod fresh;
mod laws;
mod lending;
mod letter_tale;
mod letters;
mod looking;
mod making;
mod objects;
mod pipes;
mod reap_tale;
mod reaping;
mod reaping_laws;
mod rows;
mod showing;
mod sockets;
mod table;
mod telling;
mod whole;

pub use context::OneCore;
pub use drops::note_drops;
pub use ending::ended_shown;
pub use laws::sockets_can_be_lent;
pub use objects::{lines_shown, objects_shown};
pub use pipes::pipes_shown;
pub use rows::row_shown;
pub use whole::all_shown;
