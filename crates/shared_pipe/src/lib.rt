//! Pipes whose two halves may lie in two threads, in any schedule: a message is visible whole at
//! one store, and looks are not exact.
#![tactic(auto)]

mod batch;
mod making;
mod name;
mod plays;
mod shared_in;
mod shared_out;
mod shared_pipes;
mod table;
mod view;
mod waker;

pub use name::SharedName;
pub use shared_in::SharedIn;
pub use shared_out::SharedOut;
pub use shared_pipes::SharedPipes;
pub use table::PipeSeat;
pub use view::{ReaderView, View, WriterView};
pub use waker::Waker;
