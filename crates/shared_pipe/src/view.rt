//! What the seats of a pipe know. No value of these types is made.
use zq_base::{Message, Seq};

/// What the seat that writes knows; `lent` says that it has the slot behind the last message.
pub struct WriterView {
    pub committed: Seq<Message>,
    pub sealed: bool,
    pub freed: u64,
    pub full_looks: u64,
    pub lent: bool,
}

/// What the seat that reads knows; `drawn` says that it has the slot of the oldest message.
pub struct ReaderView {
    pub taken: Seq<Message>,
    pub seen: Seq<Message>,
    pub ended: bool,
    pub empty_looks: u64,
    pub drawn: bool,
}

/// Whether a seat writes and whether it reads, with what it knows as each.
pub struct View {
    pub writes: bool,
    pub writing: WriterView,
    pub reads: bool,
    pub reading: ReaderView,
}
