use crate::ObjState;
use crate::letter::Letter;
use crate::request::{Reply, Req};
use zq_base::{Attached, EndId, Log, Octets, Seq, Settled, SlotId};

/// An end that joined its owner, or that the reaper took over, with the names of the two pipes of
/// its pair.
#[derive(Drop)]
pub struct Joining<N> {
    pub end: EndId,
    /// The identity of the peer.
    pub peer: Octets,
    /// The pipe that the end writes.
    pub written: N,
    /// The pipe that the end reads.
    pub read: N,
    pub answer: Attached,
    /// Whether its reading half had met the delimiter of its pipe before: of an end that the reaper
    /// takes over alone.
    pub met: bool,
}

/// A pipe, by the end that writes it, and its name.
#[derive(Drop)]
pub struct PipeName<N> {
    pub pipe: EndId,
    pub name: N,
}

/// What the holder answered in an event. A story says what a half committed or took, and has no octets.
#[derive(Drop)]
pub struct Answered<N, S> {
    pub joined: Seq<Joining<N>>,
    /// The pipes of the pairs that were made.
    pub opened: Seq<PipeName<N>>,
    /// The counts of the pipe that was settled.
    pub settled: Option<Settled>,
    /// Whether a session that tried to end has output left to write.
    pub output_left: bool,
    /// What the halves that were handed over have committed or taken.
    pub stories: Log<PipeName<N>, S>,
}

/// A control event.
#[derive(Drop)]
pub enum Did<N, S> {
    /// A request was made and answered, refusals among them.
    Asked(Req, Reply, Answered<N, S>),
    /// The oldest letter of a mailbox was processed.
    Delivered(SlotId, Letter, Answered<N, S>),
    /// An end met the delimiter of the pipe that it reads.
    Delimited(EndId, Answered<N, S>),
}

/// A control event with its caller.
#[derive(Drop)]
pub struct Entry<N, S> {
    pub by: u32,
    pub did: Did<N, S>,
}

/// Which mailboxes a look found empty.
#[derive(Clone, Copy)]
pub enum SeenEmpty {
    /// It was no look at mailboxes.
    Nothing,
    /// This one.
    Mailbox(SlotId),
    /// The root's, and those of all closed sockets.
    Reapers,
}

/// What a caller saw of the plane in one look.
#[derive(Clone, Copy)]
pub struct Sight {
    pub by: u32,
    pub empty: SeenEmpty,
    pub root: ObjState,
    /// How many objects have not ended.
    pub live: u32,
    /// Whether one more session could be accepted.
    pub room: bool,
}

/// What stands in the one order of a context.
#[derive(Drop)]
pub enum Item<N, S> {
    Event(Entry<N, S>),
    Seen(Sight),
}
