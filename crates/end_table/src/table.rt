use crate::row::EndRow;
use spec_control::EndState;
use zq_base::{EndId, Log};

/// An end at the place of its attachment. Both its halves lie in a row of the table until it gives
/// its writing half away; from then on the place has the reading half.
#[derive(Drop)]
pub struct Place<N, I> {
    pub end: EndId,
    /// The pipe that it writes.
    pub written: N,
    /// The pipe that it reads.
    pub read: N,
    /// How far it is in its life.
    pub state: EndState,
    /// The owner has the end: it was neither settled nor given away.
    pub held: bool,
    /// Its writing half is there.
    pub writes: bool,
    /// The pipe that it writes has its delimiter.
    pub sealed: bool,
    /// Its reading half has met the delimiter of its pipe.
    pub met: bool,
    /// It is a peer of its socket's kind: the kind took it, and it was in use since.
    pub peer: bool,
    /// How many messages that it read were dropped.
    pub dropped: u64,
    /// The reading half, where the writing half is gone.
    pub input: Option<I>,
}

/// The ends of one owner by the places of their attachment, which are never used again.
#[derive(Drop)]
pub struct EndTable<N, O, I> {
    pub rows: Vec<Option<Box<EndRow<O, I>>>>,
    pub places: Vec<Place<N, I>>,
    /// The pipes that were settled, for proofs alone: it takes no memory.
    pub settled: Log<N, ()>,
}
