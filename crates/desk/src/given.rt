use spec_control::{EndState, Joining};
use zq_base::{EndId, Seq};

/// An end that a closed socket gives to the reaper.
#[derive(Drop)]
pub struct Given<N, O, I> {
    pub end: EndId,
    /// The pipe that it writes.
    pub written: N,
    /// The writing half, where the end has not acknowledged.
    pub out: Option<O>,
    pub input: I,
    /// Whether the reading half has met the other end's delimiter.
    pub met: bool,
    /// Whether the pipe that it writes has its delimiter.
    pub sealed: bool,
    /// How far the end is in its life.
    pub state: EndState,
}

/// The ends of a closed socket, and the list of them that the plane notes as the reaper takes them
/// over: it is made with them, since neither the close nor the reaper takes memory.
#[derive(Drop)]
pub struct Parting<N, O, I> {
    pub ends: Vec<Given<N, O, I>>,
    pub joined: Seq<Joining<N>>,
}
