use crate::topic::Topic;
use zq_base::{Endpoint, Kind, Message, Octets, Options, Seq};

/// A script: its actors, in the order in which they begin.
pub type Script = Seq<ActorScript>;

/// An actor and its lines, in the script's order.
#[derive(Drop)]
pub struct ActorScript {
    pub name: Octets,
    pub lines: Seq<Line>,
}

/// A line that asks something: its number in the script, from 1, and what it asks.
#[derive(Drop)]
pub struct Line {
    pub number: u32,
    pub call: Call,
}

/// What a line asks. The first number names a socket of the actor: 0 is that of its first `socket`
/// line. The second number of `Recv` is how often it is tried.
#[derive(Drop)]
pub enum Call {
    Socket(Kind, Options),
    Bind(u32, Endpoint),
    Connect(u32, Endpoint),
    /// The first bind to the endpoint is struck.
    Unbind(u32, Endpoint),
    /// The first connect to the endpoint is struck.
    Disconnect(u32, Endpoint),
    Close(u32),
    /// The context is asked to end.
    Term,
    Send(u32, Message),
    Recv(u32, u32),
    Subscribe(u32, Topic),
    Unsubscribe(u32, Topic),
}
