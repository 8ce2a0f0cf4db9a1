use crate::end::Reason;
use zq_base::{EndId, Endpoint, Kind, ObjId, Options, PairId, Peer};

/// What is asked of the control plane, with the object that asks.
#[derive(Drop)]
pub enum Req {
    /// The context makes a socket.
    Socket(Kind, Options),
    /// The context asks its root to end.
    AskTerm,
    Bind(ObjId, Endpoint),
    Connect(ObjId, Endpoint),
    Unbind(ObjId, Endpoint),
    Disconnect(ObjId, Endpoint),
    /// A socket's last request: the reaper is to take it.
    Close(ObjId),
    /// A listener has accepted a link.
    Accepted(ObjId),
    /// The handshake of an accepted session is done.
    Shaken(ObjId, Peer),
    /// A session asks its end.
    AskEnd(EndId, Reason),
    /// A listener or a session asks to be told to end.
    AskOver(ObjId),
    /// A session that waited for its output alone has none left.
    OutputOver(ObjId),
}

/// Why a request is refused.
#[derive(Clone, Copy)]
pub enum Refusal {
    /// The root was asked.
    Term,
    /// The name is held.
    InUse,
    /// The socket has no such bind or connect.
    NotBound,
    /// The bound socket's kind does not fit, or the name is the socket's own.
    BadPair,
    /// The request would make more objects or pairs than there may be.
    TooMany,
}

/// What a request is answered.
#[derive(Clone, Copy)]
pub enum Reply {
    Done,
    /// This object was made.
    Object(ObjId),
    /// This pair was made.
    Pair(PairId),
    /// This session was made, and its pair has this number.
    Both(ObjId, PairId),
    /// The connect waits for its name.
    Wait,
    /// The root is asked by this request.
    Asked,
    /// The root was asked before.
    Before,
    Refused(Refusal),
}
