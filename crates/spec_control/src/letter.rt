use zq_base::{EndId, ObjId, Octets};

/// A control command.
#[derive(Drop)]
pub enum Word {
    /// The child is there.
    Own(ObjId),
    /// A listener or a session is taken in by its worker; a connecting session with its end.
    Plug(Option<EndId>),
    /// The child asks to be told to end.
    TermReq(ObjId),
    /// The object is to end.
    Term,
    /// The child has ended.
    TermAck(ObjId),
    /// The end is attached, and its peer has this identity.
    PipeBind(EndId, Octets),
    /// The other end was asked.
    PipeTerm(EndId),
    /// The other end acknowledges.
    PipeTermAck(EndId),
    /// Calls of the socket other than close are refused from now on.
    Stop,
    /// The socket was closed: the reaper takes its ends.
    Reap(ObjId),
}

/// A command with the object that it is for.
#[derive(Drop)]
pub struct Letter {
    pub to: ObjId,
    pub word: Word,
}
