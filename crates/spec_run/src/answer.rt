use spec_pattern::{RecvRefusal, Report, Rule, SendRefusal};
use zq_base::{Message, ObjId, PairId};

/// What a line of a script was answered.
#[derive(Drop)]
pub enum Answer {
    Object(ObjId),
    Done,
    Pair(PairId),
    /// This session was made, with its pair.
    Both(ObjId, PairId),
    Many(Report<PairId>),
    Wait,
    /// The context was asked to end.
    Term,
    NoSocket,
    NotSupported,
    InUse,
    /// The socket has no such bind or connect.
    NotBound,
    BadPair,
    TooMany,
    Limit,
    NotSub,
    Got(PairId, Message),
    Dropped(Rule),
    NotSent(SendRefusal),
    NotReceived(RecvRefusal),
}
