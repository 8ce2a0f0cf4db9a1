/// Why a peer's stream is refused.
#[derive(Clone, Copy, Debug, PartialEq, Eq)]
pub enum Cause {
    BadSignature,
    OldVersion,
    OtherMechanism,
    BadFlags,
    TooLong,
    TooManyParts,
    BadCommand,
    BadMeta,
    OutOfOrder,
    NoKind,
    BadPair,
    BadIdentity,
    NotWelcome,
    PeerError,
}

/// Why a peer's stream is refused, and the offset of the octet at which the rule's greeting or frame begins.
#[derive(Clone, Copy, Debug, PartialEq, Eq)]
pub struct Refusal {
    pub cause: Cause,
    pub offset: u64,
}
