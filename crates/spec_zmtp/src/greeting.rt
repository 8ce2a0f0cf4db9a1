/// What the octets of a greeting that came so far say.
#[derive(Clone, Copy, Debug, PartialEq, Eq)]
pub enum Judgement {
    /// Nothing is at fault, and the greeting is not whole.
    NeedMore,
    Good,
    /// The octet at this offset is none of a signature.
    BadSignature(u64),
    /// The peer's major version.
    OldVersion(u8),
    OtherMechanism,
}
