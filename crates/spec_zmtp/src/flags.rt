/// What a frame is: the last of its message, one that others follow, or a command (RFC 23).
#[derive(Clone, Copy, Debug, PartialEq, Eq)]
pub enum FrameKind {
    Last,
    More,
    Command,
}

/// What a frame's flags octet says: the kind, and whether the size has eight octets instead of one.
#[derive(Clone, Copy, Debug, PartialEq, Eq)]
pub struct Flags {
    pub kind: FrameKind,
    pub long: bool,
}
