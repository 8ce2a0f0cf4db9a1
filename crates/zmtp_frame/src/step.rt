use spec_zmtp::FrameKind;

/// What a step of reading tells.
#[derive(Clone, Copy, PartialEq, Eq)]
pub enum Step {
    NeedMore,
    /// The kind and the size of the frame that begins.
    Head(FrameKind, u64),
    /// The part of the piece that belongs to the body, from one index up to another.
    Piece(usize, usize),
    FrameEnd,
    BadFlags(u8),
    TooLong(u64),
}
