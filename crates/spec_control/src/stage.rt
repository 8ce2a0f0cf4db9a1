/// How far an object is in its life, and whether the Term or the TermAck of its ending is on its way.
#[derive(Clone, Copy)]
pub enum Stage {
    /// It lives, and nobody told it to end.
    Alive,
    /// It lives, and its Term is on its way.
    Told,
    /// It was asked to end: its Term was processed.
    Ending,
    /// It has ended, and its TermAck is on its way.
    Finished,
    /// It has ended, and its owner has processed the TermAck.
    Cleared,
}

/// What becomes of a command that comes once at most.
#[derive(Clone, Copy, PartialEq, Eq)]
pub enum Use {
    Unused,
    OnItsWay,
    Used,
}
