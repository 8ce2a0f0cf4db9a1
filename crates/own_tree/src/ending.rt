/// What an object answers when it tries to end.
#[derive(Clone, Copy, PartialEq, Eq)]
pub enum Ending {
    Ended,
    /// So many acknowledgements are missing, or where none is so many of its children live.
    Owes(u64),
    /// So many commands were sent to it, and fewer processed.
    Behind(u64, u64),
    /// Nobody asked it to end.
    NotAsked,
}
