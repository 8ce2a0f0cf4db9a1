use spec_zmtp::Cause;

/// Why a link ended.
#[derive(Clone, Copy)]
pub enum LinkEnd {
    /// A read or a write answered that it had ended.
    Ended,
    /// A read or a write failed.
    Failed,
    /// What the peer said was refused.
    Refused(Cause),
    /// No word of the peer came in time.
    TimedOut,
}

/// What a session did, over all its links.
#[derive(Clone, Copy)]
pub struct SessionRow {
    /// The links that it was given.
    pub links: u64,
    /// The whole messages that it heard.
    pub heard: u64,
    /// The messages that it put into its pipe.
    pub put: u64,
    /// Why its last link that ended did.
    pub last: Option<LinkEnd>,
}

/// What a listener did.
#[derive(Clone, Copy)]
pub struct ListenerRow {
    /// The accepts whose session was made.
    pub accepted: u64,
    /// Whether its listen or one of its accepts failed.
    pub failed: bool,
}
