use crate::cause::Cause;

/// The command that a handshake waits for.
#[derive(Clone, Copy, Debug, PartialEq, Eq)]
pub enum Awaited {
    Ready,
    Hello,
    Welcome,
    Initiate,
}

/// How a handshake stands.
#[derive(Clone, Copy, Debug, PartialEq, Eq)]
pub enum Stage {
    Waiting(Awaited),
    Running,
    Refused(Cause),
}
