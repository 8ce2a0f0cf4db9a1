use spec_zmtp::{Cause, Command};
use zq_base::Peer;

/// What is to be done after something was heard.
#[derive(Debug, Drop)]
pub enum Answer {
    /// Say this command, and hear on.
    Say(Command),
    /// Say the command, if there is one; the handshake is done.
    Ready(Peer, Option<Command>),
    /// Hear on.
    Wait,
    /// Say the command, if there is one; the peer is refused.
    Refused(Cause, Option<Command>),
}
