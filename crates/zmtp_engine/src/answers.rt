use spec_zmtp::Refusal;
use zq_base::{Message, Peer};

/// How an engine's stream stands.
#[derive(Clone, Copy, Debug)]
pub enum State<'a> {
    /// The handshake is not done.
    Shaking,
    /// The handshake is done with this peer.
    Running(&'a Peer),
    Refused(Refusal),
}

/// What became of a message that was offered.
#[derive(Drop)]
pub enum Offered {
    Taken,
    /// The message is handed back: another is being written, or the handshake is not done.
    Again(Message),
}
