ghost use Rattle.zq_script.specs.Answer.{Gives};
ghost use Rattle.zq_script.specs.Grammar.{verb_of};

use crate::fault::{Cause, LineError};
use crate::words::same_text;

/// What the first word of a line asks.
#[derive(Clone, Copy)]
pub(crate) enum Verb {
    Actor,
    Socket,
    Close,
    Term,
    On(SocketVerb),
}

/// What a line asks of a socket.
#[derive(Clone, Copy)]
pub(crate) enum SocketVerb {
    Bind,
    Connect,
    Unbind,
    Disconnect,
    Send,
    Recv,
    Subscribe,
    Unsubscribe,
}

impl Verb {
    /// The verb that the word is.
    #[tactic(auto, unfolding(crate::specs::Grammar::verb_of))]
    pub(crate) fn read(word: &[u8]) -> Result<Verb, LineError>
        ensures { Gives result (verb_of word.now) }
    {
        if same_text(word, b"actor") {
            return Ok(Verb::Actor);
        }
        if same_text(word, b"socket") {
            return Ok(Verb::Socket);
        }
        if same_text(word, b"close") {
            return Ok(Verb::Close);
        }
        if same_text(word, b"term") {
            return Ok(Verb::Term);
        }
        if same_text(word, b"bind") {
            return Ok(Verb::On(SocketVerb::Bind));
        }
        if same_text(word, b"connect") {
            return Ok(Verb::On(SocketVerb::Connect));
        }
        if same_text(word, b"unbind") {
            return Ok(Verb::On(SocketVerb::Unbind));
        }
        if same_text(word, b"disconnect") {
            return Ok(Verb::On(SocketVerb::Disconnect));
        }
        if same_text(word, b"send") {
            return Ok(Verb::On(SocketVerb::Send));
        }
        if same_text(word, b"recv") {
            return Ok(Verb::On(SocketVerb::Recv));
        }
        if same_text(word, b"sub") {
            return Ok(Verb::On(SocketVerb::Subscribe));
        }
        if same_text(word, b"unsub") {
            return Ok(Verb::On(SocketVerb::Unsubscribe));
        }
        Err(LineError::Fault(Cause::BadWord))
    }
}
