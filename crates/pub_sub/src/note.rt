use zq_base::{Message, PairId};

// What waits for the user: a message of the peer of a pair, or that nobody keeps up a topic any
// longer since that peer ended.
#[derive(Drop)]
pub(crate) enum Note {
    Heard(PairId, Message),
    Cancelled(PairId, Vec<u8>),
}
