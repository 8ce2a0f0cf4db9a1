ghost use Rattle.std.specs.Prelude.{◌≡◌, ◌∷◌, [], IfOk};
ghost use Rattle.spec_link.specs.TopicsFirst.{topics_said};
ghost use Rattle.sub_table.specs.View.{topics_in};
ghost use Rattle.spec_link.specs.Topics.{AreShort};
ghost use Rattle.spec_pattern.specs.Topics.{IsTopic};

use bytes::Bytes;
use std::alloc::{AllocError, Global};
use std::collections::{BTreeSet, VecDeque};
use zq_base::{Frame, Message};

// The message that subscribes to a topic.
pub(crate) fn add_of(alloc: Global, topic: &[u8]) -> Result<Message, AllocError>
    requires { IsTopic topic.now }
    ensures { IfOk result (λ m. m ≡ (1 ∷ topic.now) ∷ []) }
{
    let mut octets = Vec::with_capacity(alloc, topic.len() + 1)?;
    octets.push_reserved(1u8);
    octets.extend_from_slice(topic)?;
    let mut frames = Vec::with_capacity(alloc, 1)?;
    match Bytes::from_vec(octets) {
        Ok(body) => {
            frames.push_reserved(Frame::of_bytes(body));
            return Ok(Message::of_frames(frames));
        }
        Err(_failed) => return Err(AllocError),
    }
}

// The messages that subscribe to these topics, in order.
pub(crate) fn adds_of(
    alloc: Global,
    topics: &BTreeSet<Vec<u8>>,
) -> Result<VecDeque<Message>, AllocError>
    requires { AreShort (topics_in topics.now.keys) }
    ensures { IfOk result (λ q. q.items ≡ topics_said (topics_in topics.now.keys)) }
{
    let mut messages = VecDeque::with_capacity(alloc, topics.len())?;
    'topics: for topic in topics {
        let message = add_of(alloc, topic.as_slice())?;
        messages.push_back(message)?;
    }
    Ok(messages)
}
