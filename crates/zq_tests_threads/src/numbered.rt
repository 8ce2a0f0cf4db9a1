ghost use Rattle.std.specs.Prelude.{IfOk};
ghost use Rattle.spec_pattern.specs.Pipe.{IsCommittable};

use std::alloc::{AllocError, Global};
use zq_base::{Frame, Message};

const PADDING: [u8; 64] = [7; 64];

/// Message number n: a frame of the number in 8 octets, and behind it none, one or two frames, of
/// n % 50 octets and of one more.
pub fn numbered(alloc: Global, number: u64) -> Result<Message, AllocError>
    ensures { IfOk result (λ m. IsCommittable m) }
{
    let mut frames = Vec::new(alloc);
    frames
        .push(frame(alloc, &number.to_be_bytes())?)
        .map_err(|_| AllocError)?;
    for k in 0..(number % 3) as usize {
        let size = (number % 50) as usize + k;
        frames
            .push(frame(alloc, &PADDING[..size])?)
            .map_err(|_| AllocError)?;
    }
    whole(frames)
}

/// A frame of these octets.
pub fn frame(alloc: Global, octets: &[u8]) -> Result<Frame, AllocError> {
    match Frame::of_slice(alloc, octets) {
        Ok(frame) => Ok(frame),
        Err(_error) => Err(AllocError),
    }
}

// A message that fits a pipe.
fn whole(frames: Vec<Frame>) -> Result<Message, AllocError>
    ensures { IfOk result (λ m. IsCommittable m) }
{
    match Message::of_parts(frames) {
        Ok(message) => {
            if message.len() > Message::MAX_COMMITTED {
                return Err(AllocError);
            }
            Ok(message)
        }
        Err(_refused) => Err(AllocError),
    }
}

/// The number of a message, or 2^64 - 1 where it has none.
pub fn number_of(message: &Message) -> u64 {
    let octets = message.frames()[0].as_slice();
    if octets.len() != 8 {
        return u64::MAX;
    }
    u64::from_be_bytes([
        octets[0], octets[1], octets[2], octets[3], octets[4], octets[5], octets[6], octets[7],
    ])
}

/// Whether two messages have the same frames.
pub fn are_same(one: &Message, other: &Message) -> bool {
    if one.len() != other.len() {
        return false;
    }
    for (a, b) in one.frames().iter().zip(other.frames().iter()) {
        if a.as_slice() != b.as_slice() {
            return false;
        }
    }
    true
}
