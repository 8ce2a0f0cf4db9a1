use std::alloc::Global;
use zq_base::{Frame, Message};

// Whether a frame of these octets is added.
fn adds(alloc: Global, frames: &mut Vec<Frame>, body: &[u8]) -> bool {
    match Frame::of_slice(alloc, body) {
        Ok(frame) => return frames.push(frame).is_ok(),
        Err(_) => return false,
    }
}

// Whether a frame of each of these is added.
fn adds_all(alloc: Global, frames: &mut Vec<Frame>, bodies: &[&[u8]]) -> bool {
    for body in bodies {
        if !adds(alloc, frames, body) {
            return false;
        }
    }
    true
}

/// Whether so many frames without octets are added.
pub fn adds_empty(alloc: Global, frames: &mut Vec<Frame>, count: usize) -> bool {
    for _ in 0..count {
        if !adds(alloc, frames, b"") {
            return false;
        }
    }
    true
}

/// The message of these frames, where there is memory.
pub fn message(alloc: Global, bodies: &[&[u8]]) -> Option<Message> {
    let mut frames = Vec::new(alloc);
    if !adds_all(alloc, &mut frames, bodies) {
        drop(frames);
        return None;
    }
    Message::of_parts(frames).ok()
}

/// Whether a message has these frames.
pub fn has(message: &Message, bodies: &[&[u8]]) -> bool {
    for (frame, body) in message.frames().iter().zip(bodies) {
        if frame.as_slice() != *body {
            return false;
        }
    }
    message.len() == bodies.len()
}
