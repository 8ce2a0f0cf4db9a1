use crate::messages::{adds_empty, has, message};
use bytes::Bytes;
use std::alloc::Global;
use zq_base::{Frame, Message, Octets, PartsError};

// Whether a frame's copy has these octets.
fn frame_copy_holds(frame: &Frame, body: &[u8]) -> bool {
    match frame.copy() {
        Ok(copied) => {
            let holds = copied.as_slice() == body;
            drop(copied);
            return holds;
        }
        Err(_) => return false,
    }
}

// Whether the copy of a frame of these octets holds them.
fn frame_holds(alloc: Global, body: &[u8]) -> bool {
    match Frame::of_slice(alloc, body) {
        Ok(frame) => {
            let holds = frame_copy_holds(&frame, body);
            drop(frame);
            return holds;
        }
        Err(_) => return false,
    }
}

// Whether a frame that is made of a block has as many.
fn block_holds(alloc: Global, body: &[u8]) -> bool {
    if body.len() > 5 {
        return false;
    }
    match Bytes::copy_from_slice(alloc, body) {
        Ok(block) => {
            let frame = Frame::of_bytes(block);
            let holds = frame.len() == body.len();
            drop(frame);
            return holds;
        }
        Err(_) => return false,
    }
}

// Whether the copy of octets has these.
fn octets_copy_holds(alloc: Global, octets: &Octets, body: &[u8]) -> bool {
    match octets.copy(alloc) {
        Ok(copied) => {
            let holds = copied.as_slice() == body;
            drop(copied);
            return holds;
        }
        Err(_) => return false,
    }
}

// The same of a copy of octets.
fn octets_hold(alloc: Global, body: &[u8]) -> bool {
    match Octets::of_slice(alloc, body) {
        Ok(octets) => {
            let holds = octets_copy_holds(alloc, &octets, body);
            drop(octets);
            return holds;
        }
        Err(_) => return false,
    }
}

// Whether all of them hold these octets.
fn hold(alloc: Global, body: &[u8]) -> bool {
    frame_holds(alloc, body) && block_holds(alloc, body) && octets_hold(alloc, body)
}

/// Octets of a frame.
const BODIES: [&[u8]; 3] = [b"", b"\x00", b"hello"];

#[test]
fn frames_hold_their_octets(rt: HostRuntime) {
    for body in &BODIES {
        assert!(rt; hold(rt.alloc(), body));
    }
}

// Whether so many octets are a frame, where there is memory.
fn is_a_frame(alloc: Global, octets: usize) -> Option<bool> {
    match Vec::from_elem(alloc, b'a', octets) {
        Ok(body) => {
            let is_one = Frame::of_slice(alloc, &body).is_ok();
            drop(body);
            return Some(is_one);
        }
        Err(_) => return None,
    }
}

#[test]
fn a_frame_has_16_mebibytes_at_the_most(rt: HostRuntime) {
    let most = is_a_frame(rt.alloc(), 16_777_216) == Some(true);
    assert!(rt; most && is_a_frame(rt.alloc(), 16_777_217) == Some(false));
}

// Whether a message of two frames takes a third, a, in front of them.
fn takes_a_front(alloc: Global, message: &mut Message) -> bool {
    if message.len() != 2 {
        return false;
    }
    match Frame::of_slice(alloc, b"a") {
        Ok(first) => return message.push_front(first).is_ok(),
        Err(_) => return false,
    }
}

// Whether a message's copy has these frames.
fn copy_has(alloc: Global, message: &Message, bodies: &[&[u8]]) -> bool {
    match message.copy(alloc) {
        Ok(copied) => {
            let has = has(&copied, bodies);
            drop(copied);
            return has;
        }
        Err(_) => return false,
    }
}

// Whether two frames are left behind the first, a.
fn gives_the_first(message: &mut Message) -> bool {
    if message.len() != 3 {
        return false;
    }
    let first = message.pop_front();
    let is_a = first.as_slice() == b"a".as_slice();
    drop(first);
    is_a && message.frames().len() == 2
}

// Whether the message of b and c has its frames in order, with a in front of them and without.
fn keeps_order(alloc: Global, message: &mut Message) -> bool {
    let fronted = takes_a_front(alloc, message);
    fronted && copy_has(alloc, message, &[b"a", b"b", b"c"]) && gives_the_first(message)
}

// The same of that message, whose two frames are given up.
fn frames_are_in_order(alloc: Global) -> bool {
    match message(alloc, &[b"b", b"c"]) {
        Some(mut message) => {
            let keeps = keeps_order(alloc, &mut message);
            let left = message.into_frames().len();
            return keeps && left == 2;
        }
        None => return false,
    }
}

#[test]
fn messages_keep_their_frames_in_order(rt: HostRuntime) {
    assert!(rt; frames_are_in_order(rt.alloc()));
}

// Whether so many frames are a message, where there is memory.
fn is_a_message(alloc: Global, count: usize) -> Option<bool> {
    let mut frames = Vec::new(alloc);
    let added = adds_empty(alloc, &mut frames, count);
    let is_one = Message::of_parts(frames).is_ok();
    if added { Some(is_one) } else { None }
}

#[test]
fn a_message_has_1024_frames_at_the_most(rt: HostRuntime) {
    let most = is_a_message(rt.alloc(), 1_024) == Some(true);
    assert!(rt; most && is_a_message(rt.alloc(), 1_025) == Some(false));
}

// Why frames are no message.
fn cause_of(frames: Vec<Frame>) -> Option<PartsError> {
    match Message::of_parts(frames) {
        Ok(message) => {
            drop(message);
            return None;
        }
        Err(refused) => {
            let cause = refused.cause;
            drop(refused);
            return Some(cause);
        }
    }
}

#[test]
fn no_frames_are_no_message(rt: HostRuntime) {
    assert!(rt; cause_of(Vec::new(rt.alloc())) == Some(PartsError::NoParts));
}
