use crate::checks::check;
use crate::octets::{NULL, READY_PUSH};
use crate::options::of_null;
use std::alloc::Global;
use std::test::Fail;
use zmtp_engine::Engine;
use zq_base::Kind;

// How many octets of a piece are taken, or 99 where memory wants.
fn taken_of(alloc: Global, engine: &mut Engine, piece: &[u8]) -> usize {
    match engine.feed(alloc, piece) {
        Ok(count) => count,
        Err(_) => 99,
    }
}

// Whether so many whole messages are taken out, and no more.
fn gives_out(engine: &mut Engine, messages: usize) -> bool {
    for _ in 0..messages {
        if engine.next_message().is_none() {
            return false;
        }
    }
    engine.next_message().is_none()
}

// Whether pieces are taken so far.
fn takes(alloc: Global, engine: &mut Engine, pieces: &[(&[u8], usize)]) -> bool {
    for (piece, count) in pieces {
        if taken_of(alloc, engine, piece) != *count {
            return false;
        }
    }
    true
}

/// Pieces of which the third breaks a rule, and how many octets of each are taken.
const BROKEN: [(&[u8], usize); 4] = [
    (NULL, 64),
    (READY_PUSH, 28),
    (b"\0\x01a\x08bc", 4),
    (b"bc", 0),
];

#[test]
fn a_refusal_takes_the_octets_up_to_the_one_that_breaks_a_rule(
    rt: HostRuntime,
) -> Result<(), Fail> {
    let mut engine = Engine::new(rt.alloc(), of_null(rt.alloc(), Kind::Pull))?;
    let takes = takes(rt.alloc(), &mut engine, &BROKEN);
    drop(engine);
    check(takes)
}

/// Pieces of which the third has two messages, and all of a third but its last octet.
const WHOLE: [(&[u8], usize); 3] = [
    (NULL, 64),
    (READY_PUSH, 28),
    (b"\0\x01a\x01\x01b\0\x01c\0\x02d", 12),
];

// Whether pieces are taken so far, and then so many whole messages are taken out.
fn gives(alloc: Global, engine: &mut Engine, pieces: &[(&[u8], usize)], messages: usize) -> bool {
    takes(alloc, engine, pieces) && gives_out(engine, messages)
}

#[test]
fn all_whole_messages_are_taken_out_and_no_more(rt: HostRuntime) -> Result<(), Fail> {
    let mut engine = Engine::new(rt.alloc(), of_null(rt.alloc(), Kind::Pull))?;
    let first = gives(rt.alloc(), &mut engine, &WHOLE, 2);
    let second = gives(rt.alloc(), &mut engine, &[(b"e", 1)], 1);
    drop(engine);
    check(first && second)
}
