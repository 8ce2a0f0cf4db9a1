use crate::messages::{has, message};
use crate::octets::{CLIENT, NULL, READY_PUSH, SERVER};
use crate::options::of_login;
use spec_zmtp::{Cause, Refusal};
use std::alloc::{AllocError, Global};
use zmtp_engine::{Engine, State};
use zq_base::{Kind, Role};

/// READY of a PAIR and a PULL, and INITIATE of a PUSH and a PULL.
pub(crate) const READY_PAIR: &[u8] = b"\x04\x1a\x05READY\x0bSocket-Type\0\0\0\x04PAIR";

pub(crate) const READY_PULL: &[u8] = b"\x04\x1a\x05READY\x0bSocket-Type\0\0\0\x04PULL";

const INITIATE_PUSH: &[u8] = b"\x04\x1d\x08INITIATE\x0bSocket-Type\0\0\0\x04PUSH";

const INITIATE_PULL: &[u8] = b"\x04\x1d\x08INITIATE\x0bSocket-Type\0\0\0\x04PULL";

/// HELLO of the user u with the password x, and its answers.
const HELLO: &[u8] = b"\x04\x0a\x05HELLO\x01u\x01x";

const WELCOME: &[u8] = b"\x04\x08\x07WELCOME";

const ERROR: &[u8] = b"\x04\x12\x05ERROR\x0bNot-welcome";

pub(crate) fn new_engine(
    alloc: Global,
    kind: Kind,
    role: Role,
    pass: u8,
) -> Result<Engine, AllocError> {
    let opts = of_login(alloc, kind, role, pass)?;
    Engine::new(alloc, opts)
}

/// Whether a piece is heard whole.
pub(crate) fn hears(alloc: Global, engine: &mut Engine, piece: &[u8]) -> bool {
    engine.feed(alloc, piece) == Ok(piece.len())
}

// What an engine lends now goes behind the octets, and is written.
fn write(engine: &mut Engine, octets: &mut Vec<u8>) -> Result<(), AllocError> {
    let lent = engine.out();
    let count = lent.len();
    octets.extend_from_slice(lent)?;
    engine.wrote(count);
    Ok(())
}

/// Whether all that it lends does.
pub(crate) fn writes_all(engine: &mut Engine, octets: &mut Vec<u8>) -> bool {
    for _ in 0..8 {
        if write(engine, octets).is_err() {
            return false;
        }
    }
    true
}

/// Whether the next message has these frames.
pub(crate) fn gives(engine: &mut Engine, bodies: &[&[u8]]) -> bool {
    match engine.next_message() {
        Some(message) => has(&message, bodies),
        None => false,
    }
}

// Whether the handshake is done with a PUSH.
fn runs_with_a_push(engine: &Engine) -> bool {
    let known = match engine.peer() {
        Some(peer) => peer.kind == Kind::Push,
        None => false,
    };
    match engine.state() {
        State::Running(peer) => known && peer.kind == Kind::Push,
        State::Shaking | State::Refused(_) => false,
    }
}

fn is_shaking(engine: &Engine) -> bool {
    match engine.state() {
        State::Shaking => true,
        State::Running(_) | State::Refused(_) => false,
    }
}

fn refusal_of(engine: &Engine) -> Option<Refusal> {
    match engine.state() {
        State::Refused(refusal) => Some(refusal),
        State::Shaking | State::Running(_) => None,
    }
}

/// A PULL's role, the password that it knows, and in turn what it hears and what it says to that.
const TALKS: [(Role, u8, &[(&[u8], &[u8])]); 4] = [
    (
        Role::Null,
        b'x',
        &[(b"", NULL), (NULL, READY_PULL), (READY_PUSH, b"")],
    ),
    (
        Role::PlainClient,
        b'x',
        &[
            (b"", CLIENT),
            (SERVER, HELLO),
            (WELCOME, INITIATE_PULL),
            (READY_PUSH, b""),
        ],
    ),
    (
        Role::PlainServer,
        b'x',
        &[
            (b"", SERVER),
            (CLIENT, b""),
            (HELLO, WELCOME),
            (INITIATE_PUSH, READY_PULL),
        ],
    ),
    (
        Role::PlainServer,
        b'p',
        &[(b"", SERVER), (CLIENT, b""), (HELLO, ERROR)],
    ),
];

// Whether an engine says these octets.
fn says(alloc: Global, engine: &mut Engine, answer: &[u8]) -> bool {
    let mut octets = Vec::new(alloc);
    let written = writes_all(engine, &mut octets);
    let same = octets.as_slice() == answer;
    drop(octets);
    written && same
}

// Whether an engine says what it must to each piece.
fn talks(alloc: Global, engine: &mut Engine, turns: &[(&[u8], &[u8])]) -> bool {
    for (heard, answer) in turns {
        if !hears(alloc, engine, heard) || !says(alloc, engine, answer) {
            return false;
        }
    }
    true
}

// Whether the peer that knows the password x is welcome, and one with another is not.
fn ends_well(engine: &Engine, pass: u8) -> bool {
    if pass == b'x' {
        return runs_with_a_push(engine);
    }
    let refusal = Refusal {
        cause: Cause::NotWelcome,
        offset: 64,
    };
    refusal_of(engine) == Some(refusal)
}

// Whether an engine that is shaking hands talks so, and ends as it must.
fn shakes_hands(alloc: Global, engine: &mut Engine, pass: u8, turns: &[(&[u8], &[u8])]) -> bool {
    is_shaking(engine) && talks(alloc, engine, turns) && ends_well(engine, pass)
}

// Whether a PULL of this role talks so, and ends as it must.
fn shakes(alloc: Global, role: Role, pass: u8, turns: &[(&[u8], &[u8])]) -> bool {
    match new_engine(alloc, Kind::Pull, role, pass) {
        Ok(mut engine) => {
            let shakes = shakes_hands(alloc, &mut engine, pass, turns);
            drop(engine);
            return shakes;
        }
        Err(_) => return false,
    }
}

#[test]
fn each_role_says_what_the_standard_has_it_say(rt: HostRuntime) {
    for (role, pass, turns) in &TALKS {
        assert!(rt; shakes(rt.alloc(), *role, *pass, turns));
    }
}

// Whether no message is there.
fn gives_nothing(engine: &mut Engine) -> bool {
    engine.next_message().is_none()
}

// Whether a message comes with the second of two pieces.
fn comes_with_the_second(alloc: Global, engine: &mut Engine, front: &[u8], back: &[u8]) -> bool {
    let early = hears(alloc, engine, front) && gives_nothing(engine);
    early && hears(alloc, engine, back) && gives(engine, &[b"hello"])
}

// The same of a PULL.
fn hears_hello(alloc: Global, front: &[u8], back: &[u8]) -> bool {
    match new_engine(alloc, Kind::Pull, Role::Null, b'x') {
        Ok(mut engine) => {
            let heard = comes_with_the_second(alloc, &mut engine, front, back);
            drop(engine);
            return heard;
        }
        Err(_) => return false,
    }
}

// Whether these octets are heard wherever they are cut.
fn hears_however_cut(alloc: Global, octets: &[u8]) -> bool {
    for cut in 0..octets.len() {
        let (front, back) = octets.split_at(cut);
        if !hears_hello(alloc, front, back) {
            return false;
        }
    }
    true
}

/// The greeting and the READY of a PUSH, and a message of it.
const HELLO_OF_A_PUSH: &[u8] =
    b"\xff\0\0\0\0\0\0\0\0\x7f\x03\0NULL\0\0\0\0\0\0\0\0\0\0\0\0\0\0\0\0\0\0\0\0\0\0\0\0\0\0\0\0\0\0\0\0\0\0\0\0\0\0\0\0\0\0\0\0\0\0\0\0\x04\x1a\x05READY\x0bSocket-Type\0\0\0\x04PUSH\0\x05hello";

#[test]
fn a_message_is_heard_in_any_two_pieces(rt: HostRuntime) {
    assert!(rt; hears_however_cut(rt.alloc(), HELLO_OF_A_PUSH));
}

/// The head of a frame, and the size of its body.
const BODIES: [(&[u8], usize); 3] = [
    (b"\0\xff", 255),
    (b"\x02\0\0\0\0\0\0\x01\0", 256),
    (b"\x02\0\0\0\0\x01\0\0\0", 16_777_216),
];

/// The sizes of the pieces in which a body comes, in turn.
const SIZES: [usize; 5] = [1, 255, 4_096, 65_537, 1_048_576];

// So many octets in front, or all that there are, and those behind.
fn cut(octets: &[u8], size: usize) -> (&[u8], &[u8]) {
    if octets.len() < size {
        (octets, &[])
    } else {
        octets.split_at(size)
    }
}

// Whether a body is heard in pieces.
fn hears_in_pieces(alloc: Global, engine: &mut Engine, body: &[u8]) -> bool {
    let mut rest = body;
    for turn in 0..80 {
        let (piece, later) = cut(rest, SIZES[turn % 5]);
        if !hears(alloc, engine, piece) {
            return false;
        }
        rest = later;
    }
    rest.is_empty()
}

// Whether an engine hears its peer's greeting and READY, and a body behind this head in pieces.
fn engine_hears_body(alloc: Global, engine: &mut Engine, head: &[u8], body: &[u8]) -> bool {
    let begins = hears(alloc, engine, NULL) && hears(alloc, engine, READY_PUSH);
    let heard = hears(alloc, engine, head) && hears_in_pieces(alloc, engine, body);
    begins && heard && gives(engine, &[body])
}

// The same of a PULL.
fn pull_hears_body(alloc: Global, head: &[u8], body: &[u8]) -> bool {
    match new_engine(alloc, Kind::Pull, Role::Null, b'x') {
        Ok(mut engine) => {
            let heard = engine_hears_body(alloc, &mut engine, head, body);
            drop(engine);
            return heard;
        }
        Err(_) => return false,
    }
}

// Whether a body behind this head is heard, in pieces.
fn hears_body(alloc: Global, head: &[u8], count: usize) -> bool {
    match Vec::from_elem(alloc, b'a', count) {
        Ok(body) => {
            let heard = pull_hears_body(alloc, head, &body);
            drop(body);
            return heard;
        }
        Err(_) => return false,
    }
}

#[test]
fn bodies_up_to_the_limit_are_heard_in_pieces(rt: HostRuntime) {
    for (head, count) in &BODIES {
        assert!(rt; hears_body(rt.alloc(), head, *count));
    }
}
