use crate::checks::check;
use crate::engines::{READY_PAIR, READY_PULL, gives, hears, new_engine, writes_all};
use crate::messages::message;
use crate::octets::NULL;
use std::alloc::Global;
use std::test::Fail;
use zmtp_engine::{Engine, Offered};
use zq_base::{Kind, Message, Role};

// Whether a message is taken.
fn takes(engine: &mut Engine, message: Message) -> bool {
    match engine.offer(message) {
        Offered::Taken => true,
        Offered::Again(_) => false,
    }
}

// Whether the message of an empty frame and 'hello' is taken, where there is memory.
fn takes_two(alloc: Global, engine: &mut Engine) -> Option<bool> {
    match message(alloc, &[b"", b"hello"]) {
        Some(message) => return Some(takes(engine, message)),
        None => return None,
    }
}

// Whether a PUSH takes a message once the handshake is done, and no second one.
fn takes_one(alloc: Global, push: &mut Engine) -> bool {
    let early = takes_two(alloc, push) == Some(false);
    let shaken = hears(alloc, push, NULL) && hears(alloc, push, READY_PULL);
    let first = takes_two(alloc, push) == Some(true);
    early && shaken && first && takes_two(alloc, push) == Some(false)
}

// Whether an engine hears the message of two frames.
fn hears_two(alloc: Global, pull: &mut Engine, octets: &[u8]) -> bool {
    hears(alloc, pull, octets) && gives(pull, &[b"", b"hello"])
}

// Whether a PULL does.
fn pull_hears(alloc: Global, octets: &[u8]) -> bool {
    match new_engine(alloc, Kind::Pull, Role::Null, b'x') {
        Ok(mut pull) => {
            let heard = hears_two(alloc, &mut pull, octets);
            drop(pull);
            return heard;
        }
        Err(_) => return false,
    }
}

// Whether octets end with the message of two frames, and a PULL hears it.
fn is_heard(alloc: Global, octets: &[u8]) -> bool {
    octets.ends_with(b"PUSH\x01\0\0\x05hello") && pull_hears(alloc, octets)
}

// Whether a PULL hears what a PUSH says.
fn passes_on(alloc: Global, push: &mut Engine) -> bool {
    let mut octets = Vec::new(alloc);
    let written = writes_all(push, &mut octets);
    let heard = is_heard(alloc, &octets);
    drop(octets);
    written && heard
}

// Whether a PULL hears the one message that a PUSH takes, which then takes another.
fn is_passed_on(alloc: Global, push: &mut Engine) -> bool {
    let one = takes_one(alloc, push);
    one && passes_on(alloc, push) && takes_two(alloc, push) == Some(true)
}

#[test]
fn what_one_engine_writes_another_hears(rt: HostRuntime) -> Result<(), Fail> {
    let mut push = new_engine(rt.alloc(), Kind::Push, Role::Null, b'x')?;
    let passed = is_passed_on(rt.alloc(), &mut push);
    drop(push);
    check(passed)
}

// Whether the handshake of an engine with a PAIR is done, and written.
fn shakes_with_a_pair(alloc: Global, engine: &mut Engine) -> bool {
    let heard = hears(alloc, engine, NULL) && hears(alloc, engine, READY_PAIR);
    for _ in 0..8 {
        let count = engine.out().len();
        engine.wrote(count);
    }
    heard
}

// Whether an engine lends these octets, of which so many are written.
fn lends(engine: &mut Engine, octets: &[u8], count: usize) -> bool {
    let lent = engine.out();
    if lent != octets || lent.len() < count {
        return false;
    }
    engine.wrote(count);
    true
}

// Whether the message of two frames goes out in one run, once the handshake is done.
fn goes_out_at_once(alloc: Global, engine: &mut Engine) -> bool {
    let shaken = shakes_with_a_pair(alloc, engine);
    let taken = takes_two(alloc, engine) == Some(true);
    let lent = lends(engine, b"\x01\0\0\x05hello", 3) && lends(engine, b"\x05hello", 6);
    shaken && taken && lent && engine.out().is_empty()
}

#[test]
fn a_small_message_goes_out_in_one_run(rt: HostRuntime) -> Result<(), Fail> {
    let mut engine = new_engine(rt.alloc(), Kind::Pair, Role::Null, b'x')?;
    let goes = goes_out_at_once(rt.alloc(), &mut engine);
    drop(engine);
    check(goes)
}

/// The sizes of a body, and of the runs in which its message goes out.
const RUNS: [(usize, &[usize]); 4] = [
    (255, &[257]),
    (8_183, &[8_192]),
    (8_184, &[9, 8_184]),
    (100_000, &[9, 100_000]),
];

// The message of one frame of so many octets, where there is memory.
fn of_size(alloc: Global, size: usize) -> Option<Message> {
    match Vec::from_elem(alloc, b'a', size) {
        Ok(body) => {
            let message = message(alloc, &[body.as_slice()]);
            drop(body);
            return message;
        }
        Err(_) => return None,
    }
}

// Whether what an engine lends goes out in runs of these sizes.
fn goes_out_in(engine: &mut Engine, runs: &[usize]) -> bool {
    for run in runs {
        let count = engine.out().len();
        if count != *run {
            return false;
        }
        engine.wrote(count);
    }
    engine.out().is_empty()
}

// Whether a message of a frame of so many octets is taken.
fn takes_size(alloc: Global, engine: &mut Engine, size: usize) -> bool {
    match of_size(alloc, size) {
        Some(message) => return takes(engine, message),
        None => return false,
    }
}

// Whether an engine lends it in these runs, once the handshake is done.
fn lends_in(alloc: Global, engine: &mut Engine, size: usize, runs: &[usize]) -> bool {
    let shaken = shakes_with_a_pair(alloc, engine);
    shaken && takes_size(alloc, engine, size) && goes_out_in(engine, runs)
}

// Whether a PAIR does.
fn is_lent_in(alloc: Global, size: usize, runs: &[usize]) -> bool {
    match new_engine(alloc, Kind::Pair, Role::Null, b'x') {
        Ok(mut engine) => {
            let lent = lends_in(alloc, &mut engine, size, runs);
            drop(engine);
            return lent;
        }
        Err(_) => return false,
    }
}

#[test]
fn a_body_that_no_run_holds_is_lent_alone(rt: HostRuntime) {
    for (size, runs) in &RUNS {
        assert!(rt; is_lent_in(rt.alloc(), *size, runs));
    }
}
