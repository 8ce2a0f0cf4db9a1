ghost use Rattle.std.specs.Prelude.{◌≡◌, false};
ghost use Rattle.shared_pipe.specs.Halves.{writing_of, name_of_out, name_of_in};

use crate::numbered::{are_same, numbered};
use crate::parts::commit_two_of_three;
use crate::waiting::{put_or_wait, take_or_wait};
use crossbeam_utils::sync::Parker;
use msg_pipe::{Pipes, Taken};
use shared_pipe::{SharedIn, SharedOut, SharedPipes, Waker};
use std::alloc::Global;
use std::sync::Wait;
use std::test::Fail;
use std::thread::join;
use zq_base::{Message, Settled};

/// How many messages go through the pipe.
const MESSAGES: u64 = 100_000;

/// Writes all messages and seals.
fn write_all<R: Wait>(rt: &R, alloc: Global, parker: Parker, mut out: SharedOut) -> SharedOut
    requires open { (writing_of out).sealed ≡ false }
    ensures name { name_of_out result ≡ name_of_out out }
{
    'numbers: for number in 0..MESSAGES {
        match numbered(alloc, number) {
            Ok(message) => put_or_wait(rt, &parker, &mut out, message),
            Err(_none) => break,
        }
    }
    SharedPipes.seal(&mut out);
    out
}

/// Reads all messages, and counts those that came whole and in order.
fn read_all<R: Wait>(rt: &R, alloc: Global, parker: Parker, mut input: SharedIn) -> (SharedIn, u64)
    ensures name { name_of_in result.0 ≡ name_of_in input }
{
    let mut right = 0u64;
    'numbers: for number in 0..MESSAGES {
        if is_next(alloc, take_or_wait(rt, &parker, &mut input), number) {
            right = right.saturating_add(1);
        }
    }
    (input, right)
}

/// Whether this is the message of this number.
fn is_next(alloc: Global, taken: Option<Message>, number: u64) -> bool {
    match numbered(alloc, number) {
        Ok(expected) => match taken {
            Some(message) => are_same(&message, &expected),
            None => false,
        },
        Err(_none) => false,
    }
}

#[test]
fn each_message_comes_once_and_in_order(rt: HostRuntime) -> Result<(), Fail> {
    let alloc = rt.alloc();
    let writer = Parker::new(alloc)?;
    let reader = Parker::new(alloc)?;
    let (out, input) = SharedPipes.make(alloc, 16, &Waker::of(&writer)?, &Waker::of(&reader)?)?;
    let (out, (mut input, right)) = join(
        &rt,
        || -> SharedOut
            requires { (writing_of out).sealed ≡ false }
            ensures { name_of_out result ≡ name_of_out out }
        { write_all(&rt, alloc, writer, out) },
        || -> (SharedIn, u64)
            ensures { name_of_in result.0 ≡ name_of_in input }
        { read_all(&rt, alloc, reader, input) },
    );
    assert_eq!(rt; right, MESSAGES);
    assert!(rt; matches!(SharedPipes.take(&mut input), Taken::Delimiter));
    assert_eq!(rt;
        SharedPipes.settle(input, out),
        Settled {
            sent: MESSAGES,
            got: MESSAGES,
            rest: 0
        }
    );
    Ok(())
}

/// Stops in the middle of a message and seals. It says whether there was memory for the parts.
fn stop_in_the_middle(alloc: Global, mut out: SharedOut) -> (SharedOut, bool)
    requires open { (writing_of out).sealed ≡ false }
    ensures name { name_of_out result.0 ≡ name_of_out out }
{
    let built = commit_two_of_three(alloc, &mut out).is_ok();
    SharedPipes.seal(&mut out);
    (out, built)
}

/// Reads up to the delimiter, and counts the messages and their frames.
fn read_to_the_end<R: Wait>(rt: &R, parker: Parker, mut input: SharedIn) -> (SharedIn, u64, usize)
    ensures name { name_of_in result.0 ≡ name_of_in input }
{
    let mut messages = 0u64;
    let mut frames = 0usize;
    'messages: for _ in rt.forever() {
        match take_or_wait(rt, &parker, &mut input) {
            Some(message) => {
                messages = messages.saturating_add(1);
                frames = frames.saturating_add(message.len());
            }
            None => return (input, messages, frames),
        }
    }
    unreachable!()
}

#[test]
fn a_message_that_is_not_committed_is_never_seen(rt: HostRuntime) -> Result<(), Fail> {
    let alloc = rt.alloc();
    let reader = Parker::new(alloc)?;
    let (out, input) = SharedPipes.make(alloc, 2, &Waker::nobody(), &Waker::of(&reader)?)?;
    let ((out, built), (input, messages, frames)) = join(
        &rt,
        || -> (SharedOut, bool)
            requires { (writing_of out).sealed ≡ false }
            ensures { name_of_out result.0 ≡ name_of_out out }
        { stop_in_the_middle(alloc, out) },
        || -> (SharedIn, u64, usize)
            ensures { name_of_in result.0 ≡ name_of_in input }
        { read_to_the_end(&rt, reader, input) },
    );
    assert!(rt; built);
    assert_eq!(rt; (messages, frames), (1, 2));
    assert_eq!(rt;
        SharedPipes.settle(input, out),
        Settled {
            sent: 1,
            got: 1,
            rest: 0
        }
    );
    Ok(())
}
