//! As many topics as a socket may want, and one more: more than a script has lines.
ghost use Rattle.sock_core.specs.Holding.{lent_in};
ghost use Rattle.sock_core.specs.Lent.{IsWhole};

use crate::checks::check;
use crate::sockets::{Core, Socket, alone};
use any_sock::ChangeFault;
use msg_pipe::{Pipes, PlainPipes};
use pub_sub::XSendFault;
use sock_core::{SockHolder, send_core, subscribe_core};
use spec_pattern::{SendRefusal, Sent};
use std::alloc::Global;
use std::test::Fail;
use zq_base::{Frame, Kind, Message};

// Whether a number was subscribed to, or what was wanting.
fn subscribe(
    alloc: Global,
    pipes: &mut PlainPipes,
    core: &mut Core,
    number: u32,
) -> Result<(), ChangeFault>
    requires whole { IsWhole ⟦<PlainPipes as Pipes>⟧.known (lent_in pipes.old core.old) }
    ensures whole { IsWhole ⟦<PlainPipes as Pipes>⟧.known (lent_in pipes.new core.new) }
{
    let topic = number.to_be_bytes();
    subscribe_core(core, alloc, pipes, &topic)
}

// Whether 65,536 numbers are wanted, and no more but those.
fn wants_as_many(alloc: Global, pipes: &mut PlainPipes, core: &mut Core) -> bool
    requires whole { IsWhole ⟦<PlainPipes as Pipes>⟧.known (lent_in pipes.old core.old) }
{
    'numbers: for number in 0..65_536u32 {
        if subscribe(alloc, pipes, core, number).is_err() {
            return false;
        }
    }
    let further = subscribe(alloc, pipes, core, 65_536) == Err(ChangeFault::SubLimit);
    further && subscribe(alloc, pipes, core, 9) == Ok(())
}

// Whether an open socket wants so many.
fn wants(alloc: Global, socket: Socket) -> bool {
    if !socket.core.is_open {
        drop(socket);
        return false;
    }
    let SockHolder {
        mut pipes,
        mut core,
        did: _,
        since: _,
    } = socket;
    let wants = wants_as_many(alloc, &mut pipes, &mut core);
    drop(pipes);
    drop(core);
    wants
}

#[test]
fn a_sub_wants_65_536_topics_and_no_more(rt: HostRuntime) -> Result<(), Fail> {
    check(wants(rt.alloc(), alone(rt.alloc(), Kind::Sub)))
}

// The message of this one frame, where there is memory.
fn of_frame(alloc: Global, frame: Frame) -> Option<Message> {
    match Vec::with_capacity(alloc, 1) {
        Ok(mut frames) => {
            frames.push_reserved(frame);
            return Some(Message::of_frames(frames));
        }
        Err(_) => return None,
    }
}

// The message that subscribes to a number, where there is memory.
fn message(alloc: Global, number: u32) -> Option<Message> {
    let octets = number.to_be_bytes();
    let frame = [1, octets[0], octets[1], octets[2], octets[3]];
    match Frame::of_slice(alloc, &frame) {
        Ok(frame) => return of_frame(alloc, frame),
        Err(_) => return None,
    }
}

// What a send of it tells, where there is memory for the message.
fn send(
    alloc: Global,
    pipes: &mut PlainPipes,
    core: &mut Core,
    number: u32,
) -> Option<Result<Sent, XSendFault>>
    requires whole { IsWhole ⟦<PlainPipes as Pipes>⟧.known (lent_in pipes.old core.old) }
    ensures whole { IsWhole ⟦<PlainPipes as Pipes>⟧.known (lent_in pipes.new core.new) }
{
    match message(alloc, number) {
        Some(message) => return Some(send_core(core, alloc, pipes, message)),
        None => return None,
    }
}

// Whether a number was subscribed to.
fn is_heeded(told: Option<Result<Sent, XSendFault>>) -> bool {
    matches!(told, Some(Ok(Sent::Subscribed)))
}

// Whether it was refused, and its one frame given back.
fn is_refused(told: Option<Result<Sent, XSendFault>>) -> bool {
    match told {
        Some(Err(XSendFault::Refused(SendRefusal::SubLimit, back))) => back.len() == 1,
        _ => false,
    }
}

// Whether 65,536 subscriptions are sent, and no more but those.
fn sends_as_many(alloc: Global, pipes: &mut PlainPipes, core: &mut Core) -> bool
    requires whole { IsWhole ⟦<PlainPipes as Pipes>⟧.known (lent_in pipes.old core.old) }
{
    'numbers: for number in 0..65_536u32 {
        if !is_heeded(send(alloc, pipes, core, number)) {
            return false;
        }
    }
    is_refused(send(alloc, pipes, core, 65_536)) && is_heeded(send(alloc, pipes, core, 9))
}

// Whether an open socket sends so many.
fn sends(alloc: Global, socket: Socket) -> bool {
    if !socket.core.is_open {
        drop(socket);
        return false;
    }
    let SockHolder {
        mut pipes,
        mut core,
        did: _,
        since: _,
    } = socket;
    let sends = sends_as_many(alloc, &mut pipes, &mut core);
    drop(pipes);
    drop(core);
    sends
}

#[test]
fn an_xsub_wants_65_536_topics_and_no_more(rt: HostRuntime) -> Result<(), Fail> {
    check(sends(rt.alloc(), alone(rt.alloc(), Kind::XSub)))
}
