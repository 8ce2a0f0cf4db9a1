ghost use Rattle.std.specs.Prelude.{◌<◌, IfOk, OnOk, OnErr, length};
ghost use Rattle.zq_world.specs.MayAsk.{MayAskLine};
ghost use Rattle.zq_world.specs.Way.{AsksSocket, AsksOpen};
ghost use Rattle.line_calls.specs.Steps.{LeadsSome, CallsSo};
ghost use Rattle.line_calls.specs.Lines.{CallsLine};

use crate::connecting::{connects, endpoint_of};
use crate::messages::{receives, sends, subscribes, unsubscribes};
use crate::pumping::pump;
use crate::steps::OpenSteps;
use spec_control::Req;
use spec_pattern::Skip;
use spec_run::{Answer, Call};
use std::alloc::{AllocError, Global};

// Makes the call of a line.
fn ask_line<M: OpenSteps>(
    alloc: Global,
    socket: &mut M,
    line: &Call,
    told: &mut Vec<Skip>,
) -> Result<Answer, AllocError>
    requires agrees { M.agrees socket.old }
    requires whole { M.whole socket.old }
    requires some { 0 < length (M.moments socket.old) }
    requires asks { AsksSocket line.now }
    requires allowed { MayAskLine line.now }
    ensures ok { IfOk result (λ answer.
        CallsSo M.leads M.as_open M.moments (AsksOpen line.now) answer
        told.old.items told.new.items socket.old socket.new) }
    ensures err { OnErr result (LeadsSome M.leads socket.old socket.new) }
    ensures whole { OnOk result (M.whole socket.new) }
    ensures agrees { M.agrees socket.new }
{
    match line {
        Call::Bind(_, to) => {
            let at = endpoint_of(alloc, to)?;
            let request = Req::Bind(socket.number(), at);
            return socket.ask(alloc, request);
        }
        Call::Connect(_, to) => return connects(alloc, socket, to),
        Call::Send(_, message) => return sends(alloc, socket, message),
        Call::Recv(_, _) => return receives(alloc, socket, told),
        Call::Subscribe(_, topic) => return subscribes(alloc, socket, topic),
        Call::Unsubscribe(_, topic) => return unsubscribes(alloc, socket, topic),
        Call::Unbind(_, to) => {
            let at = endpoint_of(alloc, to)?;
            let request = Req::Unbind(socket.number(), at);
            return socket.ask(alloc, request);
        }
        Call::Disconnect(_, to) => {
            let at = endpoint_of(alloc, to)?;
            let request = Req::Disconnect(socket.number(), at);
            return socket.ask(alloc, request);
        }
        Call::Socket(_, _) | Call::Close(_) | Call::Term => unreachable!(),
    }
}

/// Pumps an open socket and then makes the call of a line, one of those that are made of a socket.
/// The messages that the call drops are told behind those told before.
pub fn call<M: OpenSteps>(
    alloc: Global,
    socket: &mut M,
    line: &Call,
    told: &mut Vec<Skip>,
) -> Result<Answer, AllocError>
    requires agrees { M.agrees socket.old }
    requires may { M.may_take socket.old }
    requires whole { M.whole socket.old }
    requires asks { AsksSocket line.now }
    requires allowed { MayAskLine line.now }
    ensures ok { IfOk result (λ answer. CallsLine M.leads M.as_open line.now answer
        told.old.items told.new.items socket.old socket.new) }
    ensures err { OnErr result (LeadsSome M.leads socket.old socket.new) }
    ensures whole { OnOk result (M.whole socket.new) }
    ensures agrees { M.agrees socket.new }
{
    match pump(alloc, socket) {
        // Whether letters may still wait is nobody's question yet.
        Ok(_limited) => return ask_line(alloc, socket, line, told),
        Err(want) => return Err(want),
    }
}
