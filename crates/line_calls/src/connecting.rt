ghost use Rattle.std.specs.Prelude.{◌≡◌, ◌<◌, ◌||◌, List, IfOk, OnErr, length};
ghost use Rattle.spec_pattern.specs.declared.answers.Skip.{Skip};
ghost use Rattle.spec_run.specs.SocketCall.{leave_asked, ConnectsCall};
ghost use Rattle.zq_world.specs.MayAsk.{IsLocal};
ghost use Rattle.line_calls.specs.Steps.{LeadsSome, CallsSo};

use crate::steps::OpenSteps;
use spec_control::Req;
use spec_run::Answer;
use std::alloc::{AllocError, Global};
use zq_base::Endpoint;

/// The same endpoint once more.
pub(crate) fn endpoint_of(alloc: Global, at: &Endpoint) -> Result<Endpoint, AllocError>
    ensures { IfOk result (λ copy. copy ≡ at.now) }
{
    match at {
        Endpoint::Inproc(name) => return Ok(Endpoint::Inproc(name.copy(alloc)?)),
        Endpoint::Tcp(address) => return Ok(Endpoint::Tcp(*address)),
    }
}

// Whether the socket processed its Stop, or its caller's last moment found the root asked.
fn is_ending<M: OpenSteps>(socket: &M) -> bool
    requires agrees { M.agrees socket.now }
    requires some { 0 < length (M.moments socket.now) }
    ensures { result ≡ ((M.as_open socket.now).stopped || leave_asked (M.moments socket.now)) }
{
    socket.is_stopped() || socket.finds_asked()
}

/// Connects, where the socket's kind takes a connect to the endpoint.
pub(crate) fn connects<M: OpenSteps>(
    alloc: Global,
    socket: &mut M,
    to: &Endpoint,
) -> Result<Answer, AllocError>
    requires agrees { M.agrees socket.old }
    requires whole { M.whole socket.old }
    requires some { 0 < length (M.moments socket.old) }
    requires inproc { IsLocal to.now }
    ensures ok { IfOk result (λ answer. (told : List Skip) →
        CallsSo M.leads M.as_open M.moments (ConnectsCall to.now) answer told told
        socket.old socket.new) }
    ensures err { OnErr result (LeadsSome M.leads socket.old socket.new) }
    ensures whole { M.whole socket.new }
    ensures agrees { M.agrees socket.new }
{
    if socket.takes_connect(to) {
        let at = endpoint_of(alloc, to)?;
        let request = Req::Connect(socket.number(), at);
        return socket.ask(alloc, request);
    }
    if is_ending(socket) {
        return Ok(Answer::Term);
    }
    Ok(Answer::NotSupported)
}
