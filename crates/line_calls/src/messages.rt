ghost use Rattle.std.specs.Prelude.{List, IfOk, OnOk, OnErr};
ghost use Rattle.spec_pattern.specs.PatternCalls.{Subscribe, Unsubscribe};
ghost use Rattle.spec_pattern.specs.declared.answers.Skip.{Skip};
ghost use Rattle.spec_run.specs.SocketCall.{SendsCall, ReceivesCall, ChangesCall};
ghost use Rattle.line_calls.specs.Steps.{LeadsSome, CallsSo};

use crate::steps::OpenSteps;
use spec_pattern::{RecvRefusal, SendRefusal, Skip};
use spec_run::{Answer, Topic};
use std::alloc::{AllocError, Global};
use zq_base::Message;

/// Sends, unless the socket processed its Stop.
pub(crate) fn sends<M: OpenSteps>(
    alloc: Global,
    socket: &mut M,
    message: &Message,
) -> Result<Answer, AllocError>
    requires agrees { M.agrees socket.old }
    requires whole { M.whole socket.old }
    ensures ok { IfOk result (λ answer. (told : List Skip) →
        CallsSo M.leads M.as_open M.moments (SendsCall message.now) answer told told
        socket.old socket.new) }
    ensures err { OnErr result (LeadsSome M.leads socket.old socket.new) }
    ensures whole { OnOk result (M.whole socket.new) }
    ensures agrees { M.agrees socket.new }
{
    if socket.is_stopped() {
        return Ok(Answer::NotSent(SendRefusal::Term));
    }
    socket.send(alloc, message)
}

/// Receives, unless the socket processed its Stop.
pub(crate) fn receives<M: OpenSteps>(
    alloc: Global,
    socket: &mut M,
    told: &mut Vec<Skip>,
) -> Result<Answer, AllocError>
    requires agrees { M.agrees socket.old }
    requires whole { M.whole socket.old }
    ensures ok { IfOk result (λ answer. CallsSo M.leads M.as_open M.moments ReceivesCall answer
        told.old.items told.new.items socket.old socket.new) }
    ensures err { OnErr result (LeadsSome M.leads socket.old socket.new) }
    ensures whole { OnOk result (M.whole socket.new) }
    ensures agrees { M.agrees socket.new }
{
    if socket.is_stopped() {
        return Ok(Answer::NotReceived(RecvRefusal::Term));
    }
    socket.recv(alloc, told)
}

/// Subscribes to a topic, unless the socket processed its Stop.
pub(crate) fn subscribes<M: OpenSteps>(
    alloc: Global,
    socket: &mut M,
    topic: &Topic,
) -> Result<Answer, AllocError>
    requires agrees { M.agrees socket.old }
    requires whole { M.whole socket.old }
    ensures ok { IfOk result (λ answer. (told : List Skip) →
        CallsSo M.leads M.as_open M.moments (ChangesCall Subscribe topic.now) answer told told
        socket.old socket.new) }
    ensures err { OnErr result (LeadsSome M.leads socket.old socket.new) }
    ensures whole { OnOk result (M.whole socket.new) }
    ensures agrees { M.agrees socket.new }
{
    if socket.is_stopped() {
        return Ok(Answer::Term);
    }
    socket.subscribe(alloc, topic.as_slice())
}

/// Cancels a subscription to a topic, unless the socket processed its Stop.
pub(crate) fn unsubscribes<M: OpenSteps>(
    alloc: Global,
    socket: &mut M,
    topic: &Topic,
) -> Result<Answer, AllocError>
    requires agrees { M.agrees socket.old }
    requires whole { M.whole socket.old }
    ensures ok { IfOk result (λ answer. (told : List Skip) →
        CallsSo M.leads M.as_open M.moments (ChangesCall Unsubscribe topic.now) answer told told
        socket.old socket.new) }
    ensures err { OnErr result (LeadsSome M.leads socket.old socket.new) }
    ensures whole { OnOk result (M.whole socket.new) }
    ensures agrees { M.agrees socket.new }
{
    if socket.is_stopped() {
        return Ok(Answer::Term);
    }
    socket.unsubscribe(alloc, topic.as_slice())
}
