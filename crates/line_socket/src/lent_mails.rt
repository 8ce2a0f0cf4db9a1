ghost use Rattle.std.specs.Prelude.{◌≡◌, ◌<◌, List, IfOk, OnOk, OnErr, length};
ghost use Rattle.zq_base.specs.Message.{max_octets};
ghost use Rattle.spec_pattern.specs.PatternCalls.{Subscribe, Unsubscribe};
ghost use Rattle.spec_pattern.specs.declared.answers.Skip.{Skip};
ghost use Rattle.spec_run.specs.SocketCall.{SendsOpen, ReceivesOpen, ChangesOpen};
ghost use Rattle.line_calls.specs.Steps.{LeadsSome, CallsSo, PumpsKind};
ghost use Rattle.line_socket.specs.Standing.{IsWhole};
ghost use Rattle.line_socket.specs.Owned.{parts_of, view_of, moments_since, Agrees};
ghost use Rattle.line_socket.specs.Leads.{Leads};
ghost use Rattle.line_socket.specs.Ready.{IsReady};

use crate::answers::{changed_reply, got_reply, sent_reply};
use crate::lent_desk::LentDesk;
use crate::sock::LentSock;
use end_table::HeldPipes;
use spec_pattern::Skip;
use spec_run::Answer;
use std::alloc::{AllocError, Global};
use zq_base::Message;

/// What comes before each call.
pub(crate) fn pump_kind<P: HeldPipes, D: LentDesk<P>>(
    alloc: Global,
    lent: &mut LentSock<P, D>,
) -> Result<(), AllocError>
    requires agrees { Agrees P.known (parts_of D.lent lent.old) }
    ensures ok { OnOk result (PumpsKind (Leads P.known) view_of (parts_of D.lent lent.old)
        (parts_of D.lent lent.new)) }
    ensures err { OnErr result (LeadsSome (Leads P.known) (parts_of D.lent lent.old)
        (parts_of D.lent lent.new)) }
    ensures whole { OnOk result (IsWhole lent.old.socket.core → IsWhole lent.new.socket.core) }
    ensures ready { OnOk result (IsReady (parts_of D.lent lent.old)
        → IsReady (parts_of D.lent lent.new)) }
    ensures agrees { Agrees P.known (parts_of D.lent lent.new) }
{
    crate::mails::pump(alloc, &mut lent.pipes, &mut lent.socket.core)
}

// Sends a message that is the socket's.
fn send_own<P: HeldPipes, D: LentDesk<P>>(
    alloc: Global,
    lent: &mut LentSock<P, D>,
    message: Message,
) -> Result<Answer, AllocError>
    requires agrees { Agrees P.known (parts_of D.lent lent.old) }
    requires ready { IsReady (parts_of D.lent lent.old) }
    ensures ok { IfOk result (λ answer. (told : List Skip) →
        CallsSo (Leads P.known) view_of moments_since (SendsOpen message) answer told told
        (parts_of D.lent lent.old) (parts_of D.lent lent.new)) }
    ensures err { OnErr result (LeadsSome (Leads P.known) (parts_of D.lent lent.old)
        (parts_of D.lent lent.new)) }
    ensures whole { IsWhole lent.new.socket.core }
    ensures ready { OnOk result (IsReady (parts_of D.lent lent.new)) }
    ensures agrees { Agrees P.known (parts_of D.lent lent.new) }
{
    sent_reply(crate::mails::send(alloc, &mut lent.pipes, &mut lent.socket.core, message))
}

/// Sends a copy of a message by the rule of the socket's kind.
pub(crate) fn send<P: HeldPipes, D: LentDesk<P>>(
    alloc: Global,
    lent: &mut LentSock<P, D>,
    message: &Message,
) -> Result<Answer, AllocError>
    requires agrees { Agrees P.known (parts_of D.lent lent.old) }
    requires ready { IsReady (parts_of D.lent lent.old) }
    ensures ok { IfOk result (λ answer. (told : List Skip) →
        CallsSo (Leads P.known) view_of moments_since (SendsOpen message.now) answer told told
        (parts_of D.lent lent.old) (parts_of D.lent lent.new)) }
    ensures err { OnErr result (LeadsSome (Leads P.known) (parts_of D.lent lent.old)
        (parts_of D.lent lent.new)) }
    ensures whole { IsWhole lent.new.socket.core }
    ensures ready { OnOk result (IsReady (parts_of D.lent lent.new)) }
    ensures agrees { Agrees P.known (parts_of D.lent lent.new) }
{
    match message.copy(alloc) {
        Ok(copy) => return send_own(alloc, lent, copy),
        Err(want) => return Err(want),
    }
}

/// Receives by the rule of the socket's kind.
pub(crate) fn recv<P: HeldPipes, D: LentDesk<P>>(
    alloc: Global,
    lent: &mut LentSock<P, D>,
    told: &mut Vec<Skip>,
) -> Result<Answer, AllocError>
    requires agrees { Agrees P.known (parts_of D.lent lent.old) }
    requires ready { IsReady (parts_of D.lent lent.old) }
    ensures ok { IfOk result (λ answer. CallsSo (Leads P.known) view_of moments_since ReceivesOpen
        answer told.old.items told.new.items (parts_of D.lent lent.old)
        (parts_of D.lent lent.new)) }
    ensures err { OnErr result (LeadsSome (Leads P.known) (parts_of D.lent lent.old)
        (parts_of D.lent lent.new)) }
    ensures whole { OnOk result (IsWhole lent.new.socket.core) }
    ensures ready { OnOk result (IsReady (parts_of D.lent lent.new)) }
    ensures agrees { Agrees P.known (parts_of D.lent lent.new) }
{
    got_reply(crate::mails::recv(alloc, &mut lent.pipes, &mut lent.socket.core, told))
}

/// Subscribes once more to a topic.
pub(crate) fn subscribe<P: HeldPipes, D: LentDesk<P>>(
    alloc: Global,
    lent: &mut LentSock<P, D>,
    topic: &[u8],
) -> Result<Answer, AllocError>
    requires agrees { Agrees P.known (parts_of D.lent lent.old) }
    requires ready { IsReady (parts_of D.lent lent.old) }
    requires short { length topic.now < max_octets }
    ensures ok { IfOk result (λ answer. (told : List Skip) →
        CallsSo (Leads P.known) view_of moments_since (ChangesOpen Subscribe topic.now) answer told told
        (parts_of D.lent lent.old) (parts_of D.lent lent.new)) }
    ensures err { OnErr result (LeadsSome (Leads P.known) (parts_of D.lent lent.old)
        (parts_of D.lent lent.new)) }
    ensures whole { IsWhole lent.new.socket.core }
    ensures ready { OnOk result (IsReady (parts_of D.lent lent.new)) }
    ensures agrees { Agrees P.known (parts_of D.lent lent.new) }
{
    changed_reply(crate::mails::subscribe(alloc, &mut lent.pipes, &mut lent.socket.core, topic))
}

/// Cancels one subscription to a topic.
pub(crate) fn unsubscribe<P: HeldPipes, D: LentDesk<P>>(
    alloc: Global,
    lent: &mut LentSock<P, D>,
    topic: &[u8],
) -> Result<Answer, AllocError>
    requires agrees { Agrees P.known (parts_of D.lent lent.old) }
    requires ready { IsReady (parts_of D.lent lent.old) }
    requires short { length topic.now < max_octets }
    ensures ok { IfOk result (λ answer. (told : List Skip) →
        CallsSo (Leads P.known) view_of moments_since (ChangesOpen Unsubscribe topic.now) answer told told
        (parts_of D.lent lent.old) (parts_of D.lent lent.new)) }
    ensures err { OnErr result (LeadsSome (Leads P.known) (parts_of D.lent lent.old)
        (parts_of D.lent lent.new)) }
    ensures whole { IsWhole lent.new.socket.core }
    ensures ready { OnOk result (IsReady (parts_of D.lent lent.new)) }
    ensures agrees { Agrees P.known (parts_of D.lent lent.new) }
{
    changed_reply(crate::mails::unsubscribe(alloc, &mut lent.pipes, &mut lent.socket.core, topic))
}
