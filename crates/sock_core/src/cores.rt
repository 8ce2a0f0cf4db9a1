ghost use Rattle.std.specs.Prelude.{◌≡◌, ◌<◌, length, OnOk, OnErr};
ghost use Rattle.zq_base.specs.Message.{max_octets};
ghost use Rattle.spec_pattern.specs.PatternCalls.{Subscribe, Unsubscribe};
ghost use Rattle.end_table.specs.Others.{Leaves};
ghost use Rattle.any_sock.specs.Over.{left_of};
ghost use Rattle.any_sock.specs.Calls.{MatchChanged};
ghost use Rattle.pub_sub.specs.XSubs.{MatchXSend, IfXBack};
ghost use Rattle.sock_core.specs.Lent.{IsWhole};
ghost use Rattle.sock_core.specs.Holding.{lent_in, KeepsRest};
ghost use Rattle.sock_core.specs.Mails.{SendsHere, SaysHere, SendUndoneHere, ReceiveDone, PumpsHere, PumpStopsHere};
ghost use Rattle.sock_core.specs.Mails.{ChangesHere, ChangeUntoldHere, ChangeUndoneHere};

use crate::over::{pump_over, recv_over, send_over, subscribe_over, unsubscribe_over};
use crate::sock::SockOver;
use any_sock::{AnySock, ChangeFault};
use end_table::HeldPipes;
use pub_sub::XSendFault;
use spec_pattern::{RecvFault, Sent, Skip};
use std::alloc::{AllocError, Global};
use zq_base::{Message, PairId};

/// Sends by the rule of the socket's kind, over pipes that stand beside it.
pub fn send_core<P: HeldPipes>(
    core: &mut SockOver<AnySock, P>,
    alloc: Global,
    pipes: &mut P,
    message: Message,
) -> Result<Sent, XSendFault>
    requires whole { IsWhole P.known (lent_in pipes.old core.old) }
    ensures whole { IsWhole P.known (lent_in pipes.new core.new) }
    ensures step { MatchXSend result (SendUndoneHere (lent_in pipes.old core.old) (lent_in pipes.new core.new))
        (SaysHere P.known message (lent_in pipes.old core.old) (lent_in pipes.new core.new))
        (λ answer. SendsHere P.known message (lent_in pipes.old core.old) answer (lent_in pipes.new core.new)) }
    ensures back { IfXBack result (λ back. back ≡ message) }
    ensures left { left_of core.new.kind ≡ left_of core.old.kind }
    ensures keeps { KeepsRest core.old core.new }
    ensures others { Leaves P.known pipes.old core.old.ends pipes.new core.new.ends }
{
    send_over(
        &mut core.kind,
        alloc,
        pipes,
        &mut core.ends.rows,
        &core.ends.places,
        message,
    )
}

/// Receives by the rule of the socket's kind, over pipes that stand beside it.
pub fn recv_core<P: HeldPipes>(
    core: &mut SockOver<AnySock, P>,
    alloc: Global,
    pipes: &mut P,
    skips: &mut Vec<Skip>,
) -> Result<(PairId, Message), RecvFault>
    requires whole { IsWhole P.known (lent_in pipes.old core.old) }
    ensures whole { IsWhole P.known (lent_in pipes.new core.new) }
    ensures step { ReceiveDone P.known (left_of core.old.kind).to_give
        skips.old.items skips.new.items (lent_in pipes.old core.old) result (lent_in pipes.new core.new) }
    ensures keeps { KeepsRest core.old core.new }
    ensures others { Leaves P.known pipes.old core.old.ends pipes.new core.new.ends }
{
    recv_over(
        &mut core.kind,
        alloc,
        pipes,
        &mut core.ends.rows,
        &core.ends.places,
        skips,
    )
}

/// What comes before each call on messages, over pipes that stand beside the socket.
pub fn pump_core<P: HeldPipes>(
    core: &mut SockOver<AnySock, P>,
    alloc: Global,
    pipes: &mut P,
) -> Result<(), AllocError>
    requires whole { IsWhole P.known (lent_in pipes.old core.old) }
    ensures whole { IsWhole P.known (lent_in pipes.new core.new) }
    ensures ok { OnOk result (PumpsHere P.known (lent_in pipes.old core.old) (lent_in pipes.new core.new)) }
    ensures err { OnErr result (PumpStopsHere P.known (lent_in pipes.old core.old) (lent_in pipes.new core.new)) }
    ensures keeps { KeepsRest core.old core.new }
    ensures others { Leaves P.known pipes.old core.old.ends pipes.new core.new.ends }
{
    pump_over(
        &mut core.kind,
        alloc,
        pipes,
        &mut core.ends.rows,
        &core.ends.places,
    )
}

/// Subscribes once more to the topic, and tells the peers, over pipes that stand beside the socket.
pub fn subscribe_core<P: HeldPipes>(
    core: &mut SockOver<AnySock, P>,
    alloc: Global,
    pipes: &mut P,
    topic: &[u8],
) -> Result<(), ChangeFault>
    requires whole { IsWhole P.known (lent_in pipes.old core.old) }
    requires short { length topic.now < max_octets }
    ensures whole { IsWhole P.known (lent_in pipes.new core.new) }
    ensures step { MatchChanged result (ChangeUndoneHere (lent_in pipes.old core.old) (lent_in pipes.new core.new))
        (ChangeUntoldHere P.known Subscribe topic.now (lent_in pipes.old core.old) (lent_in pipes.new core.new))
        (λ answer. ChangesHere P.known Subscribe topic.now (lent_in pipes.old core.old) answer (lent_in pipes.new core.new)) }
    ensures left { left_of core.new.kind ≡ left_of core.old.kind }
    ensures keeps { KeepsRest core.old core.new }
    ensures others { Leaves P.known pipes.old core.old.ends pipes.new core.new.ends }
{
    subscribe_over(
        &mut core.kind,
        alloc,
        pipes,
        &mut core.ends.rows,
        &core.ends.places,
        topic,
    )
}

/// Cancels one subscription to the topic, and tells the peers, over pipes that stand beside the
/// socket.
pub fn unsubscribe_core<P: HeldPipes>(
    core: &mut SockOver<AnySock, P>,
    alloc: Global,
    pipes: &mut P,
    topic: &[u8],
) -> Result<(), ChangeFault>
    requires whole { IsWhole P.known (lent_in pipes.old core.old) }
    ensures whole { IsWhole P.known (lent_in pipes.new core.new) }
    ensures step { MatchChanged result (ChangeUndoneHere (lent_in pipes.old core.old) (lent_in pipes.new core.new))
        (ChangeUntoldHere P.known Unsubscribe topic.now (lent_in pipes.old core.old) (lent_in pipes.new core.new))
        (λ answer. ChangesHere P.known Unsubscribe topic.now (lent_in pipes.old core.old) answer (lent_in pipes.new core.new)) }
    ensures left { left_of core.new.kind ≡ left_of core.old.kind }
    ensures keeps { KeepsRest core.old core.new }
    ensures others { Leaves P.known pipes.old core.old.ends pipes.new core.new.ends }
{
    unsubscribe_over(
        &mut core.kind,
        alloc,
        pipes,
        &mut core.ends.rows,
        &core.ends.places,
        topic,
    )
}
