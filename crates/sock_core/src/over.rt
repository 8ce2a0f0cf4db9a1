ghost use Rattle.std.specs.Prelude.{◌≡◌, ◌<◌, length, OnOk, OnErr};
ghost use Rattle.zq_base.specs.Message.{max_octets};
ghost use Rattle.spec_pattern.specs.PatternCalls.{Subscribe, Unsubscribe};
ghost use Rattle.any_sock.specs.Over.{left_of};
ghost use Rattle.any_sock.specs.Calls.{MatchChanged};
ghost use Rattle.pub_sub.specs.XSubs.{MatchXSend, IfXBack};
ghost use Rattle.sock_core.specs.Lent.{IsWhole, MakesSome, lent};
ghost use Rattle.sock_core.specs.Mails.{SendsHere, SaysHere, SendUndoneHere, ReceiveDone, PumpsHere, PumpStopsHere};
ghost use Rattle.sock_core.specs.Mails.{ChangesHere, ChangeUntoldHere, ChangeUndoneHere};

use any_sock::{AnySock, ChangeFault};
use end_table::{EndRow, Ends, Place};
use msg_pipe::Pipes;
use pub_sub::XSendFault;
use spec_pattern::{RecvFault, Sent, Skip};
use std::alloc::{AllocError, Global};
use zq_base::{Message, PairId};

/// Sends by the kind's rule over the socket's own ends.
pub(crate) fn send_over<P: Pipes>(
    kind: &mut AnySock,
    alloc: Global,
    pipes: &mut P,
    rows: &mut Vec<Option<Box<EndRow<P::Out, P::In>>>>,
    places: &[Place<P::Name, P::In>],
    message: Message,
) -> Result<Sent, XSendFault>
    requires whole { IsWhole P.known (lent pipes.old rows.old.items places.now kind.old) }
    ensures whole { IsWhole P.known (lent pipes.new rows.new.items places.now kind.new) }
    ensures made { MakesSome P.known (lent pipes.old rows.old.items places.now kind.old) (lent pipes.new rows.new.items places.now kind.new) }
    ensures step { MatchXSend result (SendUndoneHere (lent pipes.old rows.old.items places.now kind.old) (lent pipes.new rows.new.items places.now kind.new))
        (SaysHere P.known message (lent pipes.old rows.old.items places.now kind.old) (lent pipes.new rows.new.items places.now kind.new))
        (λ answer. SendsHere P.known message (lent pipes.old rows.old.items places.now kind.old) answer (lent pipes.new rows.new.items places.now kind.new)) }
    ensures back { IfXBack result (λ back. back ≡ message) }
    ensures left { left_of kind.new ≡ left_of kind.old }
{
    let _unread = places;
    kind.is_told_by_its_peers();
    let mut ends = Ends { pipes, rows };
    let done = kind.send(alloc, &mut ends, message);
    kind.is_told_by_its_peers();
    done
}

/// Receives by the kind's rule over the socket's own ends.
pub(crate) fn recv_over<P: Pipes>(
    kind: &mut AnySock,
    alloc: Global,
    pipes: &mut P,
    rows: &mut Vec<Option<Box<EndRow<P::Out, P::In>>>>,
    places: &[Place<P::Name, P::In>],
    skips: &mut Vec<Skip>,
) -> Result<(PairId, Message), RecvFault>
    requires whole { IsWhole P.known (lent pipes.old rows.old.items places.now kind.old) }
    ensures whole { IsWhole P.known (lent pipes.new rows.new.items places.now kind.new) }
    ensures made { MakesSome P.known (lent pipes.old rows.old.items places.now kind.old) (lent pipes.new rows.new.items places.now kind.new) }
    ensures step { ReceiveDone P.known (left_of kind.old).to_give skips.old.items skips.new.items (lent pipes.old rows.old.items places.now kind.old) result (lent pipes.new rows.new.items places.now kind.new) }
{
    let _unread = places;
    kind.is_told_by_its_peers();
    let mut ends = Ends { pipes, rows };
    let done = kind.recv(alloc, &mut ends, skips);
    kind.is_told_by_its_peers();
    done
}

/// Hears or tells the peers at the socket's own ends.
pub(crate) fn pump_over<P: Pipes>(
    kind: &mut AnySock,
    alloc: Global,
    pipes: &mut P,
    rows: &mut Vec<Option<Box<EndRow<P::Out, P::In>>>>,
    places: &[Place<P::Name, P::In>],
) -> Result<(), AllocError>
    requires whole { IsWhole P.known (lent pipes.old rows.old.items places.now kind.old) }
    ensures whole { IsWhole P.known (lent pipes.new rows.new.items places.now kind.new) }
    ensures made { MakesSome P.known (lent pipes.old rows.old.items places.now kind.old) (lent pipes.new rows.new.items places.now kind.new) }
    ensures ok { OnOk result (PumpsHere P.known (lent pipes.old rows.old.items places.now kind.old) (lent pipes.new rows.new.items places.now kind.new)) }
    ensures err { OnErr result (PumpStopsHere P.known (lent pipes.old rows.old.items places.now kind.old) (lent pipes.new rows.new.items places.now kind.new)) }
{
    let _unread = places;
    kind.is_told_by_its_peers();
    let mut ends = Ends { pipes, rows };
    let done = kind.pump(alloc, &mut ends);
    kind.is_told_by_its_peers();
    done
}

/// Subscribes to a topic, and tells the peers at the socket's own ends.
pub(crate) fn subscribe_over<P: Pipes>(
    kind: &mut AnySock,
    alloc: Global,
    pipes: &mut P,
    rows: &mut Vec<Option<Box<EndRow<P::Out, P::In>>>>,
    places: &[Place<P::Name, P::In>],
    topic: &[u8],
) -> Result<(), ChangeFault>
    requires whole { IsWhole P.known (lent pipes.old rows.old.items places.now kind.old) }
    requires short { length topic.now < max_octets }
    ensures whole { IsWhole P.known (lent pipes.new rows.new.items places.now kind.new) }
    ensures made { MakesSome P.known (lent pipes.old rows.old.items places.now kind.old) (lent pipes.new rows.new.items places.now kind.new) }
    ensures step { MatchChanged result (ChangeUndoneHere (lent pipes.old rows.old.items places.now kind.old) (lent pipes.new rows.new.items places.now kind.new))
        (ChangeUntoldHere P.known Subscribe topic.now (lent pipes.old rows.old.items places.now kind.old) (lent pipes.new rows.new.items places.now kind.new))
        (λ answer. ChangesHere P.known Subscribe topic.now (lent pipes.old rows.old.items places.now kind.old) answer (lent pipes.new rows.new.items places.now kind.new)) }
    ensures left { left_of kind.new ≡ left_of kind.old }
{
    let _unread = places;
    kind.is_told_by_its_peers();
    let mut ends = Ends { pipes, rows };
    let done = kind.subscribe(alloc, &mut ends, topic);
    kind.is_told_by_its_peers();
    done
}

/// Cancels a subscription to a topic, and tells the peers at the socket's own ends.
pub(crate) fn unsubscribe_over<P: Pipes>(
    kind: &mut AnySock,
    alloc: Global,
    pipes: &mut P,
    rows: &mut Vec<Option<Box<EndRow<P::Out, P::In>>>>,
    places: &[Place<P::Name, P::In>],
    topic: &[u8],
) -> Result<(), ChangeFault>
    requires whole { IsWhole P.known (lent pipes.old rows.old.items places.now kind.old) }
    ensures whole { IsWhole P.known (lent pipes.new rows.new.items places.now kind.new) }
    ensures made { MakesSome P.known (lent pipes.old rows.old.items places.now kind.old) (lent pipes.new rows.new.items places.now kind.new) }
    ensures step { MatchChanged result (ChangeUndoneHere (lent pipes.old rows.old.items places.now kind.old) (lent pipes.new rows.new.items places.now kind.new))
        (ChangeUntoldHere P.known Unsubscribe topic.now (lent pipes.old rows.old.items places.now kind.old) (lent pipes.new rows.new.items places.now kind.new))
        (λ answer. ChangesHere P.known Unsubscribe topic.now (lent pipes.old rows.old.items places.now kind.old) answer (lent pipes.new rows.new.items places.now kind.new)) }
    ensures left { left_of kind.new ≡ left_of kind.old }
{
    let _unread = places;
    kind.is_told_by_its_peers();
    let mut ends = Ends { pipes, rows };
    let done = kind.unsubscribe(alloc, &mut ends, topic);
    kind.is_told_by_its_peers();
    done
}
