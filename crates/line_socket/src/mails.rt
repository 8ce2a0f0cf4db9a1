ghost use Rattle.std.specs.Prelude.{◌≡◌, ◌<◌, ℕ, OnOk, OnErr, length};
ghost use Rattle.zq_base.specs.Message.{max_octets};
ghost use Rattle.spec_pattern.specs.PatternCalls.{Subscribe, Unsubscribe};
ghost use Rattle.spec_pattern.specs.Results.{MatchRecv};
ghost use Rattle.any_sock.specs.Calls.{MatchChanged};
ghost use Rattle.pub_sub.specs.XSubs.{MatchXSend, IfXBack};
ghost use Rattle.sock_calls.specs.Calls.{LeavesOthers};
ghost use Rattle.line_socket.specs.Standing.{Stands, IsWhole, KeepsSocket};
ghost use Rattle.line_socket.specs.Doing.{MakesSome, PumpsOpen, SendsSo, ReceivesSo, ChangesSo};

use any_sock::{AnySock, ChangeFault};
use end_table::HeldPipes;
use pub_sub::XSendFault;
use sock_core::{OpenSocket, pump_core, recv_core, send_core, subscribe_core, unsubscribe_core};
use spec_pattern::{RecvFault, Sent, Skip};
use std::alloc::{AllocError, Global};
use zq_base::{Message, PairId};

/// What comes before each call: a publisher hears what its peers subscribe to and cancel, and a
/// subscriber tells its peers what it wants. Where memory wants, what is left is done at the next
/// time.
pub fn pump<P: HeldPipes>(
    alloc: Global,
    pipes: &mut P,
    socket: &mut OpenSocket<P>,
) -> Result<(), AllocError>
    requires stands { Stands P.known pipes.old socket.old }
    ensures ok { OnOk result ((slot : ℕ) →
        PumpsOpen P.known slot pipes.old socket.old pipes.new socket.new) }
    ensures err { OnErr result (MakesSome P.known pipes.old socket.old pipes.new socket.new) }
    ensures whole { OnOk result (IsWhole socket.old → IsWhole socket.new) }
    ensures stands { Stands P.known pipes.new socket.new }
    ensures others { LeavesOthers P.known socket.old socket.new pipes.old pipes.new }
    ensures keeps { KeepsSocket socket.old socket.new }
{
    match socket {
        Some(core) => return pump_core(core, alloc, pipes),
        None => unreachable!(),
    }
}

/// Sends by the rule of the socket's kind (zmq_msg_send(3)). A message that is refused, or for which
/// memory wants, comes back whole. A socket that processed its Stop is refused by its caller.
pub fn send<P: HeldPipes>(
    alloc: Global,
    pipes: &mut P,
    socket: &mut OpenSocket<P>,
    message: Message,
) -> Result<Sent, XSendFault>
    requires stands { Stands P.known pipes.old socket.old }
    requires whole { IsWhole socket.old }
    ensures step { MatchXSend result
        (MakesSome P.known pipes.old socket.old pipes.new socket.new)
        (MakesSome P.known pipes.old socket.old pipes.new socket.new)
        (λ answer. (slot : ℕ) →
        SendsSo P.known slot message answer pipes.old socket.old pipes.new socket.new) }
    ensures back { IfXBack result (λ back. back ≡ message) }
    ensures whole { IsWhole socket.new }
    ensures stands { Stands P.known pipes.new socket.new }
    ensures others { LeavesOthers P.known socket.old socket.new pipes.old pipes.new }
    ensures keeps { KeepsSocket socket.old socket.new }
{
    match socket {
        Some(core) => return send_core(core, alloc, pipes, message),
        None => unreachable!(),
    }
}

/// Receives by the rule of the socket's kind (zmq_msg_recv(3)); the messages that it drops are told
/// behind those that were told before. A socket that processed its Stop is refused by its caller.
pub fn recv<P: HeldPipes>(
    alloc: Global,
    pipes: &mut P,
    socket: &mut OpenSocket<P>,
    told: &mut Vec<Skip>,
) -> Result<(PairId, Message), RecvFault>
    requires stands { Stands P.known pipes.old socket.old }
    requires whole { IsWhole socket.old }
    ensures step { MatchRecv result
        (MakesSome P.known pipes.old socket.old pipes.new socket.new)
        (λ answer. (slot : ℕ) → ReceivesSo P.known slot told.old.items told.new.items answer
        pipes.old socket.old pipes.new socket.new) }
    ensures whole { MatchRecv result (Unit {0}) (λ _. IsWhole socket.new) }
    ensures stands { Stands P.known pipes.new socket.new }
    ensures others { LeavesOthers P.known socket.old socket.new pipes.old pipes.new }
    ensures keeps { KeepsSocket socket.old socket.new }
{
    match socket {
        Some(core) => return recv_core(core, alloc, pipes, told),
        None => unreachable!(),
    }
}

/// Subscribes once more to the topic, of at most 16,777,215 octets, and tells the peers
/// (zmq_setsockopt(3), "ZMQ_SUBSCRIBE"). A socket that processed its Stop is refused by its caller.
pub fn subscribe<P: HeldPipes>(
    alloc: Global,
    pipes: &mut P,
    socket: &mut OpenSocket<P>,
    topic: &[u8],
) -> Result<(), ChangeFault>
    requires stands { Stands P.known pipes.old socket.old }
    requires whole { IsWhole socket.old }
    requires short { length topic.now < max_octets }
    ensures step { MatchChanged result
        (MakesSome P.known pipes.old socket.old pipes.new socket.new)
        (MakesSome P.known pipes.old socket.old pipes.new socket.new)
        (λ answer. (slot : ℕ) → ChangesSo P.known slot Subscribe topic.now answer
        pipes.old socket.old pipes.new socket.new) }
    ensures whole { IsWhole socket.new }
    ensures stands { Stands P.known pipes.new socket.new }
    ensures others { LeavesOthers P.known socket.old socket.new pipes.old pipes.new }
    ensures keeps { KeepsSocket socket.old socket.new }
{
    match socket {
        Some(core) => return subscribe_core(core, alloc, pipes, topic),
        None => unreachable!(),
    }
}

/// Cancels one subscription to the topic, and tells the peers (zmq_setsockopt(3),
/// "ZMQ_UNSUBSCRIBE"). A socket that processed its Stop is refused by its caller.
pub fn unsubscribe<P: HeldPipes>(
    alloc: Global,
    pipes: &mut P,
    socket: &mut OpenSocket<P>,
    topic: &[u8],
) -> Result<(), ChangeFault>
    requires stands { Stands P.known pipes.old socket.old }
    requires whole { IsWhole socket.old }
    requires short { length topic.now < max_octets }
    ensures step { MatchChanged result
        (MakesSome P.known pipes.old socket.old pipes.new socket.new)
        (MakesSome P.known pipes.old socket.old pipes.new socket.new)
        (λ answer. (slot : ℕ) → ChangesSo P.known slot Unsubscribe topic.now answer
        pipes.old socket.old pipes.new socket.new) }
    ensures whole { IsWhole socket.new }
    ensures stands { Stands P.known pipes.new socket.new }
    ensures others { LeavesOthers P.known socket.old socket.new pipes.old pipes.new }
    ensures keeps { KeepsSocket socket.old socket.new }
{
    match socket {
        Some(core) => return unsubscribe_core(core, alloc, pipes, topic),
        None => unreachable!(),
    }
}
