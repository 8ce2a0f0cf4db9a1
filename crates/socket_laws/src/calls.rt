ghost use Rattle.std.specs.Prelude.{Bool};
ghost use Rattle.zq_base.specs.declared.kind.Kind.{Kind};
ghost use Rattle.spec_control.specs.declared.request.Req.{Req};
ghost use Rattle.spec_control.specs.Control.{Control};
ghost use Rattle.socket_laws.specs.CallLaws.{ClosesStand, MessageCallsStand, SocketCallsStand, StillCallsStand, made_as};

use msg_pipe::Pipes;

/// A call on the control plane of a socket that it leaves open stands over the acts of its item.
pub fn socket_calls_stand<P: Pipes, C, W, T>(_pipes: &P)
    ensures { (kind : C → Kind) (made : Bool) (c : Control) (req : Req) →
        SocketCallsStand C W P.known kind T made (made_as c req) }
{}

/// And over none, where it added no item.
pub fn still_calls_stand<P: Pipes, C, W, T>(_pipes: &P)
    ensures { (kind : C → Kind) (made : Bool) (c : Control) (req : Req) →
        StillCallsStand C W P.known kind T made (made_as c req) }
{}

/// A close, which does no more to pipes than to make some, stands over the acts of its item.
pub fn closes_stand<P: Pipes, C, W, T>(_pipes: &P)
    ensures { (kind : C → Kind) (made : Bool) (c : Control) (req : Req) →
        ClosesStand C W P.known kind T made (made_as c req) }
{}

/// Calls on messages stand over their steps.
pub fn message_calls_stand<P: Pipes, C, W, T>(_pipes: &P)
    ensures { (kind : C → Kind) → MessageCallsStand C W P.known kind T }
{}
