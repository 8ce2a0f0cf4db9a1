ghost use Rattle.std.specs.Prelude.{◌≡◌, length};
ghost use Rattle.spec_control.specs.declared.request.Req.TheVariants.{Bind, Connect, Unbind, Disconnect};
ghost use Rattle.spec_control.specs.Register.{fulfilled_by};
ghost use Rattle.spec_control.specs.After.{binding_by};
ghost use Rattle.spec_control.specs.Reply.{reply_of};
ghost use Rattle.ctl_plane.specs.Past.{control_of};
ghost use Rattle.ctl_moves.specs.Refusals.{refusal_in};

use crate::history::History;
use ctl_moves::{bind_refusal, binding_by, connect_refusal, disconnect_refusal, unbind_refusal};
use msg_pipe::Pipes;
use spec_control::Refusal;
use zq_base::{Endpoint, ObjId};

impl<P: Pipes> History<P> {
    /// Why a bind would be refused, if it would be (zmq_bind(3)). It costs a look-up of the
    /// endpoint, and over inproc a walk over the connects that wait.
    pub fn bind_refusal(&self, socket: ObjId, at: &Endpoint) -> Option<Refusal>
        ensures { result ≡ refusal_in (reply_of (control_of self.now) (Bind socket at.now)) }
    {
        bind_refusal(&self.state, socket, at)
    }

    /// Why a connect would be refused, if it would be (zmq_connect(3)). It costs a look-up of the
    /// endpoint.
    pub fn connect_refusal(&self, socket: ObjId, at: &Endpoint) -> Option<Refusal>
        ensures { result ≡ refusal_in (reply_of (control_of self.now) (Connect socket at.now)) }
    {
        connect_refusal(&self.state, socket, at)
    }

    /// Why an unbind would be refused, if it would be (zmq_unbind(3)). It costs a walk over what
    /// the socket has bound and connected.
    pub fn unbind_refusal(&self, socket: ObjId, at: &Endpoint) -> Option<Refusal>
        ensures { result ≡ refusal_in (reply_of (control_of self.now) (Unbind socket at.now)) }
    {
        unbind_refusal(&self.state, socket, at)
    }

    /// Why a disconnect would be refused, if it would be (zmq_disconnect(3)). It costs a walk over
    /// what the socket has bound and connected.
    pub fn disconnect_refusal(&self, socket: ObjId, at: &Endpoint) -> Option<Refusal>
        ensures { result ≡ refusal_in (reply_of (control_of self.now) (Disconnect socket at.now)) }
    {
        disconnect_refusal(&self.state, socket, at)
    }

    /// How many connects that wait a bind of the endpoint would fulfil, by a walk over those that
    /// wait.
    pub fn waiting(&self, socket: ObjId, at: &Endpoint) -> usize
        ensures { result ≡ length (fulfilled_by at.now
            (binding_by socket.0 (control_of self.now)) (control_of self.now).names) }
    {
        self.state
            .count_waiting(at, binding_by(&self.state, socket))
    }
}
