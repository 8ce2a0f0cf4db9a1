ghost use Rattle.std.specs.Prelude.{◌≡◌, None, IfOk, OnOk, OnErr};
ghost use Rattle.zq_base.specs.declared.endpoint.Endpoint.TheVariants.{Tcp};
ghost use Rattle.spec_control.specs.declared.request.Req.TheVariants.{Bind};
ghost use Rattle.spec_control.specs.declared.entry.Did.TheVariants.{Asked};
ghost use Rattle.spec_control.specs.Rows.{obj};
ghost use Rattle.spec_control.specs.ControlRun.{IsOpenSocket};
ghost use Rattle.spec_control.specs.Reply.{reply_of};
ghost use Rattle.ctl_state.specs.Listed.{with_room};
ghost use Rattle.ctl_moves.specs.Listening.{Listens, MayListen};
ghost use Rattle.ctl_moves.specs.Processing.{IsSilent};
ghost use Rattle.ctl_moves.specs.Refusals.{refusal_in};
ghost use Rattle.ctl_moves.specs.Serving.{HasWorkers};
ghost use Rattle.ctl_plane.specs.Past.{control_of, with_event};

use crate::history::History;
use ctl_moves::{Owners, bind_refusal, listen, served_by};
use ctl_state::{RoomList, State};
use desk::Load;
use msg_pipe::Pipes;
use spec_control::{Answered, Did, Reply, Req};
use std::alloc::{AllocError, Global};
use zq_base::{Address, Endpoint, ObjId};

// A socket gets a listener, with room for the events that it brings: its entry, and six of what comes of
// the listener.
fn listen_with_room<N: Drop, O: Drop, I: Drop, D>(
    state: &mut State<Load<N, O, I>>,
    events: &mut RoomList<D>,
    alloc: Global,
    o: Owners,
    at: Address,
) -> Result<ObjId, AllocError>
    requires may { MayListen state.old o at }
    ensures ok { IfOk result (λ listener. (w : MayListen state.old o at) →
        Listens w.control o at listener state.old state.new) }
    ensures room { OnOk result (events.new ≡ with_room 7 events.old) }
    ensures err { OnErr result (state.new ≡ state.old) }
    ensures kept { OnErr result (events.new ≡ events.old) }
{
    events.reserve(7)?;
    match listen(state, alloc, o, at) {
        Ok(listener) => return Ok(listener),
        Err(error) => {
            events.release(7);
            return Err(error);
        }
    }
}

impl<P: Pipes> History<P> {
    /// Binds a socket over tcp (zmq_bind(3), zmq_tcp(7)). It is refused once the root was asked, where
    /// somebody holds the address, and where too many objects were made. The socket holds the address
    /// with a listener of its own, which is the answer; its Own is on its way to the socket, and its Plug
    /// to the I/O worker whose number is the listener's modulo the workers, of which there is one. Room
    /// for all that may come of the listener is kept, so that its ending takes no memory. It costs a
    /// look-up, and a copy of the socket's options.
    pub fn bind_tcp(
        &mut self,
        alloc: Global,
        socket: ObjId,
        at: Address,
        h: Answered<P::Name, P::Story>,
    ) -> Result<Reply, AllocError>
        requires open { IsOpenSocket (obj (control_of self.old).rows socket.0) }
        requires workers { HasWorkers (control_of self.old) }
        requires silent { IsSilent h }
        ensures ok { IfOk result (λ reply. self.new
            ≡ with_event (Asked (Bind socket (Tcp at)) reply h) self.old) }
        ensures reply { IfOk result (λ reply.
            reply ≡ reply_of (control_of self.old) (Bind socket (Tcp at))) }
        ensures err { OnErr result (self.new ≡ self.old) }
    {
        let to = Endpoint::Tcp(at);
        match bind_refusal(&self.state, socket, &to) {
            Some(refusal) => {
                self.refuse(Req::Bind(socket, to), refusal, h)?;
                return Ok(Reply::Refused(refusal));
            }
            None => return self.bind_address(alloc, socket, at, h),
        }
    }

    // Binds a socket to an address, where that is not refused.
    fn bind_address(
        &mut self,
        alloc: Global,
        socket: ObjId,
        at: Address,
        h: Answered<P::Name, P::Story>,
    ) -> Result<Reply, AllocError>
        requires free { refusal_in (reply_of (control_of self.old) (Bind socket (Tcp at))) ≡ None }
        requires open { IsOpenSocket (obj (control_of self.old).rows socket.0) }
        requires workers { HasWorkers (control_of self.old) }
        requires silent { IsSilent h }
        ensures ok { IfOk result (λ reply. self.new
            ≡ with_event (Asked (Bind socket (Tcp at)) reply h) self.old) }
        ensures reply { IfOk result (λ reply.
            reply ≡ reply_of (control_of self.old) (Bind socket (Tcp at))) }
        ensures err { OnErr result (self.new ≡ self.old) }
    {
        self.state.needs();
        let owners = served_by(&self.state, socket);
        match listen_with_room(&mut self.state, &mut self.events, alloc, owners, at) {
            Ok(listener) => {
                let request = Req::Bind(socket, Endpoint::Tcp(at));
                let reply = Reply::Object(listener);
                self.events.push(Did::Asked(request, reply, h));
                return Ok(reply);
            }
            Err(error) => {
                drop(h);
                return Err(error);
            }
        }
    }
}
