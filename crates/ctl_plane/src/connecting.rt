ghost use Rattle.std.specs.Prelude.{◌≡◌, ◌<◌, length, None, IfOk, OnOk, OnErr};
ghost use Rattle.zq_base.specs.declared.endpoint.Endpoint.TheVariants.{Inproc};
ghost use Rattle.spec_control.specs.declared.request.Req.TheVariants.{Connect};
ghost use Rattle.spec_control.specs.declared.entry.Did.TheVariants.{Asked};
ghost use Rattle.spec_control.specs.Reply.{reply_of};
ghost use Rattle.spec_control.specs.After.{Answers, connects_to};
ghost use Rattle.ctl_state.specs.Listed.{with_room};
ghost use Rattle.ctl_state.specs.Stands.{Updates};
ghost use Rattle.ctl_moves.specs.Naming.{SameEndLists};
ghost use Rattle.ctl_plane.specs.Connecting.{MayWait};
ghost use Rattle.ctl_plane.specs.Past.{control_of, with_event};
ghost use Rattle.ctl_moves.specs.Processing.{IsSilent};

use crate::history::History;
use ctl_moves::wait;
use ctl_state::{RoomList, State};
use msg_pipe::Pipes;
use spec_control::{Answered, Did, Reply, Req};
use std::alloc::{AllocError, Global};
use zq_base::{Endpoint, ObjId, Octets};

// A connect waits for its name, of which this is a copy, with room for its entry.
fn wait_with_room<L: Drop, D>(
    state: &mut State<L>,
    events: &mut RoomList<D>,
    alloc: Global,
    socket: ObjId,
    to: &Endpoint,
    copy: Endpoint,
) -> Result<(), AllocError>
    requires there { socket.0 < length state.old.objects.lists }
    requires copy { copy ≡ to.now }
    ensures ok { OnOk result ((h : Answers) →
        Updates (connects_to socket.0 to.now None h) state.old state.new) }
    ensures boxes { state.new.boxes ≡ state.old.boxes }
    ensures ends { OnOk result (SameEndLists state.old.objects.lists state.new.objects.lists) }
    ensures room { OnOk result (events.new ≡ with_room 1 events.old) }
    ensures err { OnErr result (state.new ≡ state.old) }
    ensures kept { OnErr result (events.new ≡ events.old) }
{
    events.reserve(1)?;
    match wait(state, alloc, socket, to, copy) {
        Ok(()) => return Ok(()),
        Err(error) => {
            events.release(1);
            return Err(error);
        }
    }
}

impl<P: Pipes> History<P> {
    /// Connects a socket to a name that nobody holds: the connect waits for it (zmq_connect(3),
    /// zmq_inproc(7)). It costs copies of the name.
    pub fn connect_waits(
        &mut self,
        alloc: Global,
        socket: ObjId,
        name: Octets,
        h: Answered<P::Name, P::Story>,
    ) -> Result<Reply, AllocError>
        requires may { MayWait (control_of self.old) socket.0 name }
        requires silent { IsSilent h }
        ensures ok { IfOk result (λ reply. self.new
            ≡ with_event (Asked (Connect socket (Inproc name)) reply h) self.old) }
        ensures reply { IfOk result (λ reply.
            reply ≡ reply_of (control_of self.old) (Connect socket (Inproc name))) }
        ensures err { OnErr result (self.new ≡ self.old) }
    {
        let copy = match name.copy(alloc) {
            Ok(copy) => Endpoint::Inproc(copy),
            Err(error) => {
                drop(name);
                drop(h);
                return Err(error);
            }
        };
        let at = Endpoint::Inproc(name);
        self.state.needs();
        match wait_with_room(&mut self.state, &mut self.events, alloc, socket, &at, copy) {
            Ok(()) => {
                self.events
                    .push(Did::Asked(Req::Connect(socket, at), Reply::Wait, h));
                return Ok(Reply::Wait);
            }
            Err(error) => {
                drop(at);
                drop(h);
                return Err(error);
            }
        }
    }
}
