ghost use Rattle.std.specs.Prelude.{◌≡◌, [], None, length, IfOk, OnOk, OnErr};
ghost use Rattle.zq_base.specs.declared.endpoint.Endpoint.TheVariants.{Tcp};
ghost use Rattle.spec_control.specs.declared.request.Req.TheVariants.{Connect};
ghost use Rattle.spec_control.specs.Control.{next_pair};
ghost use Rattle.spec_control.specs.Reply.{reply_of};
ghost use Rattle.desk.specs.Making.{MakesSo};
ghost use Rattle.desk.specs.Turns.{HasTurned};
ghost use Rattle.ctl_state.specs.Listed.{with_room};
ghost use Rattle.ctl_moves.specs.Dialing.{Dials, MayDial, MayMakeOut};
ghost use Rattle.ctl_moves.specs.Drawing.{IsBack};
ghost use Rattle.ctl_moves.specs.Refusals.{refusal_in};
ghost use Rattle.ctl_moves.specs.Serving.{HasWorkers};
ghost use Rattle.ctl_plane.specs.Coming.{ComesWith};
ghost use Rattle.ctl_plane.specs.Hearing.{HasWhat};
ghost use Rattle.ctl_plane.specs.Joining.{IsOfSame, Lends, NotesRequest};
ghost use Rattle.ctl_plane.specs.Past.{control_of};

use crate::history::History;
use crate::joining::with_notes;
use ctl_moves::{Notes, Owners, dial, served_by, silent};
use ctl_state::{RoomList, State};
use desk::{Load, Undoes};
use msg_pipe::Pipes;
use spec_control::{Did, Reply, Req};
use std::alloc::{AllocError, Global};
use zq_base::{Address, Endpoint, ObjId, PairId};

// A socket gets a session and their pair, with room for the events that they bring: the entry, and
// eight of what comes of each of the two.
fn dial_with_room<P: Pipes, H: Undoes<P>, D>(
    state: &mut State<Load<P::Name, P::Out, P::In>>,
    events: &mut RoomList<D>,
    alloc: Global,
    holder: &mut H,
    o: Owners,
    at: Address,
    mine: &P::Waker,
    theirs: &P::Waker,
) -> Result<(ObjId, PairId, Notes<P::Name>), AllocError>
    requires may { MayDial state.old (H.holding holder.old) o }
    requires calm { H.calm holder.old [] }
    requires makes { MayMakeOut state.old o H.may_make }
    ensures ok { IfOk result (λ r. (w : MayDial state.old (H.holding holder.old) o) →
        Dials P.known.out_name P.known.in_name w.control o at r.0 r.1 r.2
        state.old state.new (H.holding holder.old) (H.holding holder.new)) }
    ensures room { OnOk result (events.new ≡ with_room 17 events.old) }
    ensures err { OnErr result (state.new ≡ state.old) }
    ensures kept { OnErr result (events.new ≡ events.old) }
    ensures back { OnErr result (IsBack (length state.old.pairs) o.first.0
        (H.holding holder.old) (H.holding holder.new)) }
{
    events.reserve(17)?;
    match dial(state, alloc, holder, o, at, mine, theirs) {
        Ok(made) => return Ok(made),
        Err(error) => {
            events.release(17);
            return Err(error);
        }
    }
}

impl<P: Pipes> History<P> {
    /// Connects a socket over tcp, with the holder of its ends (zmq_connect(3), zmq_tcp(7)). It is
    /// refused once the root was asked, and where too many objects or pairs were made. The socket holds
    /// the address with a session of its own and their pair, which are the answer. It has end a, which
    /// joins its holder at once, and the holder may make it, with pipes that hold what the socket's marks
    /// say; the session's Own is on its way to the socket, and its Plug with end b to the I/O worker whose
    /// number is the session's modulo the workers, of which there is one. The wakers are those of the
    /// socket's mailbox and of the worker's. Room for all that may come of the two is kept, so that their
    /// ending takes no memory. Where memory wants, the end that joined has left again. It costs a copy of
    /// the socket's options.
    pub fn connect_tcp<H: Undoes<P>>(
        &mut self,
        alloc: Global,
        socket: ObjId,
        at: Address,
        holder: &mut H,
        mine: &P::Waker,
        theirs: &P::Waker,
    ) -> Result<Reply, AllocError>
        requires lends { Lends (control_of self.old) socket.0 (H.holding holder.old) }
        requires workers { HasWorkers (control_of self.old) }
        requires has { HasWhat self.old (H.holding holder.old) }
        requires calm { H.calm holder.old [] }
        requires makes { MakesSo (control_of self.old) (Connect socket (Tcp at)) H.may_make }
        ensures ok { IfOk result (λ reply. NotesRequest socket (Connect socket (Tcp at)) reply
            self.old self.new (H.holding holder.old) (H.holding holder.new)) }
        ensures reply { IfOk result (λ reply.
            reply ≡ reply_of (control_of self.old) (Connect socket (Tcp at))) }
        ensures err { OnErr result ((self.new ≡ self.old)
            × IsBack (next_pair (control_of self.old)) socket.0
            (H.holding holder.old) (H.holding holder.new)) }
        ensures same { IsOfSame (H.holding holder.old) (H.holding holder.new) }
        ensures keeps { HasWhat self.new (H.holding holder.new) }
        ensures turned { HasTurned (control_of self.old) (control_of self.new)
            (H.holding holder.old) (H.holding holder.new) }
        ensures joins { ComesWith self.old self.new (H.holding holder.old) (H.holding holder.new) }
    {
        let to = Endpoint::Tcp(at);
        match self.connect_refusal(socket, &to) {
            Some(refusal) => {
                self.refuse(Req::Connect(socket, to), refusal, silent(alloc))?;
                return Ok(Reply::Refused(refusal));
            }
            None => return self.connect_address(alloc, socket, at, holder, mine, theirs),
        }
    }

    // Connects a socket to an address, where that is not refused.
    fn connect_address<H: Undoes<P>>(
        &mut self,
        alloc: Global,
        socket: ObjId,
        at: Address,
        holder: &mut H,
        mine: &P::Waker,
        theirs: &P::Waker,
    ) -> Result<Reply, AllocError>
        requires free { refusal_in (reply_of (control_of self.old) (Connect socket (Tcp at)))
            ≡ None }
        requires lends { Lends (control_of self.old) socket.0 (H.holding holder.old) }
        requires workers { HasWorkers (control_of self.old) }
        requires has { HasWhat self.old (H.holding holder.old) }
        requires calm { H.calm holder.old [] }
        requires makes { MakesSo (control_of self.old) (Connect socket (Tcp at)) H.may_make }
        ensures ok { IfOk result (λ reply. NotesRequest socket (Connect socket (Tcp at)) reply
            self.old self.new (H.holding holder.old) (H.holding holder.new)) }
        ensures reply { IfOk result (λ reply.
            reply ≡ reply_of (control_of self.old) (Connect socket (Tcp at))) }
        ensures err { OnErr result ((self.new ≡ self.old)
            × IsBack (next_pair (control_of self.old)) socket.0
            (H.holding holder.old) (H.holding holder.new)) }
        ensures same { IsOfSame (H.holding holder.old) (H.holding holder.new) }
        ensures keeps { HasWhat self.new (H.holding holder.new) }
        ensures turned { HasTurned (control_of self.old) (control_of self.new)
            (H.holding holder.old) (H.holding holder.new) }
        ensures joins { ComesWith self.old self.new (H.holding holder.old) (H.holding holder.new) }
    {
        self.state.needs();
        let o = served_by(&self.state, socket);
        let state = &mut self.state;
        let events = &mut self.events;
        let made = dial_with_room(state, events, alloc, holder, o, at, mine, theirs)?;
        let (session, pair, notes) = made;
        let request = Req::Connect(socket, Endpoint::Tcp(at));
        let reply = Reply::Both(session, pair);
        self.events
            .push(Did::Asked(request, reply, with_notes(notes)));
        Ok(reply)
    }
}
