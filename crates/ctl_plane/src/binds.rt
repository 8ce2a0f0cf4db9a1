ghost use Rattle.std.specs.Prelude.{◌≡◌, ◌≤◌, ◌+◌, ◌*◌, [], length, true, None, IfOk, OnOk, OnErr};
ghost use Rattle.zq_base.specs.declared.endpoint.Endpoint.TheVariants.{Inproc};
ghost use Rattle.spec_control.specs.declared.request.Req.TheVariants.{Bind};
ghost use Rattle.spec_control.specs.Control.{next_pair};
ghost use Rattle.spec_control.specs.Reply.{reply_of};
ghost use Rattle.desk.specs.Making.{MakesSo};
ghost use Rattle.desk.specs.Turns.{HasTurned};
ghost use Rattle.ctl_state.specs.Listed.{with_room};
ghost use Rattle.ctl_moves.specs.Drawing.{IsBack};
ghost use Rattle.ctl_plane.specs.Coming.{ComesWith};
ghost use Rattle.ctl_plane.specs.Fulfilling.{Fulfils, MayFulfilAll, MayMakeFor};
ghost use Rattle.ctl_plane.specs.Hearing.{HasWhat};
ghost use Rattle.ctl_plane.specs.Joining.{IsOfSame, Lends, NotesRequest};
ghost use Rattle.ctl_plane.specs.Past.{control_of};
ghost use Rattle.ctl_moves.specs.Refusals.{refusal_in};

use crate::fulfilling::fulfil_all;
use crate::history::History;
use crate::joining::{name_of, with_notes};
use ctl_moves::{Notes, binding_by, silent};
use ctl_state::{RoomList, State};
use desk::{Load, Undoes};
use msg_pipe::Pipes;
use spec_control::{Did, Reply, Req};
use std::alloc::{AllocError, Global};
use zq_base::{Endpoint, ObjId, Octets};

// A socket gets a name that nobody holds, and all connects that wait for it are fulfilled, with room
// for the events that it brings: its entry, and eight of what comes of each pair.
fn bind_with_room<P: Pipes, H: Undoes<P>, D>(
    state: &mut State<Load<P::Name, P::Out, P::In>>,
    events: &mut RoomList<D>,
    alloc: Global,
    holder: &mut H,
    socket: ObjId,
    at: &Endpoint,
    copy: Endpoint,
    wakers: &[P::Waker],
) -> Result<Notes<P::Name>, AllocError>
    requires copy { copy ≡ at.now }
    requires may { MayFulfilAll state.old (H.holding holder.old) socket at.now
        (length wakers.now) }
    requires calm { H.calm holder.old [] }
    requires makes { MayMakeFor state.old (H.holding holder.old) socket at.now
        (length wakers.now) H.may_make }
    ensures ok { IfOk result (λ notes. (w : MayFulfilAll state.old (H.holding holder.old) socket
        at.now (length wakers.now)) → Fulfils P.known.out_name P.known.in_name
        w.may.draw.control socket at.now w.waiters notes
        state.old state.new (H.holding holder.old) (H.holding holder.new)) }
    ensures room { OnOk result ((w : MayFulfilAll state.old (H.holding holder.old) socket
        at.now (length wakers.now)) →
        events.new ≡ with_room (8 * length w.waiters + 1) events.old) }
    ensures err { OnErr result (state.new ≡ state.old) }
    ensures kept { OnErr result (events.new ≡ events.old) }
    ensures back { OnErr result (IsBack (length state.old.pairs) socket.0
        (H.holding holder.old) (H.holding holder.new)) }
{
    let waiters = match state.waiting(alloc, at, binding_by(state, socket)) {
        Ok(waiters) => waiters,
        Err(error) => {
            drop(copy);
            return Err(error);
        }
    };
    let room = 8 * waiters.len() + 1;
    match events.reserve(room) {
        Ok(()) => {}
        Err(error) => {
            drop(copy);
            return Err(error);
        }
    }
    match fulfil_all(state, alloc, holder, socket, at, copy, &waiters, wakers) {
        Ok(notes) => return Ok(notes),
        Err(error) => {
            events.release(room);
            return Err(error);
        }
    }
}

impl<P: Pipes> History<P> {
    /// Binds a socket to a name, with the holder of its ends (zmq_bind(3), zmq_inproc(7)). It is
    /// refused once the root was asked, where somebody holds the name, and where more connects wait
    /// that it would fulfil than pairs may still be made. All connects of other sockets of fitting
    /// kinds that wait for the name are fulfilled, the longest waiting first: with each a pair is
    /// made, of which the binding socket has end b, which joins its holder at once, and the bind of
    /// the other end is on its way. Room for all that may come of the pairs is kept, so that their
    /// ending takes no memory. Where memory wants, the ends that joined have left again, last first.
    /// The holder may make each of the pairs' ends, with pipes that hold what the marks of the two
    /// sockets say. There is a waker for each mailbox, by its number. It costs two look-ups, a walk over the
    /// connects that wait for this name, and copies of the name and of two identities for each pair.
    pub fn bind<H: Undoes<P>>(
        &mut self,
        alloc: Global,
        socket: ObjId,
        name: Octets,
        holder: &mut H,
        wakers: &[P::Waker],
    ) -> Result<Reply, AllocError>
        requires lends { Lends (control_of self.old) socket.0 (H.holding holder.old) }
        requires wakers { (control_of self.old).slots ≤ length wakers.now }
        requires has { HasWhat self.old (H.holding holder.old) }
        requires calm { H.calm holder.old [] }
        requires makes { MakesSo (control_of self.old) (Bind socket (Inproc name)) H.may_make }
        ensures ok { IfOk result (λ reply. NotesRequest socket (Bind socket (Inproc name)) reply
            self.old self.new (H.holding holder.old) (H.holding holder.new)) }
        ensures reply { IfOk result (λ reply.
            reply ≡ reply_of (control_of self.old) (Bind socket (Inproc name))) }
        ensures err { OnErr result ((self.new ≡ self.old)
            × IsBack (next_pair (control_of self.old)) socket.0
            (H.holding holder.old) (H.holding holder.new)) }
        ensures same { IsOfSame (H.holding holder.old) (H.holding holder.new) }
        ensures keeps { HasWhat self.new (H.holding holder.new) }
        ensures turned { HasTurned (control_of self.old) (control_of self.new)
            (H.holding holder.old) (H.holding holder.new) }
        ensures joins { ComesWith self.old self.new (H.holding holder.old) (H.holding holder.new) }
    {
        let at = Endpoint::Inproc(name);
        match self.bind_refusal(socket, &at) {
            Some(refusal) => {
                self.refuse(Req::Bind(socket, at), refusal, silent(alloc))?;
                return Ok(Reply::Refused(refusal));
            }
            None => return self.bind_now(alloc, socket, name_of(at), holder, wakers),
        }
    }

    // Binds a socket to a name, where that is not refused.
    fn bind_now<H: Undoes<P>>(
        &mut self,
        alloc: Global,
        socket: ObjId,
        name: Octets,
        holder: &mut H,
        wakers: &[P::Waker],
    ) -> Result<Reply, AllocError>
        requires free { refusal_in (reply_of (control_of self.old) (Bind socket (Inproc name)))
            ≡ None }
        requires lends { Lends (control_of self.old) socket.0 (H.holding holder.old) }
        requires wakers { (control_of self.old).slots ≤ length wakers.now }
        requires has { HasWhat self.old (H.holding holder.old) }
        requires calm { H.calm holder.old [] }
        requires makes { MakesSo (control_of self.old) (Bind socket (Inproc name)) H.may_make }
        ensures ok { IfOk result (λ reply. NotesRequest socket (Bind socket (Inproc name)) reply
            self.old self.new (H.holding holder.old) (H.holding holder.new)) }
        ensures reply { IfOk result (λ reply.
            reply ≡ reply_of (control_of self.old) (Bind socket (Inproc name))) }
        ensures err { OnErr result ((self.new ≡ self.old)
            × IsBack (next_pair (control_of self.old)) socket.0
            (H.holding holder.old) (H.holding holder.new)) }
        ensures same { IsOfSame (H.holding holder.old) (H.holding holder.new) }
        ensures keeps { HasWhat self.new (H.holding holder.new) }
        ensures turned { HasTurned (control_of self.old) (control_of self.new)
            (H.holding holder.old) (H.holding holder.new) }
        ensures joins { ComesWith self.old self.new (H.holding holder.old) (H.holding holder.new) }
    {
        let copy = Endpoint::Inproc(name.copy(alloc)?);
        let at = Endpoint::Inproc(name);
        self.state.needs();
        let state = &mut self.state;
        let events = &mut self.events;
        let notes = bind_with_room(state, events, alloc, holder, socket, &at, copy, wakers)?;
        self.events.push(Did::Asked(Req::Bind(socket, at), Reply::Done, with_notes(notes)));
        Ok(Reply::Done)
    }
}
