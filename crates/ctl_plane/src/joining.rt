ghost use Rattle.std.specs.Prelude.{◌≡◌, ◌≤◌, [], length, true, Some, None, IfOk, OnOk, OnErr};
ghost use Rattle.zq_base.specs.declared.endpoint.Endpoint.TheVariants.{Inproc};
ghost use Rattle.spec_control.specs.declared.book.Binding.{Binding};
ghost use Rattle.spec_control.specs.declared.request.Req.TheVariants.{Connect};
ghost use Rattle.spec_control.specs.Control.{end_of};
ghost use Rattle.spec_control.specs.Reply.{reply_of};
ghost use Rattle.desk.specs.Asking.{IsInproc};
ghost use Rattle.desk.specs.Holding.{HearsNone, KeepsTurns, Stays};
ghost use Rattle.desk.specs.Making.{MakesSo};
ghost use Rattle.desk.specs.Turns.{HasTurned};
ghost use Rattle.ctl_state.specs.Listed.{with_room};
ghost use Rattle.ctl_moves.specs.Connecting.{Connects, MayConnect};
ghost use Rattle.ctl_moves.specs.Papers.{MayMake};
ghost use Rattle.ctl_plane.specs.Coming.{ComesWith};
ghost use Rattle.ctl_plane.specs.Hearing.{HasWhat};
ghost use Rattle.ctl_plane.specs.Joining.{IsNoted, IsOfSame, Lends, NotesRequest};
ghost use Rattle.ctl_plane.specs.Past.{control_of};
ghost use Rattle.ctl_moves.specs.Refusals.{refusal_in};

use crate::history::History;
use ctl_moves::{Notes, Owners, connect_pair, silent};
use ctl_state::{RoomList, State};
use desk::{Holder, Load};
use msg_pipe::Pipes;
use spec_control::{Answered, Binding, Did, Reply, Req};
use std::alloc::{AllocError, Global};
use zq_base::{Endpoint, Log, ObjId, Octets, PairId, Seq};

/// What a holder answered for pairs that were made. It takes no memory.
pub(crate) fn with_notes<N: Drop, S>(notes: Notes<N>) -> Answered<N, S>
    ensures { IsNoted notes result }
{
    let Notes { joined, opened } = notes;
    Answered {
        joined: Seq::of_vec(joined),
        opened: Seq::of_vec(opened),
        settled: None,
        output_left: false,
        stories: Log::new(),
    }
}

/// The name that an endpoint is.
pub(crate) fn name_of(at: Endpoint) -> Octets
    requires name { IsInproc at }
    ensures { at ≡ Inproc result }
{
    match at {
        Endpoint::Inproc(name) => return name,
        Endpoint::Tcp(_) => unreachable!(),
    }
}

// Makes the pair of a connect to the holder of its name, with room for the events that it brings: its
// entry, and eight of what comes of the pair.
fn connect_with_room<P: Pipes, H: Holder<P>, D>(
    state: &mut State<Load<P::Name, P::Out, P::In>>,
    events: &mut RoomList<D>,
    alloc: Global,
    holder: &mut H,
    o: Owners,
    at: Endpoint,
    wakers: &[P::Waker],
) -> Result<(PairId, Notes<P::Name>), AllocError>
    requires may { MayConnect state.old (H.holding holder.old) o (length wakers.now) }
    requires calm { H.calm holder.old [] }
    requires makes { MayMake state.old o.first o.last (end_of (length state.old.pairs) true)
        H.may_make }
    ensures ok { IfOk result (λ r. (w : MayConnect state.old (H.holding holder.old) o
        (length wakers.now)) → Connects P.known.out_name P.known.in_name w.control o at r.0 r.1
        state.old state.new (H.holding holder.old) (H.holding holder.new)) }
    ensures room { OnOk result (events.new ≡ with_room 9 events.old) }
    ensures err { OnErr result (state.new ≡ state.old) }
    ensures kept { OnErr result (events.new ≡ events.old) }
    ensures stays { OnErr result
        (Stays o.first.0 (H.holding holder.old) (H.holding holder.new)) }
    ensures keeps { OnErr result (KeepsTurns (H.holding holder.old) (H.holding holder.new)) }
    ensures heard { OnErr result (HearsNone (H.holding holder.old) (H.holding holder.new)) }
{
    events.reserve(9)?;
    match connect_pair(state, alloc, holder, o, at, wakers) {
        Ok(made) => return Ok(made),
        Err(error) => {
            events.release(9);
            return Err(error);
        }
    }
}

impl<P: Pipes> History<P> {
    /// Connects a socket to a name, with the holder of its ends (zmq_connect(3), zmq_inproc(7)). It
    /// is refused once the root was asked, where the name is the socket's own or its holder's kind
    /// does not fit, and where too many pairs were made. A name that nobody holds is waited for. To
    /// the holder of a name a pair is made: the connecting socket has end a, which joins its holder
    /// at once, and the bind of the other end is on its way. Room for all that may come of the pair
    /// is kept, so that its ending takes no memory. The holder may make the end, with pipes that hold
    /// what the marks of the two sockets say. There is a waker for each mailbox, by its number. It
    /// costs a look-up, and copies of the name and of two identities.
    pub fn connect<H: Holder<P>>(
        &mut self,
        alloc: Global,
        socket: ObjId,
        name: Octets,
        holder: &mut H,
        wakers: &[P::Waker],
    ) -> Result<Reply, AllocError>
        requires lends { Lends (control_of self.old) socket.0 (H.holding holder.old) }
        requires wakers { (control_of self.old).slots ≤ length wakers.now }
        requires has { HasWhat self.old (H.holding holder.old) }
        requires calm { H.calm holder.old [] }
        requires makes { MakesSo (control_of self.old) (Connect socket (Inproc name)) H.may_make }
        ensures ok { IfOk result (λ reply. NotesRequest socket (Connect socket (Inproc name)) reply
            self.old self.new (H.holding holder.old) (H.holding holder.new)) }
        ensures reply { IfOk result (λ reply.
            reply ≡ reply_of (control_of self.old) (Connect socket (Inproc name))) }
        ensures err { OnErr result ((self.new ≡ self.old)
            × Stays socket.0 (H.holding holder.old) (H.holding holder.new)) }
        ensures same { IsOfSame (H.holding holder.old) (H.holding holder.new) }
        ensures keeps { HasWhat self.new (H.holding holder.new) }
        ensures turned { HasTurned (control_of self.old) (control_of self.new)
            (H.holding holder.old) (H.holding holder.new) }
        ensures joins { ComesWith self.old self.new (H.holding holder.old) (H.holding holder.new) }
    {
        let at = Endpoint::Inproc(name);
        if let Some(refusal) = self.connect_refusal(socket, &at) {
            self.refuse(Req::Connect(socket, at), refusal, silent(alloc))?;
            return Ok(Reply::Refused(refusal));
        }
        let found = self.state.find(&at);
        let name = name_of(at);
        match found {
            Some(binding) => {
                return self.connect_held(alloc, socket, name, binding, holder, wakers);
            }
            None => {
                let reply = self.connect_waits(alloc, socket, name, silent(alloc))?;
                return Ok(reply);
            }
        }
    }

    // Connects a socket to the holder of a name, where that is not refused.
    fn connect_held<H: Holder<P>>(
        &mut self,
        alloc: Global,
        socket: ObjId,
        name: Octets,
        binding: Binding,
        holder: &mut H,
        wakers: &[P::Waker],
    ) -> Result<Reply, AllocError>
        requires held { (control_of self.old).names.held (Inproc name) ≡ Some binding }
        requires free { refusal_in (reply_of (control_of self.old)
            (Connect socket (Inproc name))) ≡ None }
        requires lends { Lends (control_of self.old) socket.0 (H.holding holder.old) }
        requires wakers { (control_of self.old).slots ≤ length wakers.now }
        requires has { HasWhat self.old (H.holding holder.old) }
        requires calm { H.calm holder.old [] }
        requires makes { MakesSo (control_of self.old) (Connect socket (Inproc name)) H.may_make }
        ensures ok { IfOk result (λ reply. NotesRequest socket (Connect socket (Inproc name)) reply
            self.old self.new (H.holding holder.old) (H.holding holder.new)) }
        ensures reply { IfOk result (λ reply.
            reply ≡ reply_of (control_of self.old) (Connect socket (Inproc name))) }
        ensures err { OnErr result ((self.new ≡ self.old)
            × Stays socket.0 (H.holding holder.old) (H.holding holder.new)) }
        ensures same { IsOfSame (H.holding holder.old) (H.holding holder.new) }
        ensures keeps { HasWhat self.new (H.holding holder.new) }
        ensures turned { HasTurned (control_of self.old) (control_of self.new)
            (H.holding holder.old) (H.holding holder.new) }
        ensures joins { ComesWith self.old self.new (H.holding holder.old) (H.holding holder.new) }
    {
        let copy = Endpoint::Inproc(name.copy(alloc)?);
        let at = Endpoint::Inproc(name);
        self.state.needs();
        let owners = Owners::of(&self.state, socket, binding.holder);
        let state = &mut self.state;
        let events = &mut self.events;
        let made = connect_with_room(state, events, alloc, holder, owners, copy, wakers)?;
        let (pair, notes) = made;
        let reply = Reply::Pair(pair);
        self.events.push(Did::Asked(Req::Connect(socket, at), reply, with_notes(notes)));
        Ok(reply)
    }
}
