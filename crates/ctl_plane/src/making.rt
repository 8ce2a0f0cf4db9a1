ghost use Rattle.std.specs.Prelude.{◌≡◌, length, None, IfOk, OnOk, OnErr};
ghost use Rattle.spec_control.specs.declared.request.Req.TheVariants.{Socket as MakeSocket};
ghost use Rattle.spec_control.specs.declared.entry.Did.TheVariants.{Asked};
ghost use Rattle.spec_control.specs.Reply.{reply_of};
ghost use Rattle.ctl_state.specs.Listed.{with_room};
ghost use Rattle.ctl_moves.specs.Making.{MakesSocket, TakesSocket};
ghost use Rattle.ctl_plane.specs.Past.{control_of, with_event};
ghost use Rattle.ctl_moves.specs.Processing.{IsSilent};
ghost use Rattle.ctl_moves.specs.Refusals.{refusal_in};

use crate::history::History;
use ctl_moves::{make, socket_made, socket_refusal};
use ctl_state::{Made, RoomList, State};
use msg_pipe::Pipes;
use spec_control::{Answered, Did, Reply, Req};
use std::alloc::{AllocError, Global};
use zq_base::{Kind, ObjId, Options};

// Makes a socket, with room for the events that it brings: its entry, and those of its closing, of
// its Reap, Stop, Term and TermAck.
fn make_with_room<L: Drop, D>(
    state: &mut State<L>,
    alloc: Global,
    made: Made,
    events: &mut RoomList<D>,
) -> Result<ObjId, AllocError>
    requires takes { TakesSocket state.old }
    ensures number { IfOk result (λ id. id.0 ≡ length state.old.objects.tree) }
    ensures ok { OnOk result (MakesSocket made state.old state.new) }
    ensures room { OnOk result (events.new ≡ with_room 6 events.old) }
    ensures err { OnErr result (state.new ≡ state.old) }
    ensures back { OnErr result (events.new ≡ events.old) }
{
    events.reserve(6)?;
    match make(state, alloc, made) {
        Ok(id) => return Ok(id),
        Err(error) => {
            events.release(6);
            return Err(error);
        }
    }
}

impl<P: Pipes> History<P> {
    /// Makes a socket, with a mailbox of its own (zmq_socket(3)). It is refused once the root was
    /// asked, and where too many sockets live or too many objects were made. Room for all that may
    /// come of it is kept, so that its ending takes no memory. It costs the same however many
    /// objects there are.
    pub fn make_socket(
        &mut self,
        alloc: Global,
        kind: Kind,
        options: Options,
        h: Answered<P::Name, P::Story>,
    ) -> Result<Reply, AllocError>
        requires silent { IsSilent h }
        ensures ok { IfOk result (λ reply. self.new
            ≡ with_event (Asked (MakeSocket kind options) reply h) self.old) }
        ensures reply { IfOk result (λ reply.
            reply ≡ reply_of (control_of self.old) (MakeSocket kind options)) }
        ensures err { OnErr result (self.new ≡ self.old) }
    {
        self.state.needs();
        match socket_refusal(&self.state) {
            Some(refusal) => {
                self.refuse(Req::Socket(kind, options), refusal, h)?;
                return Ok(Reply::Refused(refusal));
            }
            None => return self.make_it(alloc, kind, options, h),
        }
    }

    // Makes a socket that is not refused.
    fn make_it(
        &mut self,
        alloc: Global,
        kind: Kind,
        options: Options,
        h: Answered<P::Name, P::Story>,
    ) -> Result<Reply, AllocError>
        requires may { refusal_in (reply_of (control_of self.old) (MakeSocket kind options)) ≡ None }
        requires silent { IsSilent h }
        ensures ok { IfOk result (λ reply. self.new
            ≡ with_event (Asked (MakeSocket kind options) reply h) self.old) }
        ensures reply { IfOk result (λ reply.
            reply ≡ reply_of (control_of self.old) (MakeSocket kind options)) }
        ensures err { OnErr result (self.new ≡ self.old) }
    {
        let copy = match options.copy(alloc) {
            Ok(copy) => copy,
            Err(error) => {
                drop(options);
                drop(h);
                return Err(error);
            }
        };
        let made = socket_made(&self.state, kind, copy);
        self.state.needs();
        match make_with_room(&mut self.state, alloc, made, &mut self.events) {
            Ok(socket) => {
                let reply = Reply::Object(socket);
                self.events
                    .push(Did::Asked(Req::Socket(kind, options), reply, h));
                return Ok(reply);
            }
            Err(error) => {
                drop(options);
                drop(h);
                return Err(error);
            }
        }
    }
}
