ghost use Rattle.std.specs.Prelude.{◌≡◌, ◌<◌, IfOk, OnOk, OnErr};
ghost use Rattle.spec_control.specs.declared.request.Req.TheVariants.{Accepted};
ghost use Rattle.spec_control.specs.declared.entry.Did.TheVariants.{Asked};
ghost use Rattle.spec_control.specs.Rows.{obj};
ghost use Rattle.spec_control.specs.Control.{Control};
ghost use Rattle.spec_control.specs.ControlRun.{MayAsk};
ghost use Rattle.spec_control.specs.Reply.{reply_of};
ghost use Rattle.ctl_state.specs.Listed.{with_room};
ghost use Rattle.ctl_state.specs.Stands.{Stands};
ghost use Rattle.ctl_moves.specs.Accepting.{Accepts, MayAccept};
ghost use Rattle.ctl_moves.specs.Bare.{Somewhere};
ghost use Rattle.ctl_moves.specs.Processing.{IsSilent};
ghost use Rattle.ctl_plane.specs.Past.{control_of, with_event};

use crate::history::History;
use ctl_moves::accept;
use ctl_state::{RoomList, State};
use desk::Load;
use msg_pipe::Pipes;
use spec_control::{Answered, Did, Refusal, Reply, Req};
use std::alloc::{AllocError, Global};
use zq_base::{ObjId, PairId};

// Makes the session of an accepted link, with room for the events that it brings: its entry, and eight
// each of what comes of the session and of its pair.
fn accept_with_room<P: Pipes, D>(
    state: &mut State<Load<P::Name, P::Out, P::In>>,
    events: &mut RoomList<D>,
    alloc: Global,
    listener: ObjId,
) -> Result<(ObjId, PairId), AllocError>
    requires may { Somewhere state.old (MayAccept state.old listener.0) }
    ensures ok { IfOk result (λ r. (c : Control) → Stands state.old c →
        MayAccept state.old listener.0 c → Accepts P.known.out_name P.known.in_name
        c listener.0 r.0 r.1 state.old state.new) }
    ensures room { OnOk result (events.new ≡ with_room 17 events.old) }
    ensures err { OnErr result (state.new ≡ state.old) }
    ensures kept { OnErr result (events.new ≡ events.old) }
{
    events.reserve(17)?;
    match accept::<P>(state, alloc, listener) {
        Ok(made) => return Ok(made),
        Err(error) => {
            events.release(17);
            return Err(error);
        }
    }
}

impl<P: Pipes> History<P> {
    /// A listener has accepted a link: its session is made, in the listener's mailbox and with its
    /// socket's options, and the number of its pair is drawn, which is made when its handshake is done.
    /// The socket is told of it (`Own`). It is refused where too many objects or pairs were made, and
    /// for nothing else. Room for all that may come of it is kept, so that its ending takes no memory.
    /// It costs a copy of the options.
    pub fn accepted(
        &mut self,
        alloc: Global,
        listener: ObjId,
        h: Answered<P::Name, P::Story>,
    ) -> Result<Reply, AllocError>
        requires may { MayAsk (control_of self.old) (Accepted listener) }
        requires mailbox { (obj (control_of self.old).rows listener.0).slot
            < (control_of self.old).slots }
        requires silent { IsSilent h }
        ensures ok { IfOk result (λ reply. self.new
            ≡ with_event (Asked (Accepted listener) reply h) self.old) }
        ensures reply { IfOk result (λ reply.
            reply ≡ reply_of (control_of self.old) (Accepted listener)) }
        ensures err { OnErr result (self.new ≡ self.old) }
    {
        if !self.state.has_room() {
            self.refuse(Req::Accepted(listener), Refusal::TooMany, h)?;
            return Ok(Reply::Refused(Refusal::TooMany));
        }
        let state = &mut self.state;
        match accept_with_room::<P, _>(state, &mut self.events, alloc, listener) {
            Ok(made) => {
                let (session, pair) = made;
                let reply = Reply::Both(session, pair);
                self.events
                    .push(Did::Asked(Req::Accepted(listener), reply, h));
                return Ok(reply);
            }
            Err(error) => {
                drop(h);
                return Err(error);
            }
        }
    }
}
