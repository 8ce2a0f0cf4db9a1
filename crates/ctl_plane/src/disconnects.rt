ghost use Rattle.std.specs.Prelude.{◌≡◌, true, IfOk, OnErr};
ghost use Rattle.spec_control.specs.declared.request.Req.TheVariants.{Disconnect};
ghost use Rattle.spec_control.specs.declared.entry.Did.TheVariants.{Asked};
ghost use Rattle.spec_control.specs.Rows.{obj};
ghost use Rattle.spec_control.specs.ControlRun.{IsOpenSocket};
ghost use Rattle.spec_control.specs.Reply.{reply_of};
ghost use Rattle.desk.specs.Turns.{HasTurned};
ghost use Rattle.ctl_plane.specs.Coming.{ComesWith};
ghost use Rattle.ctl_plane.specs.Past.{control_of, with_event};
ghost use Rattle.ctl_moves.specs.Processing.{IsSilent};
ghost use Rattle.ctl_plane.specs.Hearing.{HasWhat};

use crate::history::History;
use ctl_moves::{disconnect_refusal, strike_connect};
use desk::Holder;
use msg_pipe::Pipes;
use spec_control::{Answered, Did, Reply, Req};
use std::alloc::AllocError;
use zq_base::{Endpoint, ObjId};

impl<P: Pipes> History<P> {
    /// Strikes the oldest connect of a socket to the endpoint, with the socket's holder
    /// (zmq_disconnect(3)): one that waits leaves the book; of one that has its pair the socket's
    /// end is asked, at once or as soon as it is attached, and its session is told to end. It is
    /// refused once the root was asked, and where the socket has no such connect. It takes memory
    /// for its entry alone, and costs a walk over what the socket has bound and connected.
    pub fn disconnect<H: Holder<P>>(
        &mut self,
        socket: ObjId,
        at: Endpoint,
        h: Answered<P::Name, P::Story>,
        holder: &mut H,
    ) -> Result<Reply, AllocError>
        requires open { IsOpenSocket (obj (control_of self.old).rows socket.0) }
        requires silent { IsSilent h }
        requires lent { (H.holding holder.old).holds socket.0 ≡ true }
        requires has { HasWhat self.old (H.holding holder.old) }
        ensures ok { IfOk result (λ reply. self.new
            ≡ with_event (Asked (Disconnect socket at) reply h) self.old) }
        ensures reply { IfOk result (λ reply.
            reply ≡ reply_of (control_of self.old) (Disconnect socket at)) }
        ensures keeps { HasWhat self.new (H.holding holder.new) }
        ensures turned { HasTurned (control_of self.old) (control_of self.new)
            (H.holding holder.old) (H.holding holder.new) }
        ensures joins { ComesWith self.old self.new (H.holding holder.old) (H.holding holder.new) }
        ensures err { OnErr result ((self.new ≡ self.old)
            × (H.holding holder.new ≡ H.holding holder.old)) }
    {
        match disconnect_refusal(&self.state, socket, &at) {
            Some(refusal) => {
                self.refuse(Req::Disconnect(socket, at), refusal, h)?;
                return Ok(Reply::Refused(refusal));
            }
            None => match self.events.reserve(1) {
                Ok(()) => {
                    strike_connect(&mut self.state, holder, socket, &at);
                    self.events
                        .push(Did::Asked(Req::Disconnect(socket, at), Reply::Done, h));
                    return Ok(Reply::Done);
                }
                Err(error) => {
                    drop(at);
                    drop(h);
                    return Err(error);
                }
            },
        }
    }
}
