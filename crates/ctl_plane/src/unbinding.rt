ghost use Rattle.std.specs.Prelude.{◌≡◌, IfOk, OnErr};
ghost use Rattle.spec_control.specs.declared.request.Req.TheVariants.{Unbind};
ghost use Rattle.spec_control.specs.declared.entry.Did.TheVariants.{Asked};
ghost use Rattle.spec_control.specs.Rows.{obj};
ghost use Rattle.spec_control.specs.ControlRun.{IsOpenSocket};
ghost use Rattle.spec_control.specs.Reply.{reply_of};
ghost use Rattle.ctl_plane.specs.Past.{control_of, with_event};
ghost use Rattle.ctl_moves.specs.Processing.{IsSilent};

use crate::history::History;
use ctl_moves::{strike_bind, unbind_refusal};
use msg_pipe::Pipes;
use spec_control::{Answered, Did, Reply, Req};
use std::alloc::AllocError;
use zq_base::{Endpoint, ObjId};

impl<P: Pipes> History<P> {
    /// Strikes the first bind of a socket to the endpoint (zmq_unbind(3)): the endpoint is free, and
    /// a listener of the socket is told to end. The pairs that were made by it stay. It is refused
    /// once the root was asked, and where the socket has no such bind. It costs a walk over what the
    /// socket has bound and connected.
    pub fn unbind(
        &mut self,
        socket: ObjId,
        at: Endpoint,
        h: Answered<P::Name, P::Story>,
    ) -> Result<Reply, AllocError>
        requires open { IsOpenSocket (obj (control_of self.old).rows socket.0) }
        requires silent { IsSilent h }
        ensures ok { IfOk result (λ reply. self.new
            ≡ with_event (Asked (Unbind socket at) reply h) self.old) }
        ensures reply { IfOk result (λ reply.
            reply ≡ reply_of (control_of self.old) (Unbind socket at)) }
        ensures err { OnErr result (self.new ≡ self.old) }
    {
        match unbind_refusal(&self.state, socket, &at) {
            Some(refusal) => {
                self.refuse(Req::Unbind(socket, at), refusal, h)?;
                return Ok(Reply::Refused(refusal));
            }
            None => match self.events.reserve(1) {
                Ok(()) => {
                    strike_bind(&mut self.state, socket, &at);
                    self.events
                        .push(Did::Asked(Req::Unbind(socket, at), Reply::Done, h));
                    return Ok(Reply::Done);
                }
                Err(error) => {
                    drop(at);
                    drop(h);
                    return Err(error);
                }
            },
        }
    }
}
