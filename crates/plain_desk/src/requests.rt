ghost use Rattle.std.specs.Prelude.{◌≡◌, ◌≤◌, ◌<◌, ◌+◌, ◌-◌, length, IfOk, OnErr};
ghost use Rattle.std.specs.Vec.{vec_len, vec_capacity};
ghost use Rattle.spec_control.specs.declared.request.Req.TheVariants.{Socket as MakeSocket, Unbind};
ghost use Rattle.spec_control.specs.Reply.{reply_of};
ghost use Rattle.ctl_plane.specs.Past.{control_of};
ghost use Rattle.ctl_state.specs.Listed.{without_room};
ghost use Rattle.plain_desk.specs.Lent.{made_at_most, Asks, HasSocket, KeepsAside};
ghost use Rattle.desk.specs.Asking.{MayHave};

use crate::mark::Mark;
use crate::one_desk::{OneDesk, silent};
use crate::queue::Queue;
use crate::waking::wake_owners;
use desk::Holder;
use msg_pipe::Pipes;
use spec_control::Reply;
use std::alloc::{AllocError, Global};
use zq_base::{Endpoint, Kind, ObjId, Options};

/// An object that was made gets its waker.
pub(crate) fn add_waker<W: Drop>(wakers: &mut Vec<W>, reply: Reply, waker: W)
    requires room { vec_len wakers.old < vec_capacity wakers.old }
    ensures { length wakers.new.items ≡ length wakers.old.items + made_at_most reply }
{
    match reply {
        Reply::Refused(_) => {}
        _ => wakers.push_reserved(waker),
    }
}

// The room for a socket's close is kept where the socket was made.
fn keep_room(closed: &mut Queue, reply: Reply)
    requires one { 1 ≤ closed.old.spare }
    ensures { closed.new ≡ without_room (1 - made_at_most reply) closed.old }
{
    match reply {
        Reply::Refused(_) => closed.release(1),
        _ => {}
    }
}

impl<P: Pipes> OneDesk<P> {
    /// The caller makes a socket (zmq_socket(3)). The socket is woken as this holder is. It costs the same
    /// however many objects there are.
    pub fn make_socket<H: Holder<P>>(
        &mut self,
        alloc: Global,
        kind: Kind,
        options: Options,
        holder: &H,
    ) -> Result<Reply, AllocError>
        requires options { MayHave options }
        ensures ok { IfOk result (λ reply. Asks (MakeSocket kind options) reply self.old self.new) }
        ensures reply { IfOk result (λ reply.
            reply ≡ reply_of (control_of self.old.past) (MakeSocket kind options)) }
        ensures err { OnErr result (self.new ≡ self.old) }
        ensures keeps { KeepsAside self.old self.new }
    {
        self.wakers.reserve(1)?;
        let mailboxes = self.history.mailboxes();
        self.closed.reserve(mailboxes)?;
        match self
            .history
            .make_socket(alloc, kind, options, silent(alloc))
        {
            Ok(reply) => {
                self.history.is_run();
                add_waker(&mut self.wakers, reply, holder.waker());
                keep_room(&mut self.closed, reply);
                wake_owners(&self.history, self.wakers.as_slice());
                self.order = self.order.and(&Mark::Event(self.caller), &());
                return Ok(reply);
            }
            Err(want) => {
                self.closed.release(1);
                return Err(want);
            }
        }
    }

    /// The caller strikes the first bind of its socket to the endpoint (zmq_unbind(3)). It costs a walk
    /// over what the socket has bound and connected.
    pub fn unbind(
        &mut self,
        alloc: Global,
        socket: ObjId,
        at: Endpoint,
    ) -> Result<Reply, AllocError>
        requires open { HasSocket self.old socket }
        ensures ok { IfOk result (λ reply. Asks (Unbind socket at) reply self.old self.new) }
        ensures reply { IfOk result (λ reply.
            reply ≡ reply_of (control_of self.old.past) (Unbind socket at)) }
        ensures err { OnErr result (self.new ≡ self.old) }
        ensures keeps { KeepsAside self.old self.new }
    {
        let reply = self.history.unbind(socket, at, silent(alloc))?;
        self.history.is_run();
        wake_owners(&self.history, self.wakers.as_slice());
        self.order = self.order.and(&Mark::Event(self.caller), &());
        Ok(reply)
    }
}
