ghost use Rattle.std.specs.Prelude.{◌≡◌, [], true, IfOk, OnErr};
ghost use Rattle.zq_base.specs.declared.endpoint.Endpoint.TheVariants.{Inproc};
ghost use Rattle.spec_control.specs.declared.request.Req.TheVariants.{Bind, Connect, Disconnect};
ghost use Rattle.spec_control.specs.Reply.{reply_of};
ghost use Rattle.ctl_plane.specs.Past.{control_of};
ghost use Rattle.desk.specs.Making.{MakesSo};
ghost use Rattle.desk.specs.Desk.{HasWhatTheySay, KeepsUp};
ghost use Rattle.plain_desk.specs.Lent.{moments_of, Asks, HasSocket};

use crate::mark::Mark;
use crate::one_desk::{OneDesk, silent};
use crate::waking::wake_owners;
use desk::{Holder, Undoes};
use msg_pipe::Pipes;
use spec_control::Reply;
use std::alloc::{AllocError, Global};
use zq_base::{Endpoint, ObjId, Octets};

impl<P: Pipes> OneDesk<P> {
    /// The caller binds its socket to a name, with the holder of the socket's ends, which may make
    /// those of the pairs (zmq_bind(3), zmq_inproc(7)). It costs a walk over the connects that wait for
    /// this name, and copies of the name and of two identities for each pair.
    pub fn bind<H: Undoes<P>>(
        &mut self,
        alloc: Global,
        socket: ObjId,
        name: Octets,
        holder: &mut H,
    ) -> Result<Reply, AllocError>
        requires open { HasSocket self.old socket }
        requires lent { (H.holding holder.old).holds socket.0 ≡ true }
        requires has { HasWhatTheySay self.old.caller (moments_of self.old)
            (H.holding holder.old) }
        requires calm { H.calm holder.old [] }
        requires makes { MakesSo (control_of self.old.past) (Bind socket (Inproc name)) H.may_make }
        ensures ok { IfOk result (λ reply.
            Asks (Bind socket (Inproc name)) reply self.old self.new) }
        ensures reply { IfOk result (λ reply.
            reply ≡ reply_of (control_of self.old.past) (Bind socket (Inproc name))) }
        ensures err { OnErr result (self.new ≡ self.old) }
        ensures keeps { KeepsUp self.new.caller (moments_of self.old) (moments_of self.new)
            (H.holding holder.old) (H.holding holder.new) }
    {
        self.history.are_few();
        let reply = self
            .history
            .bind(alloc, socket, name, holder, self.wakers.as_slice())?;
        self.history.is_run();
        wake_owners(&self.history, self.wakers.as_slice());
        self.order = self.order.and(&Mark::Event(self.caller), &());
        Ok(reply)
    }

    /// The caller connects its socket to a name, with the holder of the socket's ends, which may make
    /// that of the pair (zmq_connect(3), zmq_inproc(7)). It costs a look-up, and copies of the name and of
    /// two identities.
    pub fn connect<H: Holder<P>>(
        &mut self,
        alloc: Global,
        socket: ObjId,
        name: Octets,
        holder: &mut H,
    ) -> Result<Reply, AllocError>
        requires open { HasSocket self.old socket }
        requires lent { (H.holding holder.old).holds socket.0 ≡ true }
        requires has { HasWhatTheySay self.old.caller (moments_of self.old)
            (H.holding holder.old) }
        requires calm { H.calm holder.old [] }
        requires makes { MakesSo (control_of self.old.past) (Connect socket (Inproc name)) H.may_make }
        ensures ok { IfOk result (λ reply.
            Asks (Connect socket (Inproc name)) reply self.old self.new) }
        ensures reply { IfOk result (λ reply.
            reply ≡ reply_of (control_of self.old.past) (Connect socket (Inproc name))) }
        ensures err { OnErr result (self.new ≡ self.old) }
        ensures keeps { KeepsUp self.new.caller (moments_of self.old) (moments_of self.new)
            (H.holding holder.old) (H.holding holder.new) }
    {
        self.history.are_few();
        let reply = self
            .history
            .connect(alloc, socket, name, holder, self.wakers.as_slice())?;
        self.history.is_run();
        wake_owners(&self.history, self.wakers.as_slice());
        self.order = self.order.and(&Mark::Event(self.caller), &());
        Ok(reply)
    }
    /// The caller strikes the oldest connect of its socket to the endpoint, with the holder of the
    /// socket's ends (zmq_disconnect(3)). It costs a walk over what the socket has bound and connected.
    pub fn disconnect<H: Holder<P>>(
        &mut self,
        alloc: Global,
        socket: ObjId,
        at: Endpoint,
        holder: &mut H,
    ) -> Result<Reply, AllocError>
        requires open { HasSocket self.old socket }
        requires lent { (H.holding holder.old).holds socket.0 ≡ true }
        requires has { HasWhatTheySay self.old.caller (moments_of self.old)
            (H.holding holder.old) }
        ensures ok { IfOk result (λ reply.
            Asks (Disconnect socket at) reply self.old self.new) }
        ensures reply { IfOk result (λ reply.
            reply ≡ reply_of (control_of self.old.past) (Disconnect socket at)) }
        ensures err { OnErr result (self.new ≡ self.old) }
        ensures keeps { KeepsUp self.new.caller (moments_of self.old) (moments_of self.new)
            (H.holding holder.old) (H.holding holder.new) }
    {
        let reply = self.history.disconnect(socket, at, silent(alloc), holder)?;
        self.history.is_run();
        wake_owners(&self.history, self.wakers.as_slice());
        self.order = self.order.and(&Mark::Event(self.caller), &());
        Ok(reply)
    }
}
