ghost use Rattle.std.specs.Prelude.{◌≡◌, ◌≤◌, ◌<◌, [], true, IfOk, OnErr};
ghost use Rattle.zq_base.specs.declared.endpoint.Endpoint.TheVariants.{Tcp};
ghost use Rattle.spec_control.specs.declared.request.Req.TheVariants.{Bind, Connect};
ghost use Rattle.spec_control.specs.Reply.{reply_of};
ghost use Rattle.ctl_plane.specs.Past.{control_of};
ghost use Rattle.desk.specs.Making.{MakesSo};
ghost use Rattle.desk.specs.Desk.{HasWhatTheySay, KeepsUp};
ghost use Rattle.plain_desk.specs.Lent.{moments_of, Asks, HasSocket, KeepsAside};

use crate::mark::Mark;
use crate::one_desk::{OneDesk, silent};
use crate::requests::add_waker;
use crate::waking::wake_owners;
use ctl_plane::History;
use desk::{Holder, Undoes};
use msg_pipe::Pipes;
use spec_control::Reply;
use std::alloc::{AllocError, Global};
use zq_base::{Address, ObjId};

// The mailbox of the I/O worker that gets the next object.
fn next_worker<P: Pipes>(history: &History<P>) -> usize
    requires some { 1 ≤ history.now.workers }
    ensures within { result ≤ history.now.workers }
{
    let workers = history.workers() as usize;
    1 + history.objects() % workers
}

// What makes a listener or a session. Its number has a mailbox too, which stays empty: the waker of that
// is its maker's.
impl<P: Pipes> OneDesk<P> {
    /// The caller binds its socket to an address (zmq_bind(3), zmq_tcp(7)), by a listener that an I/O
    /// worker gets. It costs a look-up, and a copy of the socket's options.
    pub fn bind_tcp<H: Holder<P>>(
        &mut self,
        alloc: Global,
        socket: ObjId,
        at: Address,
        holder: &H,
    ) -> Result<Reply, AllocError>
        requires open { HasSocket self.old socket }
        ensures ok { IfOk result (λ reply. Asks (Bind socket (Tcp at)) reply self.old self.new) }
        ensures reply { IfOk result (λ reply.
            reply ≡ reply_of (control_of self.old.past) (Bind socket (Tcp at))) }
        ensures err { OnErr result (self.new ≡ self.old) }
        ensures keeps { KeepsAside self.old self.new }
    {
        self.wakers.reserve(1)?;
        match self.history.bind_tcp(alloc, socket, at, silent(alloc)) {
            Ok(reply) => {
                self.history.is_run();
                add_waker(&mut self.wakers, reply, holder.waker());
                wake_owners(&self.history, self.wakers.as_slice());
                self.order = self.order.and(&Mark::Event(self.caller), &());
                return Ok(reply);
            }
            Err(want) => return Err(want),
        }
    }

    /// The caller connects its socket to an address, with the holder of the socket's ends, which may
    /// make that of the pair (zmq_connect(3), zmq_tcp(7)), by a session that an I/O worker gets. It
    /// costs a copy of the socket's options.
    pub fn connect_tcp<H: Undoes<P>>(
        &mut self,
        alloc: Global,
        socket: ObjId,
        at: Address,
        holder: &mut H,
    ) -> Result<Reply, AllocError>
        requires open { HasSocket self.old socket }
        requires lent { (H.holding holder.old).holds socket.0 ≡ true }
        requires has { HasWhatTheySay self.old.caller (moments_of self.old)
            (H.holding holder.old) }
        requires calm { H.calm holder.old [] }
        requires makes { MakesSo (control_of self.old.past) (Connect socket (Tcp at)) H.may_make }
        ensures ok { IfOk result (λ reply. Asks (Connect socket (Tcp at)) reply self.old self.new) }
        ensures reply { IfOk result (λ reply.
            reply ≡ reply_of (control_of self.old.past) (Connect socket (Tcp at))) }
        ensures err { OnErr result (self.new ≡ self.old) }
        ensures keeps { KeepsUp self.new.caller (moments_of self.old) (moments_of self.new)
            (H.holding holder.old) (H.holding holder.new) }
    {
        self.wakers.reserve(1)?;
        let mine = holder.waker();
        let worker = next_worker(&self.history);
        match self
            .history
            .connect_tcp(alloc, socket, at, holder, &mine, &self.wakers[worker])
        {
            Ok(reply) => {
                self.history.is_run();
                add_waker(&mut self.wakers, reply, mine);
                wake_owners(&self.history, self.wakers.as_slice());
                self.order = self.order.and(&Mark::Event(self.caller), &());
                return Ok(reply);
            }
            Err(want) => return Err(want),
        }
    }
}
