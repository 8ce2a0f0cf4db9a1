ghost use Rattle.std.specs.Prelude.{◌≡◌, ◌≤◌, ◌<◌, [], true, IfOk, OnErr};
ghost use Rattle.spec_control.specs.declared.request.Req.TheVariants.{Accepted, Shaken};
ghost use Rattle.spec_control.specs.ControlRun.{MayAsk, MayShake};
ghost use Rattle.spec_control.specs.Reply.{reply_of};
ghost use Rattle.ctl_plane.specs.Past.{control_of};
ghost use Rattle.desk.specs.Making.{MakesSo};
ghost use Rattle.desk.specs.Desk.{HasWhatTheySay, KeepsUp};
ghost use Rattle.plain_desk.specs.Lent.{moments_of, Asks};

use crate::mark::Mark;
use crate::one_desk::{OneDesk, silent};
use crate::requests::add_waker;
use crate::waking::wake_owners;
use ctl_plane::History;
use desk::Holder;
use msg_pipe::Pipes;
use spec_control::Reply;
use std::alloc::{AllocError, Global};
use zq_base::{ObjId, Peer};

// Where the waker stands of who owns an object.
fn place_of_owner<P: Pipes>(history: &History<P>, object: ObjId, wakers: usize) -> usize
    requires some { 1 ≤ wakers }
    ensures { result < wakers }
{
    let place = history.slot(history.owner_of(object)).0 as usize;
    if place < wakers {
        return place;
    }
    0
}

// What makes a session of an accepted link, and its pair.
impl<P: Pipes> OneDesk<P> {
    /// The caller's listener has accepted a link: it gets a session, which is the caller's from then on,
    /// without an end. It costs a copy of the options.
    pub fn accepted<H: Holder<P>>(
        &mut self,
        alloc: Global,
        listener: ObjId,
        holder: &H,
    ) -> Result<Reply, AllocError>
        requires may { MayAsk (control_of self.old.past) (Accepted listener) }
        requires lent { (H.holding holder.now).holds listener.0 ≡ true }
        requires has { HasWhatTheySay self.old.caller (moments_of self.old)
            (H.holding holder.now) }
        ensures ok { IfOk result (λ reply. Asks (Accepted listener) reply self.old self.new) }
        ensures reply { IfOk result (λ reply.
            reply ≡ reply_of (control_of self.old.past) (Accepted listener)) }
        ensures err { OnErr result (self.new ≡ self.old) }
        ensures keeps { KeepsUp self.new.caller (moments_of self.old) (moments_of self.new)
            (H.holding holder.now) (H.holding holder.now) }
    {
        self.wakers.reserve(1)?;
        match self.history.accepted(alloc, listener, silent(alloc)) {
            Ok(reply) => {
                self.history.is_run();
                add_waker(&mut self.wakers, reply, holder.waker());
                wake_owners(&self.history, self.wakers.as_slice());
                self.order = self.order.and(&Mark::Event(self.caller), &());
                return Ok(reply);
            }
            Err(want) => return Err(want),
        }
    }

    /// The handshake of the caller's accepted session is done: its pair is made, with its holder, which
    /// may make the session's end. It costs a copy of the identity.
    pub fn shaken<H: Holder<P>>(
        &mut self,
        alloc: Global,
        session: ObjId,
        peer: Peer,
        holder: &mut H,
    ) -> Result<Reply, AllocError>
        requires may { MayShake (control_of self.old.past) session.0 }
        requires lent { (H.holding holder.old).holds session.0 ≡ true }
        requires has { HasWhatTheySay self.old.caller (moments_of self.old)
            (H.holding holder.old) }
        requires calm { H.calm holder.old [] }
        requires makes { MakesSo (control_of self.old.past) (Shaken session peer) H.may_make }
        ensures ok { IfOk result (λ reply. Asks (Shaken session peer) reply self.old self.new) }
        ensures err { OnErr result (self.new ≡ self.old) }
        ensures keeps { KeepsUp self.new.caller (moments_of self.old) (moments_of self.new)
            (H.holding holder.old) (H.holding holder.new) }
    {
        let mine = holder.waker();
        let socket = place_of_owner(&self.history, session, self.wakers.len());
        match self
            .history
            .shaken(alloc, session, peer, holder, &mine, &self.wakers[socket])
        {
            Ok(()) => {
                self.history.is_run();
                wake_owners(&self.history, self.wakers.as_slice());
                self.order = self.order.and(&Mark::Event(self.caller), &());
                return Ok(Reply::Done);
            }
            Err(want) => return Err(want),
        }
    }
}
