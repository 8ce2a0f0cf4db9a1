ghost use Rattle.std.specs.Prelude.{◌≡◌, true, []};
ghost use Rattle.desk.specs.Holding.{HasGiven};
ghost use Rattle.desk.specs.Desk.{HasWhatTheySay, KeepsUp};
ghost use Rattle.plain_desk.specs.Lent.{moments_of, ClosesOnce, HasSocket};

use crate::mark::Mark;
use crate::one_desk::OneDesk;
use crate::waking::wake_owners;
use desk::Holder;
use msg_pipe::Pipes;
use std::alloc::Global;
use zq_base::ObjId;

impl<P: Pipes> OneDesk<P> {
    /// The caller closes its socket (zmq_close(3)): the socket's holder gives all ends of it, and the
    /// reaper is to take them. It takes no memory, and costs a walk over the ends.
    pub fn close<H: Holder<P>>(&mut self, alloc: Global, socket: ObjId, holder: &mut H)
        requires gives { H.gives ≡ true }
        requires open { HasSocket self.old socket }
        requires lent { (H.holding holder.old).holds socket.0 ≡ true }
        requires has { HasWhatTheySay self.old.caller (moments_of self.old)
            (H.holding holder.old) }
        ensures closes { ClosesOnce P.known (H.pipes holder.new) (H.holding holder.old)
            socket self.old self.new }
        ensures gives { HasGiven socket.0 (H.holding holder.old) (H.holding holder.new) }
        ensures keeps { KeepsUp self.new.caller (moments_of self.old) (moments_of self.new)
            (H.holding holder.old) (H.holding holder.new) }
        ensures calm { H.calm holder.old [] → H.calm holder.new [] }
    {
        self.history.close(alloc, socket, holder);
        self.history.is_run();
        self.closed.push(socket);
        wake_owners(&self.history, self.wakers.as_slice());
        self.order = self.order.and(&Mark::Event(self.caller), &());
    }
}
