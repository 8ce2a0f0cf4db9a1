ghost use Rattle.std.specs.Prelude.{◌≡◌, true};
ghost use Rattle.spec_control.specs.declared.request.Reply.TheVariants.{Done};
ghost use Rattle.spec_control.specs.declared.request.Req.TheVariants.{AskEnd, AskOver, OutputOver};
ghost use Rattle.spec_control.specs.ControlRun.{MayAskEnd, MayAskOver, MayBeOver};
ghost use Rattle.spec_control.specs.Rows.{obj};
ghost use Rattle.ctl_plane.specs.Past.{control_of};
ghost use Rattle.desk.specs.Desk.{HasWhatTheySay, HoldsEnd, KeepsUp};
ghost use Rattle.plain_desk.specs.Lent.{moments_of, Asks};

use crate::mark::Mark;
use crate::one_desk::{OneDesk, silent};
use crate::waking::wake_owners;
use desk::Holder;
use msg_pipe::Pipes;
use spec_control::Reason;
use std::alloc::Global;
use zq_base::{EndId, ObjId};

// What a listener or a session asks that makes nothing. None of it takes memory.
impl<P: Pipes> OneDesk<P> {
    /// The caller's listener or session asks its owner to be told to end, once. It costs looks at two
    /// rows.
    pub fn ask_over<H: Holder<P>>(&mut self, alloc: Global, object: ObjId, holder: &H)
        requires may { MayAskOver (obj (control_of self.old.past).rows object.0) }
        requires lent { (H.holding holder.now).holds object.0 ≡ true }
        requires has { HasWhatTheySay self.old.caller (moments_of self.old)
            (H.holding holder.now) }
        ensures ok { Asks (AskOver object) Done self.old self.new }
        ensures keeps { KeepsUp self.new.caller (moments_of self.old) (moments_of self.new)
            (H.holding holder.now) (H.holding holder.now) }
    {
        let _holder = holder;
        self.history.ask_over(object, silent(alloc));
        self.history.is_run();
        wake_owners(&self.history, self.wakers.as_slice());
        self.order = self.order.and(&Mark::Event(self.caller), &());
    }

    /// The caller's session asks its end, with its holder, once for a reason. It costs looks at the
    /// rows of the end, of its pair and of its object, and what the holder does.
    pub fn ask_end<H: Holder<P>>(
        &mut self,
        alloc: Global,
        end: EndId,
        reason: Reason,
        holder: &mut H,
    )
        requires may { MayAskEnd (control_of self.old.past) end reason }
        requires mine { HoldsEnd end (H.holding holder.old) }
        requires has { HasWhatTheySay self.old.caller (moments_of self.old)
            (H.holding holder.old) }
        ensures ok { Asks (AskEnd end reason) Done self.old self.new }
        ensures keeps { KeepsUp self.new.caller (moments_of self.old) (moments_of self.new)
            (H.holding holder.old) (H.holding holder.new) }
    {
        self.history.ask_end(alloc, end, reason, holder);
        self.history.is_run();
        wake_owners(&self.history, self.wakers.as_slice());
        self.order = self.order.and(&Mark::Event(self.caller), &());
    }

    /// The caller's session, which waited for its output alone, has none left, and ends, with its
    /// holder. It costs looks at two rows, and what the holder does.
    pub fn output_over<H: Holder<P>>(&mut self, alloc: Global, session: ObjId, holder: &mut H)
        requires may { MayBeOver (control_of self.old.past) session.0 }
        requires lent { (H.holding holder.old).holds session.0 ≡ true }
        requires has { HasWhatTheySay self.old.caller (moments_of self.old)
            (H.holding holder.old) }
        ensures ok { Asks (OutputOver session) Done self.old self.new }
        ensures keeps { KeepsUp self.new.caller (moments_of self.old) (moments_of self.new)
            (H.holding holder.old) (H.holding holder.new) }
    {
        self.history.output_over(alloc, session, holder);
        self.history.is_run();
        wake_owners(&self.history, self.wakers.as_slice());
        self.order = self.order.and(&Mark::Event(self.caller), &());
    }
}
