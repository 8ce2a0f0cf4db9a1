ghost use Rattle.std.specs.Prelude.{◌≡◌, [], ℕ, true, false, Some, IfOk, IsOk, OnErr};
ghost use Rattle.zq_base.specs.declared.ids.EndId.{EndId};
ghost use Rattle.spec_control.specs.declared.end.Reason.{Reason};
ghost use Rattle.spec_control.specs.declared.request.Req.TheVariants.{AskEnd};
ghost use Rattle.spec_control.specs.ControlRun.{MayAsk};
ghost use Rattle.spec_control.specs.Held.{asker};
ghost use Rattle.ctl_plane.specs.Past.{control_of};
ghost use Rattle.desk.specs.Asking.{IsOfWorkers, makes_more};
ghost use Rattle.desk.specs.Making.{MakesSo};
ghost use Rattle.desk.specs.Desk.{HasWhatTheySay, HoldsEnd, KeepsUp};
ghost use Rattle.plain_desk.specs.Lent.{moments_of, Asks};

use crate::one_desk::OneDesk;
use desk::Holder;
use msg_pipe::Pipes;
use spec_control::{Reply, Req};
use std::alloc::{AllocError, Global};

impl<P: Pipes> OneDesk<P> {
    /// The caller's listener or session makes a request, with the holder of what the caller took in. Want
    /// of memory leaves all as it was; only what makes an object or a pair takes any.
    pub fn ask_own<H: Holder<P>>(
        &mut self,
        alloc: Global,
        request: Req,
        holder: &mut H,
    ) -> Result<Reply, AllocError>
        requires own { IsOfWorkers request }
        requires may { MayAsk (control_of self.old.past) request }
        requires lent { (i : ℕ) → asker request ≡ Some i → (H.holding holder.old).holds i ≡ true }
        requires end { (e : EndId) (reason : Reason) → request ≡ AskEnd e reason →
            HoldsEnd e (H.holding holder.old) }
        requires has { HasWhatTheySay self.old.caller (moments_of self.old)
            (H.holding holder.old) }
        requires calm { H.calm holder.old [] }
        requires makes { MakesSo (control_of self.old.past) request H.may_make }
        ensures ok { IfOk result (λ reply. Asks request reply self.old self.new) }
        ensures succeeds { makes_more request ≡ false → IsOk result }
        ensures err { OnErr result (self.new ≡ self.old) }
        ensures keeps { KeepsUp self.new.caller (moments_of self.old) (moments_of self.new)
            (H.holding holder.old) (H.holding holder.new) }
    {
        match request {
            Req::Accepted(listener) => return self.accepted(alloc, listener, &*holder),
            Req::Shaken(session, peer) => return self.shaken(alloc, session, peer, holder),
            Req::AskEnd(end, reason) => {
                self.ask_end(alloc, end, reason, holder);
                return Ok(Reply::Done);
            }
            Req::AskOver(object) => {
                self.ask_over(alloc, object, &*holder);
                return Ok(Reply::Done);
            }
            Req::OutputOver(session) => {
                self.output_over(alloc, session, holder);
                return Ok(Reply::Done);
            }
            Req::Socket(_, _) => unreachable!(),
            Req::AskTerm => unreachable!(),
            Req::Bind(_, _) => unreachable!(),
            Req::Connect(_, _) => unreachable!(),
            Req::Unbind(_, _) => unreachable!(),
            Req::Disconnect(_, _) => unreachable!(),
            Req::Close(_) => unreachable!(),
        }
    }
}
