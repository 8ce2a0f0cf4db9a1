use crate::delivery::Delivery;
use crate::{Desk, Holder};
use msg_pipe::Pipes;
use spec_control::{Reply, Req};
use std::alloc::{AllocError, Global};
use zq_base::SlotId;

/// An I/O worker's way to the control plane: its listeners and sessions ask, and it takes the commands
/// of its own mailbox.
pub trait ServesDesk<P: Pipes>: Desk<P> {
    ghost use Rattle.std.specs.Prelude.{◌≡◌, [], ℕ, true, false, IfOk, IsOk, OnErr};
    ghost use Rattle.zq_base.specs.declared.ids.EndId.{EndId};
    ghost use Rattle.spec_control.specs.declared.end.Reason.{Reason};
    ghost use Rattle.spec_control.specs.declared.request.Req.TheVariants.{AskEnd};
    ghost use Rattle.spec_control.specs.Held.{asker};
    ghost use Rattle.spec_control.specs.OwnAsks.{MayAskOwn};
    ghost use Rattle.spec_control.specs.Moments.{items_in};
    ghost use Rattle.spec_control.specs.Control.{Control};
    ghost use Rattle.desk.specs.Asking.{IsOfWorkers, makes_more};
    ghost use Rattle.desk.specs.Coming.{AreDistinct, BindsFit, KeepsNames};
    ghost use Rattle.desk.specs.Making.{MakesSo};
    ghost use Rattle.desk.specs.Memory.{NoBindWaits, NoPlugWaits};
    ghost use Rattle.desk.specs.Desk.{HasWhatTheySay, KeepsUp, AsksOnce, GivesOrNot, HoldsEnd};
    ghost use Rattle.desk.specs.Desk.{CountsWith, LeavesWith};

    /// Makes a request of a listener's or session's, with the holder of what this worker took in. An
    /// accepted session, which has no Plug, is the worker's from then on, without an end: the worker
    /// takes it in itself, in room that it made before. Want of memory leaves all as it was; only what
    /// makes an object or a pair takes any.
    fn ask_of<H: Holder<P>>(
        &mut self,
        alloc: Global,
        request: Req,
        holder: &mut H,
    ) -> Result<Reply, AllocError>
        requires own { IsOfWorkers request }
        requires may { MayAskOwn (items_in (Self.moments self.old)) request }
        requires lent { (i : ℕ) → asker request ≡ Some i → (H.holding holder.old).holds i ≡ true }
        requires end { (e : EndId) (reason : Reason) → request ≡ AskEnd e reason →
            HoldsEnd e (H.holding holder.old) }
        requires has { HasWhatTheySay (Self.number self.old) (Self.moments self.old)
            (H.holding holder.old) }
        requires calm { H.calm holder.old [] }
        requires makes { (c : Control) → Self.finds self.old c → MakesSo c request H.may_make }
        ensures ok { IfOk result (λ reply. AsksOnce (Self.number self.old) request reply
            (Self.moments self.old) (Self.moments self.new)) }
        ensures succeeds { makes_more request ≡ false → IsOk result }
        ensures err { OnErr result (Self.moments self.new ≡ Self.moments self.old) }
        ensures given { Self.given self.new ≡ Self.given self.old }
        ensures grows { Self.grows self.old self.new }
        ensures names { KeepsNames (Self.named self.old) (Self.named self.new) }
        ensures keeps { (Self.number self.new ≡ Self.number self.old)
            × KeepsUp (Self.number self.new) (Self.moments self.old) (Self.moments self.new)
            (H.holding holder.old) (H.holding holder.new) };

    /// Processes the oldest command of this worker's own mailbox, or finds it empty. A listener, or a
    /// session with the halves of its end, may join what the holder has. Want of memory leaves the
    /// command where it was; only a bind and a Plug take any.
    fn deliver_own<H: Holder<P>>(
        &mut self,
        alloc: Global,
        slot: SlotId,
        holder: &mut H,
    ) -> Result<Delivery, AllocError>
        requires serves { H.serves ≡ true }
        requires mine { Self.mailbox self.old slot.0 ≡ true }
        requires lent { (i : ℕ) → Self.served self.old slot.0 i ≡ true →
            (H.holding holder.old).holds i ≡ true }
        requires has { HasWhatTheySay (Self.number self.old) (Self.moments self.old)
            (H.holding holder.old) }
        requires distinct { AreDistinct P.known.exact (Self.named self.old) }
        requires fits { BindsFit P.known.out_name P.known.in_name (Self.named self.old)
            (Self.coming self.old slot.0) (λ h. (e : EndId) → H.fits holder.old e h) }
        requires calm { H.calm holder.old [] }
        ensures ok { IfOk result (λ found. GivesOrNot (Self.number self.old) slot found
            (Self.moments self.old) (Self.moments self.new)) }
        ensures succeeds { (c : Control) → Self.finds self.old c → NoBindWaits c slot.0 →
            NoPlugWaits c slot.0 → IsOk result }
        ensures counts { CountsWith P.known.out_name (H.counts holder.old)
            (Self.moments self.old) (Self.moments self.new) (H.holding holder.old) }
        ensures left { LeavesWith (Self.moments self.old) (Self.moments self.new)
            (H.holding holder.old) }
        ensures err { OnErr result (Self.moments self.new ≡ Self.moments self.old) }
        ensures given { Self.given self.new ≡ Self.given self.old }
        ensures grows { Self.grows self.old self.new }
        ensures names { KeepsNames (Self.named self.old) (Self.named self.new) }
        ensures keeps { (Self.number self.new ≡ Self.number self.old)
            × KeepsUp (Self.number self.new) (Self.moments self.old) (Self.moments self.new)
            (H.holding holder.old) (H.holding holder.new) };
}
