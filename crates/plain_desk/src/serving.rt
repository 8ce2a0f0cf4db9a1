ghost use Rattle.std.specs.Prelude.{◌≡◌, [], ℕ, true, IfOk, IsOk, OnErr};
ghost use Rattle.zq_base.specs.declared.ids.EndId.{EndId};
ghost use Rattle.spec_control.specs.Names.{name_of};
ghost use Rattle.ctl_plane.specs.Past.{control_of};
ghost use Rattle.desk.specs.Coming.{AreDistinct, BindsFit};
ghost use Rattle.desk.specs.Memory.{NoBindWaits, NoPlugWaits};
ghost use Rattle.desk.specs.Desk.{CountsWith, HasWhatTheySay, KeepsUp, LeavesWith};
ghost use Rattle.plain_desk.specs.Lent.{coming_to, moments_of, FindsIn};
ghost use Rattle.plain_desk.specs.Reaping.{served_by};
ghost use Rattle.plain_desk.specs.Serving.{is_workers};

use crate::looks::sight_of;
use crate::mark::Mark;
use crate::one_desk::OneDesk;
use crate::waking::wake_owners;
use ctl_plane::Heard;
use desk::{Delivery, Holder};
use msg_pipe::Pipes;
use spec_control::SeenEmpty;
use std::alloc::{AllocError, Global};
use zq_base::SlotId;

impl<P: Pipes> OneDesk<P> {
    /// Processes the oldest command of an I/O worker's mailbox, all of whose objects that were taken in
    /// are the caller's, with their holder, or finds it empty. A listener, or a session with the halves
    /// of its end, may join what the holder has. Want of memory leaves the command where it was; only a
    /// bind and a Plug take any. It costs at the most a walk over what the object has, its ends, its
    /// names or its children, and what the holder does.
    pub fn deliver_own<H: Holder<P>>(
        &mut self,
        alloc: Global,
        slot: SlotId,
        holder: &mut H,
    ) -> Result<Delivery, AllocError>
        requires serves { H.serves ≡ true }
        requires mine { is_workers self.old slot.0 ≡ true }
        requires lent { (i : ℕ) → served_by self.old slot.0 i ≡ true →
            (H.holding holder.old).holds i ≡ true }
        requires has { HasWhatTheySay self.old.caller (moments_of self.old)
            (H.holding holder.old) }
        requires distinct { AreDistinct P.known.exact (name_of self.old.items) }
        requires fits { BindsFit P.known.out_name P.known.in_name (name_of self.old.items)
            (coming_to self.old slot.0) (λ h. (e : EndId) → H.fits holder.old e h) }
        requires calm { H.calm holder.old [] }
        ensures ok { IfOk result (λ found. FindsIn slot found self.old self.new) }
        ensures succeeds { NoBindWaits (control_of self.old.past) slot.0 →
            NoPlugWaits (control_of self.old.past) slot.0 → IsOk result }
        ensures counts { CountsWith P.known.out_name (H.counts holder.old)
            (moments_of self.old) (moments_of self.new) (H.holding holder.old) }
        ensures left { LeavesWith (moments_of self.old) (moments_of self.new)
            (H.holding holder.old) }
        ensures err { OnErr result (self.new ≡ self.old) }
        ensures keeps { KeepsUp self.new.caller (moments_of self.old) (moments_of self.new)
            (H.holding holder.old) (H.holding holder.new) }
    {
        self.history.is_run();
        let found = self.history.deliver(alloc, slot, holder)?;
        match found {
            Heard::Done => {
                self.history.is_run();
                wake_owners(&self.history, self.wakers.as_slice());
                let heard = self.order.and(&Mark::Event(self.caller), &());
                self.order = heard;
                return Ok(Delivery::Done);
            }
            Heard::Empty => {
                let sight = sight_of(&self.history, self.caller, SeenEmpty::Mailbox(slot));
                let looked = self.order.and(&Mark::Seen(sight), &());
                self.order = looked;
                return Ok(Delivery::Empty);
            }
        }
    }
}
