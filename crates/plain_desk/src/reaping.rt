ghost use Rattle.std.specs.Prelude.{◌≡◌, ◌≢◌, ℕ, [], true, IfSome, IfNone, IfOk, IsOk, OnOk, OnErr};
ghost use Rattle.zq_base.specs.declared.ids.EndId.{EndId};
ghost use Rattle.spec_control.specs.declared.entry.SeenEmpty.TheVariants.{Reapers};
ghost use Rattle.spec_control.specs.ControlRun.{AreEmpty};
ghost use Rattle.spec_control.specs.Names.{name_of};
ghost use Rattle.desk.specs.TakingOver.{MayTakeFirst};
ghost use Rattle.ctl_plane.specs.Past.{control_of};
ghost use Rattle.desk.specs.Coming.{AreDistinct, BindsFit, TakesEnds};
ghost use Rattle.desk.specs.Memory.{NoBindIsFirst, NoBindWaits};
ghost use Rattle.desk.specs.Desk.{BringsWith, CountsWith, HasWhatTheySay, KeepsUp};
ghost use Rattle.plain_desk.specs.Lent.{coming_to, moments_of, IsOfSocket};
ghost use Rattle.plain_desk.specs.Reaping.{served_by, FindsFirst, HearsFrom, WaitsFirst};
ghost use Rattle.plain_desk.specs.Waiting.{WaitsAt};

use crate::mark::Mark;
use crate::one_desk::OneDesk;
use crate::waking::wake_owners;
use ctl_plane::Heard;
use desk::{Delivery, Holder};
use msg_pipe::Pipes;
use spec_control::SeenEmpty;
use std::alloc::{AllocError, Global};
use zq_base::SlotId;

impl<P: Pipes> OneDesk<P> {
    // The first of the reaper's mailboxes in which a command waits.
    pub(crate) fn first_slot(&mut self) -> Option<SlotId>
        ensures stays { self.new ≡ self.old }
        ensures some { IfSome result (λ slot. WaitsFirst slot self.old) }
        ensures none { IfNone result (AreEmpty (control_of self.old.past) Reapers) }
    {
        if !self.history.is_empty(SlotId(0)) {
            return Some(SlotId(0));
        }
        match self.closed.first(&self.history) {
            Some(place) => {
                let socket = self.closed.as_slice()[place];
                return Some(self.history.slot(socket));
            }
            None => return None,
        }
    }

    // Of the closed sockets that are kept for the reaper those that have ended may go.
    fn forget_ended(&mut self)
        ensures { self.new ≡ self.old }
    {
        self.closed.thin(&self.history);
    }

    // Processes the oldest command of the root, with the reaper's holder.
    fn hear_root<H: Holder<P>>(&mut self, alloc: Global, holder: &mut H) -> Result<(), AllocError>
        requires waits { (control_of self.old.past).boxes 0 ≢ [] }
        requires reaps { H.reaps ≡ true }
        requires has { HasWhatTheySay self.old.caller (moments_of self.old)
            (H.holding holder.old) }
        requires distinct { AreDistinct P.known.exact (name_of self.old.items) }
        requires takes { MayTakeFirst (H.may_take holder.old) (control_of self.old.past)
            self.old.past.given }
        requires calm { H.calm holder.old [] }
        ensures ok { OnOk result (HearsFrom (record { 0 = 0 }) self.old self.new) }
        ensures brings { BringsWith P.known.out_name P.known.in_name (moments_of self.old)
            (moments_of self.new) self.old.past.given self.new.past.given }
        ensures succeeds { NoBindWaits (control_of self.old.past) 0 → IsOk result }
        ensures counts { CountsWith P.known.out_name (H.counts holder.old)
            (moments_of self.old) (moments_of self.new) (H.holding holder.old) }
        ensures err { OnErr result (self.new ≡ self.old) }
        ensures given { TakesEnds self.old.past.given self.new.past.given }
        ensures keeps { KeepsUp self.new.caller (moments_of self.old) (moments_of self.new)
            (H.holding holder.old) (H.holding holder.new) }
    {
        self.history.is_run();
        let found = self.history.deliver(alloc, SlotId(0), holder)?;
        match found {
            Heard::Done => {
                self.history.is_run();
                wake_owners(&self.history, self.wakers.as_slice());
                let heard = self.order.and(&Mark::Event(self.caller), &());
                self.order = heard;
                return Ok(());
            }
            Heard::Empty => unreachable!(),
        }
    }

    // Processes the oldest command of a closed socket, with the reaper's holder.
    fn hear_closed<H: Holder<P>>(
        &mut self,
        alloc: Global,
        slot: SlotId,
        holder: &mut H,
    ) -> Result<(), AllocError>
        requires waits { (control_of self.old.past).boxes slot.0 ≢ [] }
        requires mine { IsOfSocket slot.0 self.old (H.holding holder.old) }
        requires has { HasWhatTheySay self.old.caller (moments_of self.old)
            (H.holding holder.old) }
        requires distinct { AreDistinct P.known.exact (name_of self.old.items) }
        requires fits { BindsFit P.known.out_name P.known.in_name (name_of self.old.items)
            (coming_to self.old slot.0) (λ h. (e : EndId) → H.fits holder.old e h) }
        requires calm { H.calm holder.old [] }
        ensures ok { OnOk result (HearsFrom slot self.old self.new) }
        ensures brings { BringsWith P.known.out_name P.known.in_name (moments_of self.old)
            (moments_of self.new) self.old.past.given self.new.past.given }
        ensures succeeds { NoBindWaits (control_of self.old.past) slot.0 → IsOk result }
        ensures counts { CountsWith P.known.out_name (H.counts holder.old)
            (moments_of self.old) (moments_of self.new) (H.holding holder.old) }
        ensures err { OnErr result (self.new ≡ self.old) }
        ensures given { self.new.past.given ≡ self.old.past.given }
        ensures keeps { KeepsUp self.new.caller (moments_of self.old) (moments_of self.new)
            (H.holding holder.old) (H.holding holder.new) }
    {
        let found = self.deliver(alloc, slot, holder)?;
        match found {
            Delivery::Done => return Ok(()),
            Delivery::Empty => unreachable!(),
        }
    }

    // Processes the oldest command of one of the reaper's mailboxes, in which one waits.
    fn hear_at<H: Holder<P>>(
        &mut self,
        alloc: Global,
        slot: SlotId,
        holder: &mut H,
    ) -> Result<(), AllocError>
        requires waits { WaitsAt slot self.old }
        requires reaps { H.reaps ≡ true }
        requires lent { (m i : ℕ) → served_by self.old m i ≡ true →
            (H.holding holder.old).holds i ≡ true }
        requires has { HasWhatTheySay self.old.caller (moments_of self.old)
            (H.holding holder.old) }
        requires distinct { AreDistinct P.known.exact (name_of self.old.items) }
        requires fits { (m i : ℕ) → served_by self.old m i ≡ true →
            BindsFit P.known.out_name P.known.in_name (name_of self.old.items)
            (coming_to self.old m) (λ h. (e : EndId) → H.fits holder.old e h) }
        requires takes { MayTakeFirst (H.may_take holder.old) (control_of self.old.past)
            self.old.past.given }
        requires calm { H.calm holder.old [] }
        ensures ok { OnOk result (HearsFrom slot self.old self.new) }
        ensures brings { BringsWith P.known.out_name P.known.in_name (moments_of self.old)
            (moments_of self.new) self.old.past.given self.new.past.given }
        ensures succeeds { NoBindWaits (control_of self.old.past) slot.0 → IsOk result }
        ensures counts { CountsWith P.known.out_name (H.counts holder.old)
            (moments_of self.old) (moments_of self.new) (H.holding holder.old) }
        ensures err { OnErr result (self.new ≡ self.old) }
        ensures given { TakesEnds self.old.past.given self.new.past.given }
        ensures keeps { KeepsUp self.new.caller (moments_of self.old) (moments_of self.new)
            (H.holding holder.old) (H.holding holder.new) }
    {
        self.is_of_one_order();
        if slot.0 == 0 {
            return self.hear_root(alloc, holder);
        }
        self.hear_closed(alloc, slot, holder)
    }

    /// Processes the oldest command of one of the reaper's mailboxes, in which one waits. The reaper's
    /// holder takes in the ends of closed sockets. Want of memory leaves the command where it was;
    /// only a bind takes any. Of the closed sockets that are kept those that have ended may go. It costs
    /// what the delivery costs the history, and fewer than six looks for each socket that was closed since
    /// the last of them went.
    pub fn deliver_at<H: Holder<P>>(
        &mut self,
        alloc: Global,
        slot: SlotId,
        holder: &mut H,
    ) -> Result<(), AllocError>
        requires waits { WaitsAt slot self.old }
        requires reaps { H.reaps ≡ true }
        requires lent { (m i : ℕ) → served_by self.old m i ≡ true →
            (H.holding holder.old).holds i ≡ true }
        requires has { HasWhatTheySay self.old.caller (moments_of self.old)
            (H.holding holder.old) }
        requires distinct { AreDistinct P.known.exact (name_of self.old.items) }
        requires fits { (m i : ℕ) → served_by self.old m i ≡ true →
            BindsFit P.known.out_name P.known.in_name (name_of self.old.items)
            (coming_to self.old m) (λ h. (e : EndId) → H.fits holder.old e h) }
        requires takes { MayTakeFirst (H.may_take holder.old) (control_of self.old.past)
            self.old.past.given }
        requires calm { H.calm holder.old [] }
        ensures ok { OnOk result (HearsFrom slot self.old self.new) }
        ensures brings { BringsWith P.known.out_name P.known.in_name (moments_of self.old)
            (moments_of self.new) self.old.past.given self.new.past.given }
        ensures succeeds { NoBindWaits (control_of self.old.past) slot.0 → IsOk result }
        ensures counts { CountsWith P.known.out_name (H.counts holder.old)
            (moments_of self.old) (moments_of self.new) (H.holding holder.old) }
        ensures err { OnErr result (self.new ≡ self.old) }
        ensures given { TakesEnds self.old.past.given self.new.past.given }
        ensures keeps { KeepsUp self.new.caller (moments_of self.old) (moments_of self.new)
            (H.holding holder.old) (H.holding holder.new) }
    {
        let heard = self.hear_at(alloc, slot, holder);
        self.forget_ended();
        heard
    }

    /// Processes the oldest command of the first of the reaper's mailboxes that is not empty, in the
    /// order of the root's and those of the closed sockets, or finds all of them empty. The reaper's
    /// holder takes in the ends of closed sockets. Want of memory leaves the command where it was;
    /// only a bind takes any. It costs a look at each word of 64 mailboxes from the first on in which a
    /// closed socket that is kept has its own, or at each of these sockets where they are fewer, at
    /// each word of 64 of them up to the first, and at each bit that changed since the last. Those are
    /// kept that lived when it was last looked who has ended, and those that were closed since: once
    /// they are twice as many as lived then, and 64, those that have ended go.
    pub fn deliver_first<H: Holder<P>>(
        &mut self,
        alloc: Global,
        holder: &mut H,
    ) -> Result<Delivery, AllocError>
        requires reaps { H.reaps ≡ true }
        requires lent { (m i : ℕ) → served_by self.old m i ≡ true →
            (H.holding holder.old).holds i ≡ true }
        requires has { HasWhatTheySay self.old.caller (moments_of self.old)
            (H.holding holder.old) }
        requires distinct { AreDistinct P.known.exact (name_of self.old.items) }
        requires fits { (m i : ℕ) → served_by self.old m i ≡ true →
            BindsFit P.known.out_name P.known.in_name (name_of self.old.items)
            (coming_to self.old m) (λ h. (e : EndId) → H.fits holder.old e h) }
        requires takes { MayTakeFirst (H.may_take holder.old) (control_of self.old.past)
            self.old.past.given }
        requires calm { H.calm holder.old [] }
        ensures ok { IfOk result (λ found. FindsFirst found self.old self.new) }
        ensures brings { BringsWith P.known.out_name P.known.in_name (moments_of self.old)
            (moments_of self.new) self.old.past.given self.new.past.given }
        ensures succeeds { NoBindIsFirst (control_of self.old.past) → IsOk result }
        ensures counts { CountsWith P.known.out_name (H.counts holder.old)
            (moments_of self.old) (moments_of self.new) (H.holding holder.old) }
        ensures err { OnErr result (self.new ≡ self.old) }
        ensures given { TakesEnds self.old.past.given self.new.past.given }
        ensures keeps { KeepsUp self.new.caller (moments_of self.old) (moments_of self.new)
            (H.holding holder.old) (H.holding holder.new) }
    {
        match self.first_slot() {
            Some(slot) => {
                self.deliver_at(alloc, slot, holder)?;
                return Ok(Delivery::Done);
            }
            None => {
                self.note_look(SeenEmpty::Reapers);
                return Ok(Delivery::Empty);
            }
        }
    }
}
