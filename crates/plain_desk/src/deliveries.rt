ghost use Rattle.std.specs.Prelude.{◌≡◌, [], true, IfOk, IsOk, OnErr};
ghost use Rattle.zq_base.specs.declared.ids.EndId.{EndId};
ghost use Rattle.spec_control.specs.Names.{name_of};
ghost use Rattle.ctl_plane.specs.Past.{control_of};
ghost use Rattle.desk.specs.Coming.{AreDistinct, BindsFit};
ghost use Rattle.desk.specs.Memory.{NoBindWaits};
ghost use Rattle.desk.specs.Desk.{BringsWith, CountsWith, HasWhatTheySay, HoldsEnd, IsNotLooked, KeepsUp};
ghost use Rattle.plain_desk.specs.Lent.{coming_to, moments_of, FindsIn, IsOfSocket, MeetsOrNot};

use crate::looks::sight_of;
use crate::mark::Mark;
use crate::one_desk::OneDesk;
use crate::waking::wake_owners;
use ctl_plane::Heard;
use desk::{Delivery, Holder};
use msg_pipe::Pipes;
use spec_control::SeenEmpty;
use std::alloc::{AllocError, Global};
use zq_base::{EndId, SlotId};

impl<P: Pipes> OneDesk<P> {
    /// Tells that an end is at the delimiter of the pipe that it reads, with its holder. Answers
    /// whether its state is one in which that is looked at; else nothing happens. It costs looks at some
    /// rows, and what the holder does.
    pub fn delimiter<H: Holder<P>>(&mut self, alloc: Global, end: EndId, holder: &mut H) -> bool
        requires mine { HoldsEnd end (H.holding holder.old) }
        requires at { (H.holding holder.old).at_delimiter end ≡ true }
        requires has { HasWhatTheySay self.old.caller (moments_of self.old)
            (H.holding holder.old) }
        ensures found { MeetsOrNot end result self.old self.new }
        ensures not_looked { IsNotLooked end result (moments_of self.old) (H.holding holder.old) }
        ensures keeps { KeepsUp self.new.caller (moments_of self.old) (moments_of self.new)
            (H.holding holder.old) (H.holding holder.new) }
    {
        let looked = self.history.delimiter(alloc, end, holder);
        match looked {
            true => {
                self.history.is_run();
                wake_owners(&self.history, self.wakers.as_slice());
                self.order = self.order.and(&Mark::Event(self.caller), &());
                return true;
            }
            false => return false,
        }
    }

    /// Processes the oldest command of the mailbox of a socket, with the socket's holder, or finds
    /// it empty. The halves of ends that are on their way to it may join what the holder has. Want of
    /// memory leaves the command where it was; only a bind takes any. It costs at the most a walk over
    /// what the object has, its ends, its names or its children, and what the holder does.
    pub fn deliver<H: Holder<P>>(
        &mut self,
        alloc: Global,
        slot: SlotId,
        holder: &mut H,
    ) -> Result<Delivery, AllocError>
        requires mine { IsOfSocket slot.0 self.old (H.holding holder.old) }
        requires has { HasWhatTheySay self.old.caller (moments_of self.old)
            (H.holding holder.old) }
        requires distinct { AreDistinct P.known.exact (name_of self.old.items) }
        requires fits { BindsFit P.known.out_name P.known.in_name (name_of self.old.items)
            (coming_to self.old slot.0) (λ h. (e : EndId) → H.fits holder.old e h) }
        requires calm { H.calm holder.old [] }
        ensures ok { IfOk result (λ found. FindsIn slot found self.old self.new) }
        ensures brings { BringsWith P.known.out_name P.known.in_name (moments_of self.old)
            (moments_of self.new) self.old.past.given self.new.past.given }
        ensures succeeds { NoBindWaits (control_of self.old.past) slot.0 → IsOk result }
        ensures counts { CountsWith P.known.out_name (H.counts holder.old)
            (moments_of self.old) (moments_of self.new) (H.holding holder.old) }
        ensures err { OnErr result (self.new ≡ self.old) }
        ensures keeps { KeepsUp self.new.caller (moments_of self.old) (moments_of self.new)
            (H.holding holder.old) (H.holding holder.new) }
    {
        self.history.is_run();
        let found = self.history.deliver(alloc, slot, holder)?;
        match found {
            Heard::Done => {
                self.history.is_run();
                wake_owners(&self.history, self.wakers.as_slice());
                let heard = self.order.and(&Mark::Event(self.caller), &());
                self.order = heard;
                return Ok(Delivery::Done);
            }
            Heard::Empty => {
                let sight = sight_of(&self.history, self.caller, SeenEmpty::Mailbox(slot));
                let looked = self.order.and(&Mark::Seen(sight), &());
                self.order = looked;
                return Ok(Delivery::Empty);
            }
        }
    }
}
