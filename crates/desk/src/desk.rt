ghost use Rattle.std.specs.Prelude.{◌≡◌, [], ℕ, Bool, true, false, List, Option, Some, IfNone, IfOk, IsOk, OnErr};
ghost use Rattle.spec_control.specs.Moments.{Moment};
ghost use Rattle.zq_base.specs.declared.ids.EndId.{EndId};
ghost use Rattle.desk.specs.declared.given.Given.{Given};

use crate::delivery::Delivery;
use crate::{Holder, Undoes};
use msg_pipe::Pipes;
use spec_control::{Reply, Req, SeenEmpty, Sight};
use std::alloc::{AllocError, Global};
use zq_base::{EndId, ObjId, SlotId};

/// A caller's way to the control plane. Each call adds to the moments of this caller: what it did
/// and saw, each time with the control plane as it found it.
///
/// A call is lent a holder that has of its objects what these moments say.
pub trait Desk<P: Pipes> {
    ghost use Rattle.spec_control.specs.Held.{asker};
    ghost use Rattle.spec_control.specs.OwnAsks.{MayAskOwn};
    ghost use Rattle.spec_control.specs.Moments.{items_in, left_after};
    ghost use Rattle.spec_control.specs.Has.{has_after};
    ghost use Rattle.spec_control.specs.Control.{Control};
    ghost use Rattle.spec_control.specs.ControlRun.{AreEmpty};
    ghost use Rattle.spec_control.specs.Reply.{root_asked};
    ghost use Rattle.spec_control.specs.Rows.{obj};
    ghost use Rattle.spec_control.specs.declared.request.Req.TheVariants.{AskTerm};
    ghost use Rattle.desk.specs.Making.{MakesSo};
    ghost use Rattle.desk.specs.TakingOver.{AreDistinct, MayTakeFirst};
    ghost use Rattle.desk.specs.Asking.{HasMarks, IsOfSockets};
    ghost use Rattle.desk.specs.Coming.{BindsFit, KeepsNames, SendsEnds, TakesEnds, is_close};
    ghost use Rattle.desk.specs.Memory.{NoBindIsFirst, NoBindWaits};
    ghost use Rattle.desk.specs.Desk.{HasWhatTheySay, KeepsUp, AsksOnce, GivesOrNot, DelimitsOrNot};
    ghost use Rattle.desk.specs.Desk.{BringsWith, CountsWith, ReapsOrNot, LooksOrNot, IsSocketsMailbox, HoldsEnd, IsNotLooked};

    /// The caller's number.
    ghost number: { Self → ℕ };

    /// What it did and saw so far, in order, each item with the control plane as it found it.
    ghost moments: { Self → List (Moment P.Name P.Story) };

    /// The mailboxes that it has beside those of its sockets: an I/O worker's own.
    ghost mailbox: { Self → ℕ → Bool };

    /// The objects that this caller has and whose commands come to one of its mailboxes, by the
    /// mailbox's number.
    ghost served: { Self → ℕ → ℕ → Bool };

    /// The names that pipes were given at their making, each by the end that writes it.
    ghost named: { Self → EndId → Option P.Name };

    /// The ends whose halves are on their way to this mailbox.
    ghost coming: { Self → ℕ → EndId → Bool };

    /// The ends of closed sockets that are on their way to the reaper.
    ghost given: { Self → List (Given P.Name P.Out P.In) };

    /// What the control plane may be as a call finds it.
    ghost finds: { Self → Control → Type 0 };

    /// How a call leaves all that its way leads to, also what is not its caller's.
    ghost grows: { Self → Self → Type 0 };

    /// Whether listeners and sessions may ask it, and sockets may bind and connect over tcp.
    ghost serves: { Bool };

    /// The mailbox of an object that this caller has.
    fn slot(&self, object: ObjId) -> SlotId
        requires has { has_after object.0 (items_in (moments self.now)) ≡ Some (number self.now) }
        ensures { result.0 ≡ (obj (left_after object.0 (moments self.now)).rows object.0).slot };

    /// Makes a request, of whose pipes the holder may make each. Want of memory leaves all as it was;
    /// a close wants none, nor does the first asking of the context to end.
    fn request<H: Undoes<P>>(
        &mut self,
        alloc: Global,
        request: Req,
        holder: &mut H,
    ) -> Result<Reply, AllocError>
        requires may { MayAskOwn (items_in (moments self.old)) request }
        requires gives { is_close request ≡ true → H.gives ≡ true }
        requires options { HasMarks request }
        requires sockets { IsOfSockets serves request }
        requires lent { (i : ℕ) → asker request ≡ Some i → (H.holding holder.old).holds i ≡ true }
        requires has { HasWhatTheySay (number self.old) (moments self.old) (H.holding holder.old) }
        requires calm { H.calm holder.old [] }
        requires makes { (c : Control) → finds self.old c → MakesSo c request H.may_make }
        ensures ok { IfOk result (λ reply.
            AsksOnce (number self.old) request reply (moments self.old) (moments self.new)) }
        ensures given { IfOk result (λ _. SendsEnds P.known (H.pipes holder.new)
            (H.holding holder.old) request (given self.old) (given self.new)) }
        ensures succeeds { is_close request ≡ true → IsOk result }
        ensures first { (c : Control) → finds self.old c → request ≡ AskTerm →
            root_asked c ≡ false → IsOk result }
        ensures err { OnErr result ((moments self.new ≡ moments self.old)
            × (given self.new ≡ given self.old)) }
        ensures grows { grows self.old self.new }
        ensures names { KeepsNames (named self.old) (named self.new) }
        ensures keeps { (number self.new ≡ number self.old)
            × KeepsUp (number self.new) (moments self.old) (moments self.new)
            (H.holding holder.old) (H.holding holder.new) }
        ensures closes { is_close request ≡ true → H.calm holder.old [] → H.calm holder.new [] };

    /// Processes the oldest command of a socket's mailbox, or finds it empty. The halves of ends that are on
    /// their way to it may join what the holder has. Want of memory leaves the command where it was;
    /// only a bind takes any.
    fn deliver<H: Holder<P>>(
        &mut self,
        alloc: Global,
        slot: SlotId,
        holder: &mut H,
    ) -> Result<Delivery, AllocError>
        requires mine { IsSocketsMailbox slot.0 (moments self.old) (H.holding holder.old) }
        requires lent { (i : ℕ) → served self.old slot.0 i ≡ true →
            (H.holding holder.old).holds i ≡ true }
        requires has { HasWhatTheySay (number self.old) (moments self.old) (H.holding holder.old) }
        requires distinct { AreDistinct P.known.exact (named self.old) }
        requires fits { BindsFit P.known.out_name P.known.in_name (named self.old)
            (coming self.old slot.0) (λ h. (e : EndId) → H.fits holder.old e h) }
        requires calm { H.calm holder.old [] }
        ensures ok { IfOk result (λ found.
            GivesOrNot (number self.old) slot found (moments self.old) (moments self.new)) }
        ensures succeeds { (c : Control) → finds self.old c → NoBindWaits c slot.0 → IsOk result }
        ensures counts { CountsWith P.known.out_name (H.counts holder.old)
            (moments self.old) (moments self.new) (H.holding holder.old) }
        ensures err { OnErr result (moments self.new ≡ moments self.old) }
        ensures given { given self.new ≡ given self.old }
        ensures grows { grows self.old self.new }
        ensures names { KeepsNames (named self.old) (named self.new) }
        ensures keeps { (number self.new ≡ number self.old)
            × KeepsUp (number self.new) (moments self.old) (moments self.new)
            (H.holding holder.old) (H.holding holder.new) };

    /// Processes the oldest command of the first of the reaper's mailboxes that is not empty, in the
    /// order of the root's and those of the closed sockets that it took over, or finds all of them
    /// empty. The reaper's holder takes in the ends of closed sockets. Want of memory leaves the
    /// command where it was; only a bind takes any.
    fn deliver_first<H: Holder<P>>(
        &mut self,
        alloc: Global,
        holder: &mut H,
    ) -> Result<Delivery, AllocError>
        requires reaps { H.reaps ≡ true }
        requires lent { (m i : ℕ) → served self.old m i ≡ true →
            (H.holding holder.old).holds i ≡ true }
        requires has { HasWhatTheySay (number self.old) (moments self.old) (H.holding holder.old) }
        requires distinct { AreDistinct P.known.exact (named self.old) }
        requires fits { (m i : ℕ) → served self.old m i ≡ true →
            BindsFit P.known.out_name P.known.in_name (named self.old) (coming self.old m)
            (λ h. (e : EndId) → H.fits holder.old e h) }
        requires takes { (c : Control) → finds self.old c →
            MayTakeFirst (H.may_take holder.old) c (given self.old) }
        requires calm { H.calm holder.old [] }
        ensures ok { IfOk result (λ found.
            ReapsOrNot (number self.old) found (moments self.old) (moments self.new)) }
        ensures succeeds { (c : Control) → finds self.old c → NoBindIsFirst c → IsOk result }
        ensures counts { CountsWith P.known.out_name (H.counts holder.old)
            (moments self.old) (moments self.new) (H.holding holder.old) }
        ensures err { OnErr result ((moments self.new ≡ moments self.old)
            × (given self.new ≡ given self.old)) }
        ensures given { TakesEnds (given self.old) (given self.new) }
        ensures brings { BringsWith P.known.out_name P.known.in_name
            (moments self.old) (moments self.new) (given self.old) (given self.new) }
        ensures grows { grows self.old self.new }
        ensures names { KeepsNames (named self.old) (named self.new) }
        ensures keeps { (number self.new ≡ number self.old)
            × KeepsUp (number self.new) (moments self.old) (moments self.new)
            (H.holding holder.old) (H.holding holder.new) };

    /// Tells that an end is at the delimiter of the pipe that it reads. Answers whether its state
    /// is one in which that is looked at; else nothing happens.
    fn delimiter<H: Holder<P>>(&mut self, alloc: Global, end: EndId, holder: &mut H) -> bool
        requires mine { HoldsEnd end (H.holding holder.old) }
        requires at { (H.holding holder.old).at_delimiter end ≡ true }
        requires has { HasWhatTheySay (number self.old) (moments self.old) (H.holding holder.old) }
        ensures found { DelimitsOrNot (number self.old) end result
            (moments self.old) (moments self.new) }
        ensures not_looked { IsNotLooked end result (moments self.old) (H.holding holder.old) }
        ensures given { given self.new ≡ given self.old }
        ensures grows { grows self.old self.new }
        ensures names { KeepsNames (named self.old) (named self.new) }
        ensures keeps { (number self.new ≡ number self.old)
            × KeepsUp (number self.new) (moments self.old) (moments self.new)
            (H.holding holder.old) (H.holding holder.new) };

    /// Looks at mailboxes, at the root's state, at how many objects live, and whether there is room
    /// for one session more. It sees nothing only where a command waits in one of these mailboxes.
    fn look(&mut self, empty: SeenEmpty) -> Option<Sight>
        ensures found { LooksOrNot (number self.old) empty result
            (moments self.old) (moments self.new) }
        ensures waits { (c : Control) → finds self.old c → IfNone result (AreEmpty c empty → ⊥) }
        ensures given { given self.new ≡ given self.old }
        ensures grows { grows self.old self.new }
        ensures names { KeepsNames (named self.old) (named self.new) }
        ensures number { number self.new ≡ number self.old };

    /// Where nothing is called, all is left.
    ghost grows_none: { (d : Self) → grows d d };
}
