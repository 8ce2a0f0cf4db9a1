ghost use Rattle.std.specs.Prelude.{◌≡◌, ℕ, true, IfOk, IsOk, OnOk, OnErr};
ghost use Rattle.spec_control.specs.Names.{name_of};
ghost use Rattle.msg_pipe.specs.declared.pipes.Front.TheVariants.{Delimiter};
ghost use Rattle.desk.specs.Holding.{has_end, HearsNone, KeepsTurns, Stays};
ghost use Rattle.desk.specs.TakingOver.{MayTakeFirst};
ghost use Rattle.ctl_plane.specs.Past.{control_of};
ghost use Rattle.desk.specs.Coming.{AreDistinct, BindsFit, TakesEnds};
ghost use Rattle.desk.specs.Memory.{NoBindIsFirst, NoBindWaits};
ghost use Rattle.desk.specs.Desk.{CountsWith, HasWhatTheySay, HoldsEnd, IsNotLooked, KeepsUp};
ghost use Rattle.plain_desk.specs.Lent.{coming_to, moments_of, MeetsOrNot};
ghost use Rattle.plain_desk.specs.Reaping.{served_by, FindsFirst, HearsFrom};
ghost use Rattle.plain_desk.specs.Waiting.{WaitsAt};
ghost use Rattle.closed_ends.specs.Coming.{IsBrought};
ghost use Rattle.closed_ends.specs.Counting.{counts_of};
ghost use Rattle.closed_ends.specs.Ending.{LooksOnce, seals_told};
ghost use Rattle.closed_ends.specs.Has.{all_ends, holding_in};
ghost use Rattle.closed_ends.specs.Others.{Leaves};
ghost use Rattle.closed_ends.specs.Sound.{MayJoin, MayTake};
ghost use Rattle.reaper.specs.Calls.{FitsClosed, ChangesClosed};

use crate::lent::{Back, deliver_at_lent, deliver_lent, meet_lent};
use closed_ends::{Closed, ClosedSockets, none};
use desk::Delivery;
use end_table::HeldPipes;
use msg_pipe::Front;
use plain_desk::OneDesk;
use std::alloc::{AllocError, Global};
use std::marker::{Brand, PhantomData};
use std::mem;
use zq_base::{EndId, Log, ObjId, SlotId};

/// Processes the oldest command of the first of the reaper's mailboxes that is not empty, or finds all
/// of them empty. Want of memory leaves the command where it was; only a bind takes any. It costs what
/// the desk's call does: the pipes and the closed sockets are lent to it, not copied.
pub fn deliver_first<P>(
    alloc: Global,
    pipes: &mut P,
    closed: &mut ClosedSockets<P::Name, P::Out, P::In>,
    waker: &P::Waker,
    desk: &mut OneDesk<P>,
) -> Result<Delivery, AllocError>
where
    P: HeldPipes,
    requires fits { FitsClosed P.known pipes.old closed.old }
    requires lent { (m i : ℕ) → served_by desk.old m i ≡ true →
        (holding_in P.known.out_name P.known.in_name closed.old).holds i ≡ true }
    requires has { HasWhatTheySay desk.old.caller (moments_of desk.old)
        (holding_in P.known.out_name P.known.in_name closed.old) }
    requires distinct { AreDistinct P.known.exact (name_of desk.old.items) }
    requires binds { (m i : ℕ) → served_by desk.old m i ≡ true →
        BindsFit P.known.out_name P.known.in_name (name_of desk.old.items) (coming_to desk.old m)
        (λ h. MayJoin P.known pipes.old closed.old h) }
    requires takes { MayTakeFirst (λ o gs. MayTake P.known pipes.old closed.old gs)
        (control_of desk.old.past) desk.old.past.given }
    ensures ok { IfOk result (λ found. FindsFirst found desk.old desk.new) }
    ensures succeeds { NoBindIsFirst (control_of desk.old.past) → IsOk result }
    ensures counts { CountsWith P.known.out_name
        (λ e writer. counts_of P.known pipes.old closed.old.sockets.items e writer)
        (moments_of desk.old) (moments_of desk.new)
        (holding_in P.known.out_name P.known.in_name closed.old) }
    ensures err { OnErr result (desk.new ≡ desk.old) }
    ensures given { TakesEnds desk.old.past.given desk.new.past.given }
    ensures keeps { KeepsUp desk.new.caller (moments_of desk.old) (moments_of desk.new)
        (holding_in P.known.out_name P.known.in_name closed.old)
        (holding_in P.known.out_name P.known.in_name closed.new) }
    ensures changes { ChangesClosed P.known
        (IsBrought (control_of desk.old.past) desk.old.past.given)
        pipes.old closed.old pipes.new closed.new }
{
    let lent = mem::replace(pipes, P::none(alloc));
    let moved = mem::replace(closed, none(alloc));
    let woken = P::same_waker(waker);
    let Back {
        answer,
        pipes: lent,
        closed: moved,
        waker: _,
    } = deliver_lent::<Brand, P>(alloc, lent, moved, woken, desk);
    *pipes = lent;
    *closed = moved;
    answer
}

/// Processes the oldest command of one of the reaper's mailboxes, in which one waits. Want of memory
/// leaves the command where it was; only a bind takes any. It costs what the desk's call does.
pub fn deliver_at<P>(
    alloc: Global,
    pipes: &mut P,
    closed: &mut ClosedSockets<P::Name, P::Out, P::In>,
    waker: &P::Waker,
    desk: &mut OneDesk<P>,
    slot: SlotId,
) -> Result<(), AllocError>
where
    P: HeldPipes,
    requires fits { FitsClosed P.known pipes.old closed.old }
    requires waits { WaitsAt slot desk.old }
    requires lent { (m i : ℕ) → served_by desk.old m i ≡ true →
        (holding_in P.known.out_name P.known.in_name closed.old).holds i ≡ true }
    requires has { HasWhatTheySay desk.old.caller (moments_of desk.old)
        (holding_in P.known.out_name P.known.in_name closed.old) }
    requires distinct { AreDistinct P.known.exact (name_of desk.old.items) }
    requires binds { (m i : ℕ) → served_by desk.old m i ≡ true →
        BindsFit P.known.out_name P.known.in_name (name_of desk.old.items) (coming_to desk.old m)
        (λ h. MayJoin P.known pipes.old closed.old h) }
    requires takes { MayTakeFirst (λ o gs. MayTake P.known pipes.old closed.old gs)
        (control_of desk.old.past) desk.old.past.given }
    ensures ok { OnOk result (HearsFrom slot desk.old desk.new) }
    ensures succeeds { NoBindWaits (control_of desk.old.past) slot.0 → IsOk result }
    ensures counts { CountsWith P.known.out_name
        (λ e writer. counts_of P.known pipes.old closed.old.sockets.items e writer)
        (moments_of desk.old) (moments_of desk.new)
        (holding_in P.known.out_name P.known.in_name closed.old) }
    ensures err { OnErr result (desk.new ≡ desk.old) }
    ensures given { TakesEnds desk.old.past.given desk.new.past.given }
    ensures keeps { KeepsUp desk.new.caller (moments_of desk.old) (moments_of desk.new)
        (holding_in P.known.out_name P.known.in_name closed.old)
        (holding_in P.known.out_name P.known.in_name closed.new) }
    ensures changes { ChangesClosed P.known
        (IsBrought (control_of desk.old.past) desk.old.past.given)
        pipes.old closed.old pipes.new closed.new }
{
    let lent = mem::replace(pipes, P::none(alloc));
    let moved = mem::replace(closed, none(alloc));
    let woken = P::same_waker(waker);
    let Back {
        answer,
        pipes: lent,
        closed: moved,
        waker: _,
    } = deliver_at_lent::<Brand, P>(alloc, lent, moved, woken, desk, slot);
    *pipes = lent;
    *closed = moved;
    answer
}

/// Tells that an end of a closed socket is at the delimiter of the pipe that it reads. Answers whether
/// its state is one in which that is looked at; else nothing happens. It costs what the desk's call does.
pub fn meet<P>(
    alloc: Global,
    pipes: &mut P,
    closed: &mut ClosedSockets<P::Name, P::Out, P::In>,
    waker: &P::Waker,
    desk: &mut OneDesk<P>,
    end: EndId,
) -> bool
where
    P: HeldPipes,
    requires fits { FitsClosed P.known pipes.old closed.old }
    requires mine { HoldsEnd end (holding_in P.known.out_name P.known.in_name closed.old) }
    requires at { (holding_in P.known.out_name P.known.in_name closed.old).at_delimiter end ≡ true }
    requires has { HasWhatTheySay desk.old.caller (moments_of desk.old)
        (holding_in P.known.out_name P.known.in_name closed.old) }
    ensures found { MeetsOrNot end result desk.old desk.new }
    ensures not_looked { IsNotLooked end result (moments_of desk.old)
        (holding_in P.known.out_name P.known.in_name closed.old) }
    ensures keeps { KeepsUp desk.new.caller (moments_of desk.old) (moments_of desk.new)
        (holding_in P.known.out_name P.known.in_name closed.old)
        (holding_in P.known.out_name P.known.in_name closed.new) }
    ensures changes { ChangesClosed P.known
        (IsBrought (control_of desk.old.past) desk.old.past.given)
        pipes.old closed.old pipes.new closed.new }
{
    let lent = mem::replace(pipes, P::none(alloc));
    let moved = mem::replace(closed, none(alloc));
    let woken = P::same_waker(waker);
    let Back {
        answer,
        pipes: lent,
        closed: moved,
        waker: _,
    } = meet_lent::<Brand, P>(alloc, lent, moved, woken, desk, end);
    *pipes = lent;
    *closed = moved;
    answer
}

/// Looks at the front of the pipe that an end of a closed socket reads, and takes nothing. An end that
/// finds the delimiter has met it. It costs the finding of the end, and a look at the pipe.
pub fn look<P>(
    alloc: Global,
    pipes: &mut P,
    closed: &mut ClosedSockets<P::Name, P::Out, P::In>,
    waker: &P::Waker,
    o: ObjId,
    end: EndId,
) -> Front
where
    P: HeldPipes,
    requires fits { FitsClosed P.known pipes.old closed.old }
    requires here { has_end end
        ((holding_in P.known.out_name P.known.in_name closed.old).ends o.0) ≡ true }
    ensures looked { LooksOnce P.known pipes.old pipes.new o.0 end result
        (holding_in P.known.out_name P.known.in_name closed.old) }
    ensures met { result ≡ Delimiter →
        (holding_in P.known.out_name P.known.in_name closed.new).at_delimiter end ≡ true }
    ensures stays { Stays o.0 (holding_in P.known.out_name P.known.in_name closed.old)
        (holding_in P.known.out_name P.known.in_name closed.new) }
    ensures turns { KeepsTurns (holding_in P.known.out_name P.known.in_name closed.old)
        (holding_in P.known.out_name P.known.in_name closed.new) }
    ensures heard { HearsNone (holding_in P.known.out_name P.known.in_name closed.old)
        (holding_in P.known.out_name P.known.in_name closed.new) }
    ensures others { Leaves P.known pipes.old closed.old pipes.new closed.new }
    ensures sealed { seals_told (all_ends closed.new.sockets.items)
        ≡ seals_told (all_ends closed.old.sockets.items) }
    ensures fits { FitsClosed P.known pipes.new closed.new }
{
    let mut holder: Closed<P> = Closed {
        pipes: mem::replace(pipes, P::none(alloc)),
        closed: mem::replace(closed, none(alloc)),
        waker: P::same_waker(waker),
        did: Log::new(),
        since: PhantomData,
    };
    let found = holder.look(o, end);
    let Closed {
        pipes: lent,
        closed: moved,
        waker: _,
        did: _,
        since: _,
    } = holder;
    *pipes = lent;
    *closed = moved;
    found
}
