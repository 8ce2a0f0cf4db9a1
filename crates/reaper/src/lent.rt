ghost use Rattle.std.specs.Prelude.{◌≡◌, ℕ, true, All, IfOk, IsOk, OnOk, OnErr};
ghost use Rattle.spec_control.specs.Names.{name_of};
ghost use Rattle.desk.specs.TakingOver.{MayTakeFirst};
ghost use Rattle.ctl_plane.specs.Past.{control_of};
ghost use Rattle.desk.specs.Coming.{AreDistinct, BindsFit, TakesEnds};
ghost use Rattle.desk.specs.Memory.{NoBindIsFirst, NoBindWaits};
ghost use Rattle.desk.specs.Desk.{CountsWith, HasWhatTheySay, HoldsEnd, IsNotLooked, KeepsUp};
ghost use Rattle.plain_desk.specs.Lent.{coming_to, moments_of, MeetsOrNot};
ghost use Rattle.plain_desk.specs.Reaping.{served_by, FindsFirst, HearsFrom};
ghost use Rattle.plain_desk.specs.Waiting.{WaitsAt};
ghost use Rattle.closed_ends.specs.Counting.{counts_of};
ghost use Rattle.closed_ends.specs.Has.{holding_in};
ghost use Rattle.closed_ends.specs.Sound.{MayJoin, MayTake};
ghost use Rattle.closed_ends.specs.declared.sockets.ClosedSockets.{ClosedSockets};
ghost use Rattle.reaper.specs.Calls.{FitsClosed, ChangesClosed};
ghost use Rattle.sock_core.specs.Since.{SinceBegan};

use closed_ends::{Closed, ClosedSockets, Stretch};
use desk::{Delivery, Given};
use end_table::HeldPipes;
use plain_desk::OneDesk;
use std::alloc::{AllocError, Global};
use std::marker::PhantomData;
use zq_base::{EndId, Log, SlotId};

/// What a call of the reaper answers, whose closed sockets were moved for it, with them and their pipes.
pub(crate) struct Back<A, P, C, W> {
    pub(crate) answer: A,
    pub(crate) pipes: P,
    pub(crate) closed: C,
    pub(crate) waker: W,
}

/// A command of the reaper's, or none. The stretch begins with it.
pub(crate) fn deliver_lent<F, P>(
    alloc: Global,
    pipes: P,
    closed: ClosedSockets<P::Name, P::Out, P::In>,
    waker: P::Waker,
    desk: &mut OneDesk<P>,
) -> Back<Result<Delivery, AllocError>, P, ClosedSockets<P::Name, P::Out, P::In>, P::Waker>
where
    F: Stretch<P, ClosedSockets<P::Name, P::Out, P::In>, Given<P::Name, P::Out, P::In>>,
    P: HeldPipes,
    requires began { SinceBegan F.began (λ s t.
        (s ≡ pipes) × (t ≡ closed)) }
    requires fits { FitsClosed P.known pipes closed }
    requires lent { (m i : ℕ) → served_by desk.old m i ≡ true →
        (holding_in P.known.out_name P.known.in_name closed).holds i ≡ true }
    requires has { HasWhatTheySay desk.old.caller (moments_of desk.old)
        (holding_in P.known.out_name P.known.in_name closed) }
    requires distinct { AreDistinct P.known.exact (name_of desk.old.items) }
    requires binds { (m i : ℕ) → served_by desk.old m i ≡ true →
        BindsFit P.known.out_name P.known.in_name (name_of desk.old.items) (coming_to desk.old m)
        (λ h. MayJoin P.known pipes closed h) }
    requires takes { MayTakeFirst
        (λ o gs. MayTake P.known pipes closed gs × All (F.brings o) gs)
        (control_of desk.old.past) desk.old.past.given }
    ensures ok { IfOk result.answer (λ found. FindsFirst found desk.old desk.new) }
    ensures succeeds { NoBindIsFirst (control_of desk.old.past) → IsOk result.answer }
    ensures counts { CountsWith P.known.out_name
        (λ e writer. counts_of P.known pipes closed.sockets.items e writer)
        (moments_of desk.old) (moments_of desk.new)
        (holding_in P.known.out_name P.known.in_name closed) }
    ensures err { OnErr result.answer (desk.new ≡ desk.old) }
    ensures given { TakesEnds desk.old.past.given desk.new.past.given }
    ensures keeps { KeepsUp desk.new.caller (moments_of desk.old) (moments_of desk.new)
        (holding_in P.known.out_name P.known.in_name closed)
        (holding_in P.known.out_name P.known.in_name result.closed) }
    ensures changes { SinceBegan F.began (λ s t.
        ChangesClosed P.known F.brings s t result.pipes result.closed) }
{
    let mut holder: Closed<P, F> = Closed {
        pipes,
        closed,
        waker,
        did: Log::new(),
        since: PhantomData,
    };
    let answer = desk.deliver_first::<Closed<P, F>>(alloc, &mut holder);
    let Closed {
        pipes,
        closed,
        waker,
        did: _,
        since: _,
    } = holder;
    Back {
        answer,
        pipes,
        closed,
        waker,
    }
}

/// A command of one of the reaper's mailboxes. The stretch begins with it.
pub(crate) fn deliver_at_lent<F, P>(
    alloc: Global,
    pipes: P,
    closed: ClosedSockets<P::Name, P::Out, P::In>,
    waker: P::Waker,
    desk: &mut OneDesk<P>,
    slot: SlotId,
) -> Back<Result<(), AllocError>, P, ClosedSockets<P::Name, P::Out, P::In>, P::Waker>
where
    F: Stretch<P, ClosedSockets<P::Name, P::Out, P::In>, Given<P::Name, P::Out, P::In>>,
    P: HeldPipes,
    requires began { SinceBegan F.began (λ s t.
        (s ≡ pipes) × (t ≡ closed)) }
    requires fits { FitsClosed P.known pipes closed }
    requires waits { WaitsAt slot desk.old }
    requires lent { (m i : ℕ) → served_by desk.old m i ≡ true →
        (holding_in P.known.out_name P.known.in_name closed).holds i ≡ true }
    requires has { HasWhatTheySay desk.old.caller (moments_of desk.old)
        (holding_in P.known.out_name P.known.in_name closed) }
    requires distinct { AreDistinct P.known.exact (name_of desk.old.items) }
    requires binds { (m i : ℕ) → served_by desk.old m i ≡ true →
        BindsFit P.known.out_name P.known.in_name (name_of desk.old.items) (coming_to desk.old m)
        (λ h. MayJoin P.known pipes closed h) }
    requires takes { MayTakeFirst
        (λ o gs. MayTake P.known pipes closed gs × All (F.brings o) gs)
        (control_of desk.old.past) desk.old.past.given }
    ensures ok { OnOk result.answer (HearsFrom slot desk.old desk.new) }
    ensures succeeds { NoBindWaits (control_of desk.old.past) slot.0 → IsOk result.answer }
    ensures counts { CountsWith P.known.out_name
        (λ e writer. counts_of P.known pipes closed.sockets.items e writer)
        (moments_of desk.old) (moments_of desk.new)
        (holding_in P.known.out_name P.known.in_name closed) }
    ensures err { OnErr result.answer (desk.new ≡ desk.old) }
    ensures given { TakesEnds desk.old.past.given desk.new.past.given }
    ensures keeps { KeepsUp desk.new.caller (moments_of desk.old) (moments_of desk.new)
        (holding_in P.known.out_name P.known.in_name closed)
        (holding_in P.known.out_name P.known.in_name result.closed) }
    ensures changes { SinceBegan F.began (λ s t.
        ChangesClosed P.known F.brings s t result.pipes result.closed) }
{
    let mut holder: Closed<P, F> = Closed {
        pipes,
        closed,
        waker,
        did: Log::new(),
        since: PhantomData,
    };
    let answer = desk.deliver_at::<Closed<P, F>>(alloc, slot, &mut holder);
    let Closed {
        pipes,
        closed,
        waker,
        did: _,
        since: _,
    } = holder;
    Back {
        answer,
        pipes,
        closed,
        waker,
    }
}

/// An end of a closed socket is at the delimiter of the pipe that it reads. The stretch begins with
/// that.
pub(crate) fn meet_lent<F, P>(
    alloc: Global,
    pipes: P,
    closed: ClosedSockets<P::Name, P::Out, P::In>,
    waker: P::Waker,
    desk: &mut OneDesk<P>,
    end: EndId,
) -> Back<bool, P, ClosedSockets<P::Name, P::Out, P::In>, P::Waker>
where
    F: Stretch<P, ClosedSockets<P::Name, P::Out, P::In>, Given<P::Name, P::Out, P::In>>,
    P: HeldPipes,
    requires began { SinceBegan F.began (λ s t.
        (s ≡ pipes) × (t ≡ closed)) }
    requires fits { FitsClosed P.known pipes closed }
    requires mine { HoldsEnd end (holding_in P.known.out_name P.known.in_name closed) }
    requires at { (holding_in P.known.out_name P.known.in_name closed).at_delimiter end ≡ true }
    requires has { HasWhatTheySay desk.old.caller (moments_of desk.old)
        (holding_in P.known.out_name P.known.in_name closed) }
    ensures found { MeetsOrNot end result.answer desk.old desk.new }
    ensures not_looked { IsNotLooked end result.answer (moments_of desk.old)
        (holding_in P.known.out_name P.known.in_name closed) }
    ensures keeps { KeepsUp desk.new.caller (moments_of desk.old) (moments_of desk.new)
        (holding_in P.known.out_name P.known.in_name closed)
        (holding_in P.known.out_name P.known.in_name result.closed) }
    ensures changes { SinceBegan F.began (λ s t.
        ChangesClosed P.known F.brings s t result.pipes result.closed) }
{
    let mut holder: Closed<P, F> = Closed {
        pipes,
        closed,
        waker,
        did: Log::new(),
        since: PhantomData,
    };
    let answer = desk.delimiter::<Closed<P, F>>(alloc, end, &mut holder);
    let Closed {
        pipes,
        closed,
        waker,
        did: _,
        since: _,
    } = holder;
    Back {
        answer,
        pipes,
        closed,
        waker,
    }
}
