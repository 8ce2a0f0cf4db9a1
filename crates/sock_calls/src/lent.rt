ghost use Rattle.std.specs.Prelude.{◌≡◌, ℕ, true, false, Some, IfOk, IsOk, OnErr, length, map};
ghost use Rattle.spec_control.specs.Held.{asker};
ghost use Rattle.spec_control.specs.OwnAsks.{MayAskOwn};
ghost use Rattle.spec_control.specs.Moments.{items_in, left_after};
ghost use Rattle.spec_control.specs.Control.{Control, place_of};
ghost use Rattle.spec_control.specs.Place.{looks};
ghost use Rattle.desk.specs.Holding.{has_end};
ghost use Rattle.desk.specs.Making.{MakesSo};
ghost use Rattle.desk.specs.Asking.{HasMarks, IsOfSockets};
ghost use Rattle.desk.specs.Coming.{is_close, AreDistinct, BindsFit, KeepsNames, SendsEnds};
ghost use Rattle.desk.specs.Desk.{HasWhatTheySay, KeepsUp, AsksOnce, GivesOrNot, DelimitsOrNot, slot_after};
ghost use Rattle.desk.specs.Desk.{CountsWith};
ghost use Rattle.desk.specs.Memory.{NoBindWaits};
ghost use Rattle.end_table.specs.Changes.{AreMakings};
ghost use Rattle.end_table.specs.Counting.{counts_of};
ghost use Rattle.end_table.specs.Others.{Leaves};
ghost use Rattle.end_table.specs.Sound.{Fits};
ghost use Rattle.sock_core.specs.Has.{holding_in};
ghost use Rattle.sock_core.specs.Noted.{AreMade, HasDone};
ghost use Rattle.sock_core.specs.Came.{HasCome};
ghost use Rattle.sock_core.specs.Standing.{standing_joins};
ghost use Rattle.sock_core.specs.Way.{way_in, KindWayOf};
ghost use Rattle.sock_calls.specs.Calls.{FitsCore};
ghost use Rattle.sock_core.specs.Since.{SinceBegan};

use crate::moving::Back;
use desk::{Delivery, Desk};
use end_table::{HeldPipes, PipeChange};
use sock_core::{Joins, Since, SockHolder, SockOver, Undoable};
use spec_control::{Reply, Req};
use std::alloc::{AllocError, Global};
use std::marker::PhantomData;
use zq_base::{EndId, Log};

/// A request of a socket that was moved together with its pipes. The stretch begins with it.
pub(crate) fn ask_lent<F, P, C, D>(
    alloc: Global,
    pipes: P,
    core: SockOver<C, P>,
    desk: &mut D,
    request: Req,
) -> Back<Result<Reply, AllocError>, P, SockOver<C, P>, Log<PipeChange<P::Out, P::In>, P>>
where
    F: Since<P, SockOver<C, P>>,
    P: HeldPipes,
    C: Joins,
    D: Desk<P>,
    requires began { SinceBegan F.began (λ s t.
        (s ≡ pipes) × (t ≡ core) × (core.number.0 ≡ F.object)) }
    requires fits { FitsCore P.known C.peers pipes core }
    requires may { MayAskOwn (items_in (D.moments desk.old)) request }
    requires makes { (c : Control) → D.finds desk.old c → MakesSo c request F.may_make }
    requires options { HasMarks request }
    requires sockets { IsOfSockets D.serves request }
    requires lent { (i : ℕ) → asker request ≡ Some i →
        (holding_in (C.kind core.kind) core).holds i ≡ true }
    requires has { HasWhatTheySay (D.number desk.old) (D.moments desk.old)
        (holding_in (C.kind core.kind) core) }
    ensures ok { IfOk result.answer (λ reply. AsksOnce (D.number desk.old) request reply
        (D.moments desk.old) (D.moments desk.new)) }
    ensures given { IfOk result.answer (λ _. SendsEnds P.known result.pipes
        (holding_in (C.kind core.kind) core) request
        (D.given desk.old) (D.given desk.new)) }
    ensures succeeds { is_close request ≡ true → IsOk result.answer }
    ensures err { OnErr result.answer ((D.moments desk.new ≡ D.moments desk.old)
        × (D.given desk.new ≡ D.given desk.old)) }
    ensures grows { D.grows desk.old desk.new }
    ensures names { KeepsNames (D.named desk.old) (D.named desk.new) }
    ensures keeps { (D.number desk.new ≡ D.number desk.old)
        × KeepsUp (D.number desk.new) (D.moments desk.old) (D.moments desk.new)
        (holding_in (C.kind core.kind) core)
        (holding_in (C.kind result.core.kind) result.core) }
    ensures fits { FitsCore P.known C.peers result.pipes result.core }
    ensures others { SinceBegan F.began (λ s t.
        Leaves P.known s t.ends result.pipes result.core.ends × (result.core.number.0 ≡ F.object)) }
    ensures does { SinceBegan F.began (λ s t.
        HasDone P.known s t.ends.places.items (map (λ x. x.0) t.sealed.items) result.did.items
        result.pipes result.core.ends.places.items (map (λ x. x.0) result.core.sealed.items)) }
    ensures tied { SinceBegan F.began (λ s t.
        F.comes ≡ false → AreMade P.known F.may_make result.did.items
        (length t.ends.places.items) result.core.ends.places.items) }
    ensures came { SinceBegan F.began (λ s t.
        ∥ HasCome P.known true F.comes s (length t.ends.places.items)
        (standing_joins t.joins.items) (way_in result.core.way.items).joined
        (standing_joins result.core.joins.items) result.did.items
        result.core.ends.places.items ∥₁) }
    ensures way { SinceBegan F.began (λ s t.
        ∥ KindWayOf C.pattern C.names C.sound C.peers t result.core ∥₁) }
    ensures rest { SinceBegan F.began (λ s t.
        C.rests t.kind → C.rests result.core.kind) }
    ensures closes { is_close request ≡ true → AreMakings result.did.items }
{
    let mut core = core;
    core.way = Log::new();
    let mut holder: SockHolder<P, C, Undoable<F>> = SockHolder {
        pipes,
        core,
        did: Log::new(),
        since: PhantomData,
    };
    let answer = desk.request::<SockHolder<P, C, Undoable<F>>>(alloc, request, &mut holder);
    let SockHolder {
        pipes,
        core,
        did,
        since: _,
    } = holder;
    Back {
        answer,
        pipes,
        core,
        did,
    }
}

/// A command of a socket that was moved together with its pipes, or none.
pub(crate) fn take_lent<F, P, C, D>(
    alloc: Global,
    pipes: P,
    core: SockOver<C, P>,
    desk: &mut D,
) -> Back<Result<Delivery, AllocError>, P, SockOver<C, P>, Log<PipeChange<P::Out, P::In>, P>>
where
    F: Since<P, SockOver<C, P>>,
    P: HeldPipes,
    C: Joins,
    D: Desk<P>,
    requires began { SinceBegan F.began (λ s t.
        (s ≡ pipes) × (t ≡ core) × (core.number.0 ≡ F.object)) }
    requires fits { FitsCore P.known C.peers pipes core }
    requires held { (holding_in (C.kind core.kind) core).holds core.number.0 ≡ true }
    requires has { HasWhatTheySay (D.number desk.old) (D.moments desk.old)
        (holding_in (C.kind core.kind) core) }
    requires comes { F.comes ≡ true }
    requires alone { (i : ℕ) → D.served desk.old
        (slot_after core.number.0 (D.moments desk.old)).0 i ≡ true → i ≡ core.number.0 }
    requires distinct { AreDistinct P.known.exact (D.named desk.old) }
    requires binds { BindsFit P.known.out_name P.known.in_name (D.named desk.old)
        (D.coming desk.old (slot_after core.number.0 (D.moments desk.old)).0)
        (λ h. Fits P.known pipes core.ends.places.items h) }
    ensures ok { IfOk result.answer (λ found. GivesOrNot (D.number desk.old)
        (slot_after core.number.0 (D.moments desk.old)) found
        (D.moments desk.old) (D.moments desk.new)) }
    ensures succeeds { (c : Control) → D.finds desk.old c →
        NoBindWaits c (slot_after core.number.0 (D.moments desk.old)).0 → IsOk result.answer }
    ensures counts { CountsWith P.known.out_name
        (λ e writer. counts_of P.known pipes core.ends e writer)
        (D.moments desk.old) (D.moments desk.new) (holding_in (C.kind core.kind) core) }
    ensures err { OnErr result.answer (D.moments desk.new ≡ D.moments desk.old) }
    ensures given { D.given desk.new ≡ D.given desk.old }
    ensures grows { D.grows desk.old desk.new }
    ensures names { KeepsNames (D.named desk.old) (D.named desk.new) }
    ensures keeps { (D.number desk.new ≡ D.number desk.old)
        × KeepsUp (D.number desk.new) (D.moments desk.old) (D.moments desk.new)
        (holding_in (C.kind core.kind) core)
        (holding_in (C.kind result.core.kind) result.core) }
    ensures fits { FitsCore P.known C.peers result.pipes result.core }
    ensures others { SinceBegan F.began (λ s t.
        Leaves P.known s t.ends result.pipes result.core.ends × (result.core.number.0 ≡ F.object)) }
    ensures does { SinceBegan F.began (λ s t.
        HasDone P.known s t.ends.places.items (map (λ x. x.0) t.sealed.items) result.did.items
        result.pipes result.core.ends.places.items (map (λ x. x.0) result.core.sealed.items)) }
    ensures came { SinceBegan F.began (λ s t.
        ∥ HasCome P.known F.undoes F.comes s (length t.ends.places.items)
        (standing_joins t.joins.items) (way_in result.core.way.items).joined
        (standing_joins result.core.joins.items) result.did.items
        result.core.ends.places.items ∥₁) }
    ensures way { SinceBegan F.began (λ s t.
        ∥ KindWayOf C.pattern C.names C.sound C.peers t result.core ∥₁) }
    ensures rest { SinceBegan F.began (λ s t.
        C.rests t.kind → C.rests result.core.kind) }
{
    let slot = desk.slot(core.number);
    let mut core = core;
    core.way = Log::new();
    let mut holder: SockHolder<P, C, F> = SockHolder {
        pipes,
        core,
        did: Log::new(),
        since: PhantomData,
    };
    let answer = desk.deliver::<SockHolder<P, C, F>>(alloc, slot, &mut holder);
    let SockHolder {
        pipes,
        core,
        did,
        since: _,
    } = holder;
    Back {
        answer,
        pipes,
        core,
        did,
    }
}

/// An end of a socket that was moved together with its pipes is at the delimiter of the pipe that it
/// reads.
pub(crate) fn meet_lent<F, P, C, D>(
    alloc: Global,
    pipes: P,
    core: SockOver<C, P>,
    desk: &mut D,
    end: EndId,
) -> Back<bool, P, SockOver<C, P>, Log<PipeChange<P::Out, P::In>, P>>
where
    F: Since<P, SockOver<C, P>>,
    P: HeldPipes,
    C: Joins,
    D: Desk<P>,
    requires began { SinceBegan F.began (λ s t.
        (s ≡ pipes) × (t ≡ core) × (core.number.0 ≡ F.object)) }
    requires fits { FitsCore P.known C.peers pipes core }
    requires held { (holding_in (C.kind core.kind) core).holds core.number.0 ≡ true }
    requires here { has_end end
        ((holding_in (C.kind core.kind) core).ends core.number.0) ≡ true }
    requires at { (holding_in (C.kind core.kind) core).at_delimiter end ≡ true }
    requires has { HasWhatTheySay (D.number desk.old) (D.moments desk.old)
        (holding_in (C.kind core.kind) core) }
    ensures found { DelimitsOrNot (D.number desk.old) end result.answer
        (D.moments desk.old) (D.moments desk.new) }
    ensures not_looked { result.answer ≡ false →
        looks (place_of (left_after core.number.0 (D.moments desk.old)) end) ≡ false }
    ensures given { D.given desk.new ≡ D.given desk.old }
    ensures grows { D.grows desk.old desk.new }
    ensures names { KeepsNames (D.named desk.old) (D.named desk.new) }
    ensures keeps { (D.number desk.new ≡ D.number desk.old)
        × KeepsUp (D.number desk.new) (D.moments desk.old) (D.moments desk.new)
        (holding_in (C.kind core.kind) core)
        (holding_in (C.kind result.core.kind) result.core) }
    ensures fits { FitsCore P.known C.peers result.pipes result.core }
    ensures others { SinceBegan F.began (λ s t.
        Leaves P.known s t.ends result.pipes result.core.ends × (result.core.number.0 ≡ F.object)) }
    ensures does { SinceBegan F.began (λ s t.
        HasDone P.known s t.ends.places.items (map (λ x. x.0) t.sealed.items) result.did.items
        result.pipes result.core.ends.places.items (map (λ x. x.0) result.core.sealed.items)) }
    ensures came { SinceBegan F.began (λ s t.
        ∥ HasCome P.known F.undoes F.comes s (length t.ends.places.items)
        (standing_joins t.joins.items) (way_in result.core.way.items).joined
        (standing_joins result.core.joins.items) result.did.items
        result.core.ends.places.items ∥₁) }
    ensures way { SinceBegan F.began (λ s t.
        ∥ KindWayOf C.pattern C.names C.sound C.peers t result.core ∥₁) }
    ensures rest { SinceBegan F.began (λ s t.
        C.rests t.kind → C.rests result.core.kind) }
{
    let mut core = core;
    core.way = Log::new();
    let mut holder: SockHolder<P, C, F> = SockHolder {
        pipes,
        core,
        did: Log::new(),
        since: PhantomData,
    };
    let answer = desk.delimiter::<SockHolder<P, C, F>>(alloc, end, &mut holder);
    let SockHolder {
        pipes,
        core,
        did,
        since: _,
    } = holder;
    Back {
        answer,
        pipes,
        core,
        did,
    }
}
