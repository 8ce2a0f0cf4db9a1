use crate::lent::{ask_lent, meet_lent, take_lent};
use crate::moving::{Back, number_of};
use desk::{Delivery, Desk};
use end_table::HeldPipes;
use sock_core::{Joins, SockOver};
use spec_control::{Reply, Req};
use std::alloc::{AllocError, Global};
use std::marker::Brand;
use std::mem;
use zq_base::EndId;

/// A socket between its calls. Its ends' pipes are lent with each of them.
#[derive(Drop)]
pub struct Socket<P: HeldPipes, C: Joins> {
    pub core: Option<SockOver<C, P>>,
}

impl<P, C> Socket<P, C>
where
    P: HeldPipes,
    C: Joins + Drop,
{
    ghost use Rattle.desk.specs.Asking.{HasMarks, IsOfSockets};
    ghost use Rattle.desk.specs.Coming.{AreDistinct, BindsFit, KeepsNames, SendsEnds, is_close};
    ghost use Rattle.desk.specs.Desk.{AsksOnce, CountsWith, DelimitsOrNot, GivesOrNot, HasWhatTheySay, KeepsUp, slot_after};
    ghost use Rattle.desk.specs.Holding.{has_end};
    ghost use Rattle.desk.specs.Making.{IsMadeFor};
    ghost use Rattle.desk.specs.Memory.{NoBindWaits};
    ghost use Rattle.sock_calls.specs.Calls.{FitsPipes, HasNone, HaveDone, LeavesOthers, MayJoin, OnlyMake, RestsThere, counts_by, holding_of, owner_of};
    ghost use Rattle.sock_calls.specs.Passing.{Passes};
    ghost use Rattle.spec_control.specs.Control.{Control, id, place_of};
    ghost use Rattle.spec_control.specs.Held.{asker};
    ghost use Rattle.spec_control.specs.Moments.{Moment, items_in, left_after};
    ghost use Rattle.spec_control.specs.OwnAsks.{MayAskOwn, known_after};
    ghost use Rattle.spec_control.specs.Place.{looks};
    ghost use Rattle.spec_control.specs.declared.request.Req.TheVariants.{Close};
    ghost use Rattle.std.specs.Prelude.{IfOk, IsOk, List, OnErr, Some, false, true, ℕ, ◌++◌, ◌≡◌};
    ghost use Rattle.zq_base.specs.declared.ids.EndId.{EndId};

    /// Makes a request of the socket's: a bind or a connect, one that strikes one of these, or its
    /// close (zmq_bind(3), zmq_connect(3), zmq_close(3)). Want of memory leaves all as it was; a close
    /// wants none.
    pub fn ask<D: Desk<P>>(
        &mut self,
        alloc: Global,
        pipes: &mut P,
        desk: &mut D,
        request: Req,
    ) -> Result<Reply, AllocError>
        requires fits { FitsPipes P.known C.peers pipes.old self.old.core }
        requires may { MayAskOwn (items_in (D.moments desk.old)) request }
        requires options { HasMarks request }
        requires sockets { IsOfSockets D.serves request }
        requires asks { asker request ≡ Some (owner_of self.old.core) }
        requires held { (holding_of C.kind self.old.core).holds (owner_of self.old.core) ≡ true }
        requires has { HasWhatTheySay (D.number desk.old) (D.moments desk.old)
            (holding_of C.kind self.old.core) }
        ensures ok { IfOk result (λ reply. AsksOnce (D.number desk.old) request reply
            (D.moments desk.old) (D.moments desk.new)) }
        ensures given { IfOk result (λ _. SendsEnds P.known pipes.new
            (holding_of C.kind self.old.core) request (D.given desk.old) (D.given desk.new)) }
        ensures succeeds { is_close request ≡ true → IsOk result }
        ensures err { OnErr result ((D.moments desk.new ≡ D.moments desk.old)
            × (D.given desk.new ≡ D.given desk.old)) }
        ensures grows { D.grows desk.old desk.new }
        ensures names { KeepsNames (D.named desk.old) (D.named desk.new) }
        ensures keeps { (D.number desk.new ≡ D.number desk.old)
            × KeepsUp (D.number desk.new) (D.moments desk.old) (D.moments desk.new)
            (holding_of C.kind self.old.core) (holding_of C.kind self.new.core) }
        ensures owner { owner_of self.new.core ≡ owner_of self.old.core }
        ensures fits { FitsPipes P.known C.peers pipes.new self.new.core }
        ensures others { LeavesOthers P.known self.old.core self.new.core pipes.old pipes.new }
        ensures does { HaveDone P.known true (λ e written read. (c : Control) × D.finds desk.old c
            × IsMadeFor c request e written read)
            self.old.core self.new.core pipes.old pipes.new }
        ensures closes { is_close request ≡ true → (done : HaveDone P.known true (λ e written read. ⊥)
            self.old.core self.new.core pipes.old pipes.new) × OnlyMake P.known true (λ e written read. ⊥)
            self.old.core self.new.core pipes.old pipes.new done }
        ensures rests { RestsThere C.rests self.old.core → RestsThere C.rests self.new.core }
        ensures passes { (more : List (Moment P.Name P.Story)) →
            D.moments desk.new ≡ D.moments desk.old ++ more →
            Passes C.pattern self.old.core self.new.core more }
    {
        match self.core.take() {
            Some(core) => {
                let lent = mem::replace(pipes, P::none(alloc));
                let Back {
                    answer,
                    pipes: lent,
                    core,
                    did: _,
                } = ask_lent::<Brand, P, C, D>(alloc, lent, core, desk, request);
                *pipes = lent;
                self.core = Some(core);
                return answer;
            }
            None => unreachable!(),
        }
    }

    /// Processes the oldest command of the socket, or finds its mailbox empty. Want of memory leaves
    /// the command where it was; only a bind takes any.
    pub fn take<D: Desk<P>>(
        &mut self,
        alloc: Global,
        pipes: &mut P,
        desk: &mut D,
    ) -> Result<Delivery, AllocError>
        requires open { (known_after (owner_of self.old.core) (items_in (D.moments desk.old))).open_socket ≡ true }
        requires held { (holding_of C.kind self.old.core).holds (owner_of self.old.core) ≡ true }
        requires has { HasWhatTheySay (D.number desk.old) (D.moments desk.old) (holding_of C.kind self.old.core) }
        requires fits { FitsPipes P.known C.peers pipes.old self.old.core }
        requires alone { (i : ℕ) → D.served desk.old
            (slot_after (owner_of self.old.core) (D.moments desk.old)).0 i ≡ true → i ≡ owner_of self.old.core }
        requires distinct { AreDistinct P.known.exact (D.named desk.old) }
        requires binds { BindsFit P.known.out_name P.known.in_name (D.named desk.old)
            (D.coming desk.old (slot_after (owner_of self.old.core) (D.moments desk.old)).0)
            (MayJoin P.known pipes.old self.old.core) }
        ensures ok { IfOk result (λ found. GivesOrNot (D.number desk.old)
            (slot_after (owner_of self.old.core) (D.moments desk.old)) found
            (D.moments desk.old) (D.moments desk.new)) }
        ensures succeeds { (c : Control) → D.finds desk.old c →
            NoBindWaits c (slot_after (owner_of self.old.core) (D.moments desk.old)).0 → IsOk result }
        ensures counts { CountsWith P.known.out_name (counts_by P.known pipes.old self.old.core)
            (D.moments desk.old) (D.moments desk.new) (holding_of C.kind self.old.core) }
        ensures err { OnErr result (D.moments desk.new ≡ D.moments desk.old) }
        ensures given { D.given desk.new ≡ D.given desk.old }
        ensures grows { D.grows desk.old desk.new }
        ensures names { KeepsNames (D.named desk.old) (D.named desk.new) }
        ensures has_still { KeepsUp (D.number desk.new) (D.moments desk.old) (D.moments desk.new)
            (holding_of C.kind self.old.core) (holding_of C.kind self.new.core) }
        ensures same { (owner_of self.new.core ≡ owner_of self.old.core)
            × (D.number desk.new ≡ D.number desk.old) }
        ensures fits { FitsPipes P.known C.peers pipes.new self.new.core }
        ensures others { LeavesOthers P.known self.old.core self.new.core
            pipes.old pipes.new }
        ensures does { HaveDone P.known false (λ e written read. ⊥)
            self.old.core self.new.core pipes.old pipes.new }
        ensures rests { RestsThere C.rests self.old.core → RestsThere C.rests self.new.core }
        ensures passes { (more : List (Moment P.Name P.Story)) →
            D.moments desk.new ≡ D.moments desk.old ++ more → Passes C.pattern self.old.core self.new.core more }
    {
        match self.core.take() {
            Some(core) => {
                let lent = mem::replace(pipes, P::none(alloc));
                let Back {
                    answer,
                    pipes: lent,
                    core,
                    did: _,
                } = take_lent::<Brand, P, C, D>(alloc, lent, core, desk);
                *pipes = lent;
                self.core = Some(core);
                return answer;
            }
            None => unreachable!(),
        }
    }

    /// Tells that one of its ends is at the delimiter of the pipe that it reads. Answers whether the
    /// end's state is one in which that is looked at; else nothing happens.
    pub fn meet<D: Desk<P>>(
        &mut self,
        alloc: Global,
        pipes: &mut P,
        desk: &mut D,
        end: EndId,
    ) -> bool
        requires open { (known_after (owner_of self.old.core) (items_in (D.moments desk.old))).open_socket ≡ true }
        requires held { (holding_of C.kind self.old.core).holds (owner_of self.old.core) ≡ true }
        requires here { has_end end ((holding_of C.kind self.old.core).ends (owner_of self.old.core)) ≡ true }
        requires at { (holding_of C.kind self.old.core).at_delimiter end ≡ true }
        requires has { HasWhatTheySay (D.number desk.old) (D.moments desk.old) (holding_of C.kind self.old.core) }
        requires fits { FitsPipes P.known C.peers pipes.old self.old.core }
        ensures found { DelimitsOrNot (D.number desk.old) end result
            (D.moments desk.old) (D.moments desk.new) }
        ensures not_looked { result ≡ false →
            looks (place_of (left_after (owner_of self.old.core) (D.moments desk.old)) end) ≡ false }
        ensures given { D.given desk.new ≡ D.given desk.old }
        ensures grows { D.grows desk.old desk.new }
        ensures names { KeepsNames (D.named desk.old) (D.named desk.new) }
        ensures has_still { KeepsUp (D.number desk.new) (D.moments desk.old) (D.moments desk.new)
            (holding_of C.kind self.old.core) (holding_of C.kind self.new.core) }
        ensures same { (owner_of self.new.core ≡ owner_of self.old.core)
            × (D.number desk.new ≡ D.number desk.old) }
        ensures fits { FitsPipes P.known C.peers pipes.new self.new.core }
        ensures others { LeavesOthers P.known self.old.core self.new.core
            pipes.old pipes.new }
        ensures does { HaveDone P.known false (λ e written read. ⊥)
            self.old.core self.new.core pipes.old pipes.new }
        ensures rests { RestsThere C.rests self.old.core → RestsThere C.rests self.new.core }
        ensures passes { (more : List (Moment P.Name P.Story)) →
            D.moments desk.new ≡ D.moments desk.old ++ more → Passes C.pattern self.old.core self.new.core more }
    {
        match self.core.take() {
            Some(core) => {
                let lent = mem::replace(pipes, P::none(alloc));
                let Back {
                    answer,
                    pipes: lent,
                    core,
                    did: _,
                } = meet_lent::<Brand, P, C, D>(alloc, lent, core, desk, end);
                *pipes = lent;
                self.core = Some(core);
                return answer;
            }
            None => unreachable!(),
        }
    }

    /// Closes the socket (zmq_close(3)): its ends are on their way to the reaper, and it has none. It
    /// takes no memory.
    pub fn close<D: Desk<P>>(
        &mut self,
        alloc: Global,
        pipes: &mut P,
        desk: &mut D,
    ) -> Result<Reply, AllocError>
        requires open { (known_after (owner_of self.old.core)
            (items_in (D.moments desk.old))).open_socket ≡ true }
        requires held { (holding_of C.kind self.old.core).holds
            (owner_of self.old.core) ≡ true }
        requires has { HasWhatTheySay (D.number desk.old) (D.moments desk.old)
            (holding_of C.kind self.old.core) }
        requires fits { FitsPipes P.known C.peers pipes.old self.old.core }
        ensures ok { IfOk result (λ reply. AsksOnce (D.number desk.old)
            (Close (id (owner_of self.old.core))) reply
            (D.moments desk.old) (D.moments desk.new)) }
        ensures succeeds { IsOk result }
        ensures none { IfOk result (λ _. HasNone self.new.core) }
        ensures given { IfOk result (λ _. SendsEnds P.known pipes.new
            (holding_of C.kind self.old.core) (Close (id (owner_of self.old.core)))
            (D.given desk.old) (D.given desk.new)) }
        ensures err { OnErr result ((D.moments desk.new ≡ D.moments desk.old)
            × (D.given desk.new ≡ D.given desk.old)) }
        ensures grows { D.grows desk.old desk.new }
        ensures names { KeepsNames (D.named desk.old) (D.named desk.new) }
        ensures has_still { KeepsUp (D.number desk.new) (D.moments desk.old) (D.moments desk.new)
            (holding_of C.kind self.old.core) (holding_of C.kind self.new.core) }
        ensures same { (owner_of self.new.core ≡ owner_of self.old.core)
            × (D.number desk.new ≡ D.number desk.old) }
        ensures fits { FitsPipes P.known C.peers pipes.new self.new.core }
        ensures others { LeavesOthers P.known self.old.core self.new.core pipes.old pipes.new }
        ensures does { (done : HaveDone P.known true (λ e written read. ⊥)
            self.old.core self.new.core pipes.old pipes.new) × OnlyMake P.known true
            (λ e written read. ⊥) self.old.core self.new.core pipes.old pipes.new done }
    {
        let request = Req::Close(number_of(&self.core));
        self.ask(alloc, pipes, desk, request)
    }
}
