use crate::closed::Closed;
use crate::ending::{seal, settle, turn, yield_out};
use crate::sockets::{ClosedSockets, add, find, find_socket, join, none, note_heard, take_out};
use crate::stretch::Stretch;
use desk::{Given, Halves, Holder, Made, Notice, Parting};
use end_table::HeldPipes;
use sock_core::{note, note_seal};
use spec_control::EndState;
use std::alloc::{AllocError, AllocFailed, Global};
use std::collections::VecDeque;
use zq_base::{Address, Attached, EndId, Kind, ObjId, Octets, Options, Seq, Settled};

/// A reaper makes no pair. An end whose bind was on its way joins a closed socket still, and is no
/// peer of any kind.
impl<P, F> Holder<P> for Closed<P, F>
where
    P: HeldPipes,
    F: Stretch<P, ClosedSockets<P::Name, P::Out, P::In>, Given<P::Name, P::Out, P::In>>,
{
    ghost use Rattle.std.specs.Prelude.{◌≡◌, ◌∷◌, [], true, false, All, map, OnOk, OnErr, IfOk, IfErr};
    ghost use Rattle.zq_base.specs.declared.ids.EndId.{EndId};
    ghost use Rattle.desk.specs.Holding.{held_with, held_optional, held_given};
    ghost use Rattle.desk.specs.Holding.{Joined, BeginsActive, MayRefuse, Stays, KeepsTurns};
    ghost use Rattle.desk.specs.Holding.{HasNowhere, HearsMore, HearsNone, JoinsBy, joining_with};
    ghost use Rattle.desk.specs.Holding.{IsPlugged, Begins, AreAtDelimiter, writes_in};
    ghost use Rattle.desk.specs.Holding.{joins_optional, states_optional, states_given, writes_optional};
    ghost use Rattle.desk.specs.TakingOver.{ComeApart};
    ghost use Rattle.desk.specs.declared.notice.Notice.TheVariants.{Plug};
    ghost use Rattle.closed_ends.specs.Counting.{counts_of};
    ghost use Rattle.closed_ends.specs.Has.{holding_in};
    ghost use Rattle.closed_ends.specs.Sound.{MayJoin, MayTake};

    ghost holding = { λ s. holding_in P.known.out_name P.known.in_name s.closed };

    ghost pipes = { λ s. s.pipes };

    ghost counts = { λ s e writer. counts_of P.known s.pipes s.closed.sockets.items e writer };

    ghost may_make = { λ e w r. Unit {0} };

    ghost fits = { λ s e h. MayJoin P.known s.pipes s.closed h };

    ghost serves = { false };

    ghost reaps = { true };

    ghost gives = { false };

    ghost may_take = { λ s o gs. MayTake P.known s.pipes s.closed gs × All (F.brings o) gs };

    ghost calm = { λ s came. Unit {0} };

    fn make(
        &mut self,
        _alloc: Global,
        o: ObjId,
        end: EndId,
        _written: u32,
        _read: u32,
        _mine: &P::Waker,
        _other: &P::Waker,
    ) -> Result<Made<P::Out, P::In>, AllocError> {
        let _unread = (o, end);
        Err(AllocError)
    }

    fn attach(
        &mut self,
        _alloc: Global,
        o: ObjId,
        end: EndId,
        identity: &Octets,
        halves: Halves<P::Out, P::In>,
    ) -> Result<Attached, AllocFailed<Halves<P::Out, P::In>>>
        requires here { (holding_in P.known.out_name P.known.in_name self.old.closed).holds o.0 ≡ true }
        requires new { HasNowhere end
            (holding_in P.known.out_name P.known.in_name self.old.closed) }
        requires fits { MayJoin P.known self.old.pipes self.old.closed halves }
        ensures ok { OnOk result (Joined o.0 (held_with P.known.out_name P.known.in_name end halves)
            (holding_in P.known.out_name P.known.in_name self.old.closed)
            (holding_in P.known.out_name P.known.in_name self.new.closed)) }
        ensures turns { OnOk result (BeginsActive end
            (holding_in P.known.out_name P.known.in_name self.old.closed)
            (holding_in P.known.out_name P.known.in_name self.new.closed)) }
        ensures joins { IfOk result (λ a. JoinsBy (joining_with P.known.out_name P.known.in_name
            end identity.now halves a ∷ [])
            (holding_in P.known.out_name P.known.in_name self.old.closed)
            (holding_in P.known.out_name P.known.in_name self.new.closed)) }
        ensures refuses { IfOk result (λ a. MayRefuse
            ((holding_in P.known.out_name P.known.in_name self.old.closed).kind o.0) a) }
        ensures err { IfErr result (λ e. (e.value ≡ halves)
            × Stays o.0 (holding_in P.known.out_name P.known.in_name self.old.closed)
            (holding_in P.known.out_name P.known.in_name self.new.closed)
            × KeepsTurns (holding_in P.known.out_name P.known.in_name self.old.closed)
            (holding_in P.known.out_name P.known.in_name self.new.closed)) }
        ensures heard { HearsNone
            (holding_in P.known.out_name P.known.in_name self.old.closed)
            (holding_in P.known.out_name P.known.in_name self.new.closed) }
    {
        match find_socket(&self.closed, o) {
            Some(socket) => match join::<P>(&mut self.closed, o, socket, end, identity, halves) {
                Ok(()) => return Ok(Attached::Yes),
                Err(refused) => return Err(refused),
            },
            None => unreachable!(),
        }
    }

    fn set_state(&mut self, o: ObjId, end: EndId, state: EndState) {
        match find(&self.closed, o, end) {
            Some((socket, place)) => {
                let was = self.closed.sockets[socket].ends[place].state;
                note(&mut self.closed.turns, end, was, state);
                turn(&mut self.closed.sockets[socket].ends[place], state);
                return;
            }
            None => unreachable!(),
        }
    }

    fn seal(&mut self, o: ObjId, end: EndId) {
        match find(&self.closed, o, end) {
            Some((socket, place)) => {
                seal(
                    &mut self.pipes,
                    &mut self.closed.sockets[socket].ends[place],
                    &mut self.did,
                );
                note_seal(&mut self.closed.sealed, end);
                return;
            }
            None => unreachable!(),
        }
    }

    fn yield_writer(&mut self, o: ObjId, end: EndId) -> P::Out {
        match find(&self.closed, o, end) {
            Some((socket, place)) => match yield_out(
                &mut self.pipes,
                &mut self.closed.sockets[socket].ends[place],
                &mut self.did,
            ) {
                Some(out) => return out,
                None => unreachable!(),
            },
            None => unreachable!(),
        }
    }

    fn settle(&mut self, o: ObjId, end: EndId, writer: P::Out) -> Settled {
        match find(&self.closed, o, end) {
            Some((socket, place)) => {
                let name = P::name(&writer);
                self.closed.settled = self.closed.settled.and(&name, &());
                let given = take_out(&mut self.closed.sockets[socket].ends, place);
                return settle(&mut self.pipes, given, writer, &mut self.did);
            }
            None => unreachable!(),
        }
    }

    fn stop(&mut self, o: ObjId) {
        note_heard(&mut self.closed.heard, &Notice::Stop(o));
    }

    fn waker(&self) -> P::Waker {
        P::same_waker(&self.waker)
    }

    fn plug(
        &mut self,
        _alloc: Global,
        o: ObjId,
        kind: Kind,
        _at: &Address,
        options: &Options,
        end: Option<(EndId, Halves<P::Out, P::In>)>,
    ) -> Result<(), AllocFailed<Option<(EndId, Halves<P::Out, P::In>)>>>
        ensures ok { OnOk result (IsPlugged o.0
            (held_optional P.known.out_name P.known.in_name end)
            (holding_in P.known.out_name P.known.in_name self.old.closed)
            (holding_in P.known.out_name P.known.in_name self.new.closed)) }
        ensures turns { OnOk result (Begins (states_optional end)
            (holding_in P.known.out_name P.known.in_name self.old.closed)
            (holding_in P.known.out_name P.known.in_name self.new.closed)) }
        ensures joins { OnOk result (JoinsBy
            (joins_optional P.known.out_name P.known.in_name end)
            (holding_in P.known.out_name P.known.in_name self.old.closed)
            (holding_in P.known.out_name P.known.in_name self.new.closed)) }
        ensures writing { OnOk result ((e : EndId) →
            (holding_in P.known.out_name P.known.in_name self.new.closed).writes e
            ≡ writes_optional end e
            ((holding_in P.known.out_name P.known.in_name self.old.closed).writes e)) }
        ensures err { IfErr result (λ e. (e.value ≡ end)
            × Stays o.0 (holding_in P.known.out_name P.known.in_name self.old.closed)
            (holding_in P.known.out_name P.known.in_name self.new.closed)
            × KeepsTurns (holding_in P.known.out_name P.known.in_name self.old.closed)
            (holding_in P.known.out_name P.known.in_name self.new.closed)) }
        ensures left { OnOk result (
            (holding_in P.known.out_name P.known.in_name self.new.closed).output_left o.0
            ≡ false) }
        ensures heard { OnOk result (HearsMore (Plug o kind options.now ∷ [])
            (holding_in P.known.out_name P.known.in_name self.old.closed)
            (holding_in P.known.out_name P.known.in_name self.new.closed)) }
        ensures unheard { OnErr result (HearsNone
            (holding_in P.known.out_name P.known.in_name self.old.closed)
            (holding_in P.known.out_name P.known.in_name self.new.closed)) }
    {
        let _unread = (o, kind);
        let _options = options;
        Err(AllocFailed { value: end })
    }

    fn told(&mut self, o: ObjId) {
        note_heard(&mut self.closed.heard, &Notice::Term(o));
    }

    fn output_left(&self, o: ObjId) -> bool {
        let _object = o;
        false
    }

    fn over(&mut self, o: ObjId) {
        note_heard(&mut self.closed.heard, &Notice::Over(o));
    }

    /// It gives none, since it has no open socket.
    fn give_ends(&mut self, o: ObjId) -> Parting<P::Name, P::Out, P::In>
        ensures none { result.ends.items ≡ [] }
    {
        let _object = o;
        let alloc = *self.closed.sockets.allocator();
        Parting {
            ends: Vec::new(alloc),
            joined: Seq::new(alloc),
        }
    }

    fn take_ends(&mut self, o: ObjId, ends: Vec<Given<P::Name, P::Out, P::In>>)
        requires new { (holding_in P.known.out_name P.known.in_name self.old.closed).holds o.0 ≡ false }
        requires may { MayTake P.known self.old.pipes self.old.closed ends.items
            × All (F.brings o.0) ends.items }
        requires apart { ComeApart P.known.exact
            (map (held_given P.known.out_name P.known.in_name) ends.items)
            (holding_in P.known.out_name P.known.in_name self.old.closed) }
        ensures all { true ≡ true → IsPlugged o.0
            (map (held_given P.known.out_name P.known.in_name) ends.items)
            (holding_in P.known.out_name P.known.in_name self.old.closed)
            (holding_in P.known.out_name P.known.in_name self.new.closed) }
        ensures at { true ≡ true → AreAtDelimiter
            (holding_in P.known.out_name P.known.in_name self.new.closed).at_delimiter ends.items }
        ensures turns { true ≡ true → Begins (states_given ends.items)
            (holding_in P.known.out_name P.known.in_name self.old.closed)
            (holding_in P.known.out_name P.known.in_name self.new.closed) }
        ensures joins { (holding_in P.known.out_name P.known.in_name self.new.closed).joined
            ≡ (holding_in P.known.out_name P.known.in_name self.old.closed).joined }
        ensures writing { true ≡ true → (e : EndId) →
            (holding_in P.known.out_name P.known.in_name self.new.closed).writes e
            ≡ writes_in ends.items e ((holding_in P.known.out_name P.known.in_name self.old.closed).writes e) }
        ensures heard { HearsNone
            (holding_in P.known.out_name P.known.in_name self.old.closed)
            (holding_in P.known.out_name P.known.in_name self.new.closed) }
    {
        add::<P>(&mut self.closed, o, VecDeque::from_vec(ends));
    }
}
