use crate::awaiting::began;
use crate::holder::SockHolder;
use crate::joins::Joins;
use crate::joint::{is_taken, joint_of, note_join, note_turn};
use crate::since::Since;
use crate::sock::SockOver;
use crate::turns::{note, note_heard, note_seal, stays};
use desk::{Given, Halves, Holder, Made, Notice, Parting};
use end_table::{HeldPipes, find};
use spec_control::EndState;
use std::alloc::{AllocError, AllocFailed, Global};
use zq_base::{Address, Attached, EndId, Kind, ObjId, Octets, Options, Seq, Settled};

/// A socket has ends of its own alone, and takes in none of another owner's.
impl<P, C, F> Holder<P> for SockHolder<P, C, F>
where
    P: HeldPipes,
    C: Joins,
    F: Since<P, SockOver<C, P>>,
{
    ghost use Rattle.std.specs.Prelude.{◌≡◌, ◌∷◌, [], true, false, List, map, OnOk, OnErr, IfOk, IfErr};
    ghost use Rattle.zq_base.specs.declared.ids.EndId.{EndId};
    ghost use Rattle.desk.specs.Holding.{held_with, held_optional, held_given, Joined, BeginsActive, MayRefuse, Stays, KeepsTurns};
    ghost use Rattle.desk.specs.Holding.{HasNowhere, HearsMore, HearsNone, JoinsBy, joining_with, IsPlugged, Begins, AreAtDelimiter, writes_in, states_optional, states_given, joins_optional, writes_optional};
    ghost use Rattle.desk.specs.declared.notice.Notice.TheVariants.{Plug};
    ghost use Rattle.end_table.specs.Counting.{counts_of};
    ghost use Rattle.sock_core.specs.Has.{holding_in};
    ghost use Rattle.sock_core.specs.Noted.{FitsFor};
    ghost use Rattle.sock_core.specs.Way.{way_in, IsCalm};

    ghost holding = { λ s. holding_in (C.kind s.core.kind) s.core };

    ghost pipes = { λ s. s.pipes };

    ghost counts = { λ s e writer. counts_of P.known s.pipes s.core.ends e writer };

    ghost may_make = { F.may_make };

    ghost fits = { λ s e h. FitsFor P.known F.may_make s.did.items F.comes s.pipes
        s.core.ends.places.items e h };

    ghost serves = { false };

    ghost reaps = { false };

    ghost gives = { true };

    ghost may_take = { λ s o gs. Unit {0} };

    ghost calm = { λ s came.
        IsCalm (way_in s.core.way.items) s.core.ends.places.items s.did.items came };

    fn make(
        &mut self,
        alloc: Global,
        o: ObjId,
        end: EndId,
        written: u32,
        read: u32,
        mine: &P::Waker,
        other: &P::Waker,
    ) -> Result<Made<P::Out, P::In>, AllocError> {
        let _object = o;
        end_table::make(
            alloc,
            &mut self.pipes,
            &self.core.ends,
            &mut self.did,
            end,
            (written, read),
            mine,
            other,
        )
    }

    fn attach(
        &mut self,
        alloc: Global,
        o: ObjId,
        end: EndId,
        identity: &Octets,
        halves: Halves<P::Out, P::In>,
    ) -> Result<Attached, AllocFailed<Halves<P::Out, P::In>>>
        requires here { (holding_in (C.kind self.old.core.kind) self.old.core).holds o.0 ≡ true }
        requires new { HasNowhere end (holding_in (C.kind self.old.core.kind) self.old.core) }
        requires fits { FitsFor P.known F.may_make self.old.did.items F.comes self.old.pipes
            self.old.core.ends.places.items end halves }
        requires calm { (came : List EndId) ×
            IsCalm (way_in self.old.core.way.items) self.old.core.ends.places.items
            self.old.did.items came }
        ensures ok { OnOk result (Joined o.0 (held_with P.known.out_name P.known.in_name end halves)
            (holding_in (C.kind self.old.core.kind) self.old.core)
            (holding_in (C.kind self.new.core.kind) self.new.core)) }
        ensures turns { OnOk result (BeginsActive end
            (holding_in (C.kind self.old.core.kind) self.old.core)
            (holding_in (C.kind self.new.core.kind) self.new.core)) }
        ensures joins { IfOk result (λ a. JoinsBy (joining_with P.known.out_name P.known.in_name
            end identity.now halves a ∷ [])
            (holding_in (C.kind self.old.core.kind) self.old.core)
            (holding_in (C.kind self.new.core.kind) self.new.core)) }
        ensures refuses { IfOk result (λ a. MayRefuse
            ((holding_in (C.kind self.old.core.kind) self.old.core).kind o.0) a) }
        ensures err { IfErr result (λ e. (e.value ≡ halves)
            × Stays o.0 (holding_in (C.kind self.old.core.kind) self.old.core)
            (holding_in (C.kind self.new.core.kind) self.new.core)
            × KeepsTurns (holding_in (C.kind self.old.core.kind) self.old.core)
            (holding_in (C.kind self.new.core.kind) self.new.core)) }
        ensures heard { HearsNone
            (holding_in (C.kind self.old.core.kind) self.old.core)
            (holding_in (C.kind self.new.core.kind) self.new.core) }
        ensures calm { OnOk result ((came : List EndId) →
            IsCalm (way_in self.old.core.way.items) self.old.core.ends.places.items
            self.old.did.items came →
            IsCalm (way_in self.new.core.way.items) self.new.core.ends.places.items
            self.new.did.items (end ∷ came)) }
        ensures still { OnErr result ((came : List EndId) →
            IsCalm (way_in self.old.core.way.items) self.old.core.ends.places.items
            self.old.did.items came →
            IsCalm (way_in self.new.core.way.items) self.new.core.ends.places.items
            self.new.did.items came) }
    {
        let _object = o;
        let place = self.core.ends.places.len();
        let joint = joint_of::<P>(end, place, &halves);
        match self.core.room.keep(place) {
            Ok(()) => {}
            Err(_) => return Err(AllocFailed { value: halves }),
        }
        self.core.kind.is_sound();
        match end_table::prepare(alloc, &mut self.core.ends, end, halves) {
            Ok(row) => match self.core.kind.attach(alloc, place, identity) {
                Ok(answer) => {
                    end_table::join(&self.pipes, &mut self.core.ends, row, is_taken(answer));
                    let core = &mut self.core;
                    note_join(&mut core.joins, &mut core.way, joint, identity, answer);
                    return Ok(answer);
                }
                Err(_) => {
                    return Err(AllocFailed {
                        value: end_table::give_back(row),
                    });
                }
            },
            Err(refused) => return Err(refused),
        }
    }

    // One that is neither written nor read any more is a peer no longer.
    fn set_state(&mut self, o: ObjId, end: EndId, state: EndState) {
        let _object = o;
        match find(&self.core.ends.places, end) {
            Some(place) => {
                let was = self.core.ends.places[place].state;
                self.core.reads = began(self.core.reads, state);
                note(&mut self.core.turns, end, was, state);
                let alloc = *self.core.ends.places.allocator();
                note_turn(&mut self.core.way, alloc, end, was, state);
                let is_peer = self.core.ends.places[place].peer;
                let peer = stays(&mut self.core.kind, end.pair, place, is_peer, state);
                end_table::set_state(&self.pipes, &mut self.core.ends, place, state, peer);
                return;
            }
            None => unreachable!(),
        }
    }

    fn seal(&mut self, o: ObjId, end: EndId) {
        let _object = o;
        match find(&self.core.ends.places, end) {
            Some(place) => {
                end_table::seal(&mut self.pipes, &mut self.core.ends, &mut self.did, place);
                note_seal(&mut self.core.sealed, end);
                return;
            }
            None => unreachable!(),
        }
    }

    // It is no peer any more.
    fn yield_writer(&mut self, o: ObjId, end: EndId) -> P::Out {
        let _object = o;
        match find(&self.core.ends.places, end) {
            Some(place) => {
                return end_table::yield_writer(
                    &mut self.pipes,
                    &mut self.core.ends,
                    &mut self.did,
                    place,
                );
            }
            None => unreachable!(),
        }
    }

    fn settle(&mut self, o: ObjId, end: EndId, writer: P::Out) -> Settled {
        let _object = o;
        match find(&self.core.ends.places, end) {
            Some(place) => {
                return end_table::settle(
                    &mut self.pipes,
                    &mut self.core.ends,
                    &mut self.did,
                    place,
                    writer,
                );
            }
            None => unreachable!(),
        }
    }

    fn stop(&mut self, o: ObjId) {
        note_heard(&mut self.core.heard, &Notice::Stop(o));
        self.core.stopped = true;
    }

    fn waker(&self) -> P::Waker {
        P::same_waker(&self.core.waker)
    }

    // No listener and no session is ever a socket's.
    fn plug(
        &mut self,
        _alloc: Global,
        o: ObjId,
        kind: Kind,
        _at: &Address,
        options: &Options,
        end: Option<(EndId, Halves<P::Out, P::In>)>,
    ) -> Result<(), AllocFailed<Option<(EndId, Halves<P::Out, P::In>)>>>
        ensures ok { OnOk result (IsPlugged o.0
            (held_optional P.known.out_name P.known.in_name end)
            (holding_in (C.kind self.old.core.kind) self.old.core)
            (holding_in (C.kind self.new.core.kind) self.new.core)) }
        ensures turns { OnOk result (Begins (states_optional end)
            (holding_in (C.kind self.old.core.kind) self.old.core)
            (holding_in (C.kind self.new.core.kind) self.new.core)) }
        ensures joins { OnOk result (JoinsBy
            (joins_optional P.known.out_name P.known.in_name end)
            (holding_in (C.kind self.old.core.kind) self.old.core)
            (holding_in (C.kind self.new.core.kind) self.new.core)) }
        ensures writing { OnOk result ((e : EndId) →
            (holding_in (C.kind self.new.core.kind) self.new.core).writes e
            ≡ writes_optional end e
            ((holding_in (C.kind self.old.core.kind) self.old.core).writes e)) }
        ensures err { IfErr result (λ e. (e.value ≡ end)
            × Stays o.0 (holding_in (C.kind self.old.core.kind) self.old.core)
            (holding_in (C.kind self.new.core.kind) self.new.core)
            × KeepsTurns (holding_in (C.kind self.old.core.kind) self.old.core)
            (holding_in (C.kind self.new.core.kind) self.new.core)) }
        ensures left { OnOk result (
            (holding_in (C.kind self.new.core.kind) self.new.core).output_left o.0
            ≡ false) }
        ensures heard { OnOk result (HearsMore (Plug o kind options.now ∷ [])
            (holding_in (C.kind self.old.core.kind) self.old.core)
            (holding_in (C.kind self.new.core.kind) self.new.core)) }
        ensures unheard { OnErr result (HearsNone
            (holding_in (C.kind self.old.core.kind) self.old.core)
            (holding_in (C.kind self.new.core.kind) self.new.core)) }
    {
        let _unread = (o, kind);
        let _options = options;
        Err(AllocFailed { value: end })
    }

    fn told(&mut self, o: ObjId) {
        note_heard(&mut self.core.heard, &Notice::Term(o));
    }

    fn output_left(&self, o: ObjId) -> bool {
        let _object = o;
        false
    }

    fn over(&mut self, o: ObjId) {
        note_heard(&mut self.core.heard, &Notice::Over(o));
    }

    fn give_ends(&mut self, o: ObjId) -> Parting<P::Name, P::Out, P::In> {
        let _object = o;
        self.core.is_open = false;
        let (mut ends, mut joined) = self.core.room.hand_over();
        end_table::give_ends(&self.pipes, &mut self.core.ends, &mut ends, &mut joined);
        Parting {
            ends,
            joined: Seq::of_vec(joined),
        }
    }

    // No end of another owner is ever a socket's.
    fn take_ends(&mut self, o: ObjId, ends: Vec<Given<P::Name, P::Out, P::In>>)
        ensures all { false ≡ true → IsPlugged o.0
            (map (held_given P.known.out_name P.known.in_name) ends.items)
            (holding_in (C.kind self.old.core.kind) self.old.core)
            (holding_in (C.kind self.new.core.kind) self.new.core) }
        ensures at { false ≡ true → AreAtDelimiter
            (holding_in (C.kind self.new.core.kind) self.new.core).at_delimiter ends.items }
        ensures turns { false ≡ true → Begins (states_given ends.items)
            (holding_in (C.kind self.old.core.kind) self.old.core)
            (holding_in (C.kind self.new.core.kind) self.new.core) }
        ensures joins { (holding_in (C.kind self.new.core.kind) self.new.core).joined
            ≡ (holding_in (C.kind self.old.core.kind) self.old.core).joined }
        ensures writing { false ≡ true → (e : EndId) →
            (holding_in (C.kind self.new.core.kind) self.new.core).writes e
            ≡ writes_in ends.items e
            ((holding_in (C.kind self.old.core.kind) self.old.core).writes e) }
        ensures heard { HearsNone
            (holding_in (C.kind self.old.core.kind) self.old.core)
            (holding_in (C.kind self.new.core.kind) self.new.core) }
    {
        let _unread = (o, ends);
    }
}
