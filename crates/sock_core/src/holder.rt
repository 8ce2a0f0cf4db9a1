ghost use Rattle.std.specs.Prelude.{◌≡◌, true, false, length, map};
ghost use Rattle.end_table.specs.Giving.{AreGone};
ghost use Rattle.end_table.specs.Others.{Leaves};
ghost use Rattle.sock_core.specs.Sound.{AreSound, KeepsRoom};
ghost use Rattle.sock_core.specs.Has.{IsStopped};
ghost use Rattle.sock_core.specs.Peers.{ArePeers, AreFlagged, AreInUse};
ghost use Rattle.sock_core.specs.Noted.{WereRead, AreMade, AreSealed, HasDone};
ghost use Rattle.sock_core.specs.Came.{HasCome};
ghost use Rattle.sock_core.specs.Standing.{standing_joins};
ghost use Rattle.sock_core.specs.Way.{way_in, KindWayOf};
ghost use Rattle.sock_core.specs.declared.sock.SockCore.{SockCore};

use crate::joins::Joins;
use crate::joint::note_back;
use crate::since::{Since, Undoing};
use crate::sock::{Room, SockCore, SockOver};
use crate::turns::unjoin;
use desk::{Halves, Undoes};
use end_table::{EndTable, HeldPipes, PipeChange, find};
use std::alloc::Global;
use std::marker::{Brand, PhantomData};
use zq_base::{EndId, Log, ObjId};

/// A socket with the pipes of its ends, for a stretch of calls.
#[derive(Drop)]
pub struct SockHolder<P: HeldPipes, C: Joins, F: Since<P, SockOver<C, P>> = Brand> {
    pub pipes: P,
    pub core: SockOver<C, P>,
    /// What was done to the pipes, for proofs alone: it takes no memory.
    pub did: Log<PipeChange<P::Out, P::In>, P>,
    pub since: PhantomData<F>,
    ghost sound: { AreSound P.known pipes core.ends.rows.items core.ends.places.items },
    ghost peers: { core.is_open ≡ true → ArePeers core.ends.places.items (C.peers core.kind) },
    ghost room: { KeepsRoom core.is_open (length core.ends.places.items) core.room },
    ghost gone: { core.is_open ≡ false → AreGone core.ends.places.items },
    ghost flagged: { AreFlagged core.ends.places.items (C.peers core.kind) },
    ghost in_use: { AreInUse core.reads core.ends.places.items },
    ghost settled_are: { WereRead core.ends.places.items core.ends.settled.items },
    ghost sealed_are: { AreSealed core.ends.places.items (map (λ x. x.0) core.sealed.items) },
    ghost others: { (s : P) (t : SockCore C P.Waker P.Name P.Out P.In) → F.began s t →
        Leaves P.known s t.ends pipes core.ends },
    ghost stopped: { IsStopped core.stopped core.heard.items },
    ghost number: { (s : P) (t : SockCore C P.Waker P.Name P.Out P.In) → F.began s t →
        core.number.0 ≡ F.object },
    ghost done: { (s : P) (t : SockCore C P.Waker P.Name P.Out P.In) → F.began s t →
        HasDone P.known s t.ends.places.items (map (λ x. x.0) t.sealed.items) did.items pipes
        core.ends.places.items (map (λ x. x.0) core.sealed.items) },
    ghost tied: { (s : P) (t : SockCore C P.Waker P.Name P.Out P.In) → F.began s t →
        F.comes ≡ false → AreMade P.known F.may_make did.items
        (length t.ends.places.items) core.ends.places.items },
    ghost came: { (s : P) (t : SockCore C P.Waker P.Name P.Out P.In) → F.began s t →
        ∥ HasCome P.known F.undoes F.comes s (length t.ends.places.items)
        (standing_joins t.joins.items) (way_in core.way.items).joined
        (standing_joins core.joins.items) did.items core.ends.places.items ∥₁ },
    ghost way: { (s : P) (t : SockCore C P.Waker P.Name P.Out P.In) → F.began s t →
        ∥ KindWayOf C.pattern C.names C.sound C.peers t core ∥₁ },
    ghost rest: { (s : P) (t : SockCore C P.Waker P.Name P.Out P.In) → F.began s t →
        C.rests t.kind → C.rests core.kind } by { Prim.hlevel C.rests_once },
}

impl<P: HeldPipes, C: Joins> SockHolder<P, C> {
    ghost use Rattle.std.specs.Prelude.{◌≡◌, []};
    ghost use Rattle.sock_core.specs.Has.{IsNew};
    ghost use Rattle.sock_core.specs.Way.{way_in, IsCalm};

    /// An open socket without ends, of this number, with the pipes that its ends come to have. It
    /// wakes its owner by the waker.
    pub fn new(alloc: Global, pipes: P, number: ObjId, kind: C, waker: P::Waker) -> SockHolder<P, C>
        requires none { C.peers kind ≡ [] }
        ensures socket { IsNew number.0 kind result.core }
        ensures pipes { result.pipes ≡ pipes }
        ensures calm { IsCalm (way_in result.core.way.items) result.core.ends.places.items
            result.did.items [] }
    {
        SockHolder {
            pipes,
            since: PhantomData,
            core: SockCore {
                number,
                is_open: true,
                stopped: false,
                reads: false,
                kind,
                waker,
                ends: EndTable {
                    rows: Vec::new(alloc),
                    places: Vec::new(alloc),
                    settled: Log::new(),
                },
                room: Room {
                    given: Vec::new(alloc),
                    joined: Vec::new(alloc),
                },
                turns: Log::new(),
                sealed: Log::new(),
                joins: Log::new(),
                heard: Log::new(),
                way: Log::new(),
            },
            did: Log::new(),
        }
    }
}

/// A socket takes an attach back in a stretch in which attaches may be undone.
impl<P, C, F> Undoes<P> for SockHolder<P, C, F>
where
    P: HeldPipes,
    C: Joins,
    F: Undoing<P, SockOver<C, P>>,
{
    fn take_back(&mut self, o: ObjId, end: EndId) -> Halves<P::Out, P::In> {
        let _object = o;
        match find(&self.core.ends.places, end) {
            Some(place) => {
                let is_peer = self.core.ends.places[place].peer;
                unjoin(&mut self.core.kind, end.pair, place, is_peer);
                let alloc = *self.core.ends.places.allocator();
                let core = &mut self.core;
                note_back(&mut core.joins, &mut core.way, alloc);
                return end_table::take_back(&self.pipes, &mut self.core.ends, place);
            }
            None => unreachable!(),
        }
    }
}
