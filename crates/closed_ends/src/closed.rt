ghost use Rattle.closed_ends.specs.declared.sockets.ClosedSockets.{ClosedSockets};
ghost use Rattle.closed_ends.specs.Coming.{HasCome};
ghost use Rattle.closed_ends.specs.Finding.{AreIndexed};
ghost use Rattle.closed_ends.specs.Noted.{HasDoneTo};
ghost use Rattle.closed_ends.specs.Others.{Leaves};
ghost use Rattle.closed_ends.specs.Sound.{AreSound};

use crate::ending::look;
use crate::sockets::{ClosedSockets, find, none};
use crate::stretch::Stretch;
use desk::Given;
use end_table::{HeldPipes, PipeChange};
use msg_pipe::Front;
use std::alloc::Global;
use std::marker::{Brand, PhantomData};
use zq_base::{EndId, Log, ObjId};

/// The reaper's holder: the closed sockets with the pipes of their ends, for a stretch of calls.
///
/// It finds a closed socket by its number in constant time, and an end of it in few steps where those
/// of its socket stand in the order of their pairs, else by a walk over them.
#[derive(Drop)]
pub struct Closed<
    P: HeldPipes,
    F: Stretch<P, ClosedSockets<P::Name, P::Out, P::In>, Given<P::Name, P::Out, P::In>> = Brand,
> {
    pub pipes: P,
    pub closed: ClosedSockets<P::Name, P::Out, P::In>,
    /// Wakes its owner.
    pub waker: P::Waker,
    /// What was done to the pipes, for proofs alone: it takes no memory.
    pub did: Log<PipeChange<P::Out, P::In>, P>,
    pub since: PhantomData<F>,
    ghost indexed: { AreIndexed closed },
    ghost sound: { AreSound P.known pipes closed.sockets.items },
    ghost others: { (s : P) (t : ClosedSockets P.Name P.Out P.In) → F.began s t →
        Leaves P.known s t pipes closed },
    ghost done: { (s : P) (t : ClosedSockets P.Name P.Out P.In) → F.began s t →
        ∥ HasDoneTo P.known s t did.items pipes closed ∥₁ },
    ghost came: { (s : P) (t : ClosedSockets P.Name P.Out P.In) → F.began s t →
        ∥ HasCome P.known F.brings t closed ∥₁ },
}

impl<P: HeldPipes> Closed<P> {
    ghost use Rattle.std.specs.Prelude.{◌≡◌, []};

    /// No closed socket, with the pipes that the ends of closed sockets come to have.
    pub fn new(alloc: Global, pipes: P, waker: P::Waker) -> Closed<P>
        ensures none { result.closed.sockets.items ≡ [] }
        ensures logs { (result.closed.came.items ≡ []) × (result.closed.settled.items ≡ [])
            × (result.closed.turns.items ≡ []) × (result.closed.sealed.items ≡ [])
            × (result.closed.joins.items ≡ []) × (result.closed.heard.items ≡ []) }
        ensures pipes { result.pipes ≡ pipes }
    {
        Closed {
            pipes,
            closed: none(alloc),
            waker,
            did: Log::new(),
            since: PhantomData,
        }
    }
}

impl<P: HeldPipes> Closed<P> {
    ghost use Rattle.std.specs.Prelude.{◌≡◌, true};
    ghost use Rattle.msg_pipe.specs.declared.pipes.Front.TheVariants.{Delimiter};
    ghost use Rattle.desk.specs.Holding.{HearsNone, Stays, KeepsTurns, has_end};
    ghost use Rattle.closed_ends.specs.Has.{all_ends, holding_in};
    ghost use Rattle.closed_ends.specs.Ending.{LooksOnce, seals_told};

    /// Looks at the front of the pipe that an end of a closed socket reads, and takes nothing. An end
    /// that finds the delimiter has met it. It is no call of a stretch.
    pub fn look(&mut self, o: ObjId, end: EndId) -> Front
        requires here { has_end end
            ((holding_in P.known.out_name P.known.in_name self.old.closed).ends o.0) ≡ true }
        ensures looked { LooksOnce P.known self.old.pipes self.new.pipes o.0 end result
            (holding_in P.known.out_name P.known.in_name self.old.closed) }
        ensures met { result ≡ Delimiter →
            (holding_in P.known.out_name P.known.in_name self.new.closed).at_delimiter end ≡ true }
        ensures stays { Stays o.0
            (holding_in P.known.out_name P.known.in_name self.old.closed)
            (holding_in P.known.out_name P.known.in_name self.new.closed) }
        ensures turns { KeepsTurns
            (holding_in P.known.out_name P.known.in_name self.old.closed)
            (holding_in P.known.out_name P.known.in_name self.new.closed) }
        ensures heard { HearsNone
            (holding_in P.known.out_name P.known.in_name self.old.closed)
            (holding_in P.known.out_name P.known.in_name self.new.closed) }
        ensures others { Leaves P.known self.old.pipes self.old.closed
            self.new.pipes self.new.closed }
        ensures sealed { seals_told (all_ends self.new.closed.sockets.items)
            ≡ seals_told (all_ends self.old.closed.sockets.items) }
    {
        match find(&self.closed, o, end) {
            Some((socket, place)) => {
                return look(
                    &mut self.pipes,
                    &mut self.closed.sockets[socket].ends[place],
                );
            }
            None => unreachable!(),
        }
    }
}
