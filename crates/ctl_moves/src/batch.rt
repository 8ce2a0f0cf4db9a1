ghost use Rattle.std.specs.Prelude.{◌≡◌, ◌+◌, ◌++◌, ◌∷◌, [], ℕ, false, IfOk};
ghost use Rattle.spec_control.specs.Control.{end_of};
ghost use Rattle.ctl_moves.specs.JoinNoting.{joins_named, pipes_named};
ghost use Rattle.ctl_moves.specs.Batch.{FitsMore, drawn_with};

use crate::first::FirstMade;
use crate::joining_ends::FirstEnd;
use crate::notes::Notes;
use crate::owners::Owners;
use crate::papers::Papers;
use desk::NamedHalves;
use std::alloc::{AllocError, Global};
use std::collections::VecDeque;
use zq_base::{Attached, EndId, Octets, PairId};

/// A pair of which all is taken that its making takes: its number, its room, its pipes, and the
/// place of the binding socket's end, which its kind has answered to.
#[derive(Drop)]
pub struct Drawn<N, O, I> {
    /// The binding socket, whose end is attached first, and the connecting one.
    pub o: Owners,
    pub pair: PairId,
    /// The identity of the binding socket, for the other one.
    pub identity: Octets,
    pub answer: Attached,
    /// The halves of the connecting socket's end.
    pub other: NamedHalves<N, O, I>,
}

/// The pairs that a bind has drawn so far, in order, with what is noted of them.
#[derive(Drop)]
pub struct Batch<N, O, I> {
    pub drawn: VecDeque<Drawn<N, O, I>>,
    pub notes: Notes<N>,
}

impl<N: Drop, O: Drop, I: Drop> Batch<N, O, I> {
    /// None yet, with room for so many.
    pub fn with_room(alloc: Global, pairs: u32) -> Result<Batch<N, O, I>, AllocError>
        ensures room { IfOk result (λ b. FitsMore pairs b) }
        ensures drawn { IfOk result (λ b. b.drawn.items ≡ []) }
        ensures joined { IfOk result (λ b. b.notes.joined.items ≡ []) }
        ensures opened { IfOk result (λ b. b.notes.opened.items ≡ []) }
    {
        let drawn = VecDeque::with_capacity(alloc, pairs as usize)?;
        let notes = Notes::with_room(alloc, pairs)?;
        Ok(Batch { drawn, notes })
    }

    // A pair more, whose first end is attached, with what is noted of it, in room that was kept.
    pub(crate) fn push(&mut self, o: Owners, pair: PairId, made: FirstMade<N, O, I>)
        requires fits { FitsMore 1 self.old }
        ensures drawn { self.new.drawn.items
            ≡ self.old.drawn.items ++ drawn_with o pair made ∷ [] }
        ensures joined { self.new.notes.joined.items ≡ self.old.notes.joined.items
            ++ joins_named (end_of pair.0 false) made.said.peer made.end.answer made.end.told ∷ [] }
        ensures opened { self.new.notes.opened.items
            ≡ self.old.notes.opened.items ++ pipes_named (end_of pair.0 false) made.end.opened }
        ensures room { (n : ℕ) → FitsMore (n + 1) self.old → FitsMore n self.new }
    {
        let FirstMade { said, end } = made;
        let Papers { identity, peer } = said;
        let FirstEnd {
            answer,
            told,
            opened,
            other,
        } = end;
        let first = EndId { pair, a: false };
        self.notes.note(first, peer, answer, told, opened);
        self.drawn.push_back_reserved(Drawn {
            o,
            pair,
            identity,
            answer,
            other,
        });
    }
}
