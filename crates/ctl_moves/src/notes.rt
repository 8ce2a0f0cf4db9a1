ghost use Rattle.std.specs.Prelude.{◌≡◌, ◌++◌, ◌∷◌, ◌+◌, [], ℕ, IfOk};
ghost use Rattle.ctl_moves.specs.JoinNoting.{a_name, b_name, HasRoomFor, joins_named, pipes_named};

use crate::joining_ends::Names;
use spec_control::{Joining, PipeName};
use std::alloc::{AllocError, Global};
use zq_base::{Attached, EndId, Octets};

/// What is noted of the pairs that a request makes: the ends that join, and the names of the pipes.
#[derive(Drop)]
pub struct Notes<N> {
    pub joined: Vec<Joining<N>>,
    pub opened: Vec<PipeName<N>>,
}

// The names of a pair's pipes, of which the first end has side a or b: that of end a comes first.
fn by_side<N: Drop>(a: bool, names: Names<N>) -> (N, N)
    ensures a { result.0 ≡ a_name a names }
    ensures b { result.1 ≡ b_name a names }
{
    let Names { written, read } = names;
    if a {
        return (written, read);
    }
    (read, written)
}

impl<N: Drop> Notes<N> {
    /// Nothing, with room for so many pairs.
    pub fn with_room(alloc: Global, pairs: u32) -> Result<Notes<N>, AllocError>
        ensures room { IfOk result (λ n. HasRoomFor pairs n) }
        ensures joined { IfOk result (λ n. n.joined.items ≡ []) }
        ensures opened { IfOk result (λ n. n.opened.items ≡ []) }
    {
        let joined = Vec::with_capacity(alloc, pairs as usize)?;
        let opened = Vec::with_capacity(alloc, 2 * pairs as usize)?;
        Ok(Notes { joined, opened })
    }

    /// Notes a pair by its first end, in room that was kept: the names of its pipes are told twice.
    pub fn note(
        &mut self,
        first: EndId,
        peer: Octets,
        answer: Attached,
        told: Names<N>,
        opened: Names<N>,
    )
        requires room { HasRoomFor 1 self.old }
        ensures joined { self.new.joined.items
            ≡ self.old.joined.items ++ joins_named first peer answer told ∷ [] }
        ensures opened { self.new.opened.items
            ≡ self.old.opened.items ++ pipes_named first opened }
        ensures room { (n : ℕ) → HasRoomFor (n + 1) self.old → HasRoomFor n self.new }
    {
        let Names { written, read } = told;
        self.joined.push_reserved(Joining {
            end: first,
            peer,
            written,
            read,
            answer,
            met: false,
        });
        let (a, b) = by_side(first.a, opened);
        self.opened.push_reserved(PipeName {
            pipe: EndId {
                pair: first.pair,
                a: true,
            },
            name: a,
        });
        self.opened.push_reserved(PipeName {
            pipe: EndId {
                pair: first.pair,
                a: false,
            },
            name: b,
        });
    }
}
