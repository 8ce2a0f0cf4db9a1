ghost use Rattle.std.specs.Prelude.{◌≡◌, ◌++◌, ◌∷◌, [], if◌then◌else◌};
ghost use Rattle.sock_core.specs.Peers.{is_taken};
ghost use Rattle.desk.specs.Holding.{is_state};
ghost use Rattle.sock_core.specs.Standing.{joining_as, standing_joins, without_last};
ghost use Rattle.sock_core.specs.Way.{way_in, with_came, with_undone, with_turned};

use crate::turns::is_same;
use desk::Halves;
use end_table::HeldPipes;
use spec_control::EndState;
use std::alloc::Global;
use zq_base::{Attached, EndId, Log, Octets};

/// An end that joins, with the names of its pipes.
#[derive(Drop)]
pub struct Joint<N> {
    pub end: EndId,
    /// Where it is attached.
    pub place: usize,
    /// The pipe that it writes.
    pub written: N,
    /// The pipe that it reads.
    pub read: N,
}

/// What is noted of the ends of a socket, beside the identity of a peer that comes.
#[derive(Drop)]
pub enum JoinNote<N> {
    /// It joined, and its kind gave this answer.
    Joined(Joint<N>, Attached),
    /// The one that joined last of those that still stand was taken back.
    TakenBack,
    /// It came to this state.
    Turned(EndId, EndState),
}

/// An end at its place, with the names of the pipes of its halves.
pub(crate) fn joint_of<P: HeldPipes>(
    end: EndId,
    place: usize,
    halves: &Halves<P::Out, P::In>,
) -> Joint<P::Name>
    ensures end { result.end ≡ end }
    ensures place { result.place ≡ place }
    ensures written { result.written ≡ P.known.out_name halves.now.out }
    ensures read { result.read ≡ P.known.in_name halves.now.input }
{
    Joint {
        end,
        place,
        written: P::name(&halves.out),
        read: P::reads(&halves.input),
    }
}

/// Notes that an end joined, with its kind's answer to its peer's identity.
pub(crate) fn note_join<N: Drop>(
    joins: &mut Log<JoinNote<N>, Octets>,
    way: &mut Log<JoinNote<N>, Octets>,
    joint: Joint<N>,
    peer: &Octets,
    answer: Attached,
)
    ensures joins { standing_joins joins.new.items
        ≡ standing_joins joins.old.items ++ joining_as joint peer.now answer ∷ [] }
    ensures way { way_in way.new.items
        ≡ with_came (joining_as joint peer.now answer) joint.place (way_in way.old.items) }
{
    let note = JoinNote::Joined(joint, answer);
    *joins = joins.and(&note, peer);
    *way = way.and(&note, peer);
}

/// Notes that the end that joined last was taken back.
pub(crate) fn note_back<N: Drop>(
    joins: &mut Log<JoinNote<N>, Octets>,
    way: &mut Log<JoinNote<N>, Octets>,
    alloc: Global,
)
    ensures joins { standing_joins joins.new.items ≡ without_last (standing_joins joins.old.items) }
    ensures way { way_in way.new.items ≡ with_undone (way_in way.old.items) }
{
    let note: JoinNote<N> = JoinNote::TakenBack;
    *joins = joins.and(&note, &Octets::new(alloc));
    *way = way.and(&note, &Octets::new(alloc));
}

/// Notes that an end goes from one state to another, if they are two.
pub(crate) fn note_turn<N: Drop>(
    way: &mut Log<JoinNote<N>, Octets>,
    alloc: Global,
    end: EndId,
    was: EndState,
    state: EndState,
)
    ensures { way_in way.new.items ≡ (if is_state was state then way_in way.old.items
        else with_turned end state (way_in way.old.items)) }
{
    if is_same(was, state) {
        return;
    }
    let note: JoinNote<N> = JoinNote::Turned(end, state);
    *way = way.and(&note, &Octets::new(alloc));
}

/// Whether the kind took the end as a peer.
pub(crate) fn is_taken(answer: Attached) -> bool
    ensures { result ≡ is_taken answer }
{
    match answer {
        Attached::Yes => return true,
        Attached::BadId | Attached::Second => return false,
    }
}
