ghost use Rattle.std.specs.Prelude.{◌≡◌, ◌∷◌, [], true, List, IfOk, OnOk, OnErr};
ghost use Rattle.zq_base.specs.declared.ids.EndId.{EndId};
ghost use Rattle.spec_control.specs.Rows.{obj};
ghost use Rattle.desk.specs.Holding.{HasNowhere, HearsNone, IsCapacity, KeepsTurns, Stays};
ghost use Rattle.desk.specs.Making.{inward, outward};
ghost use Rattle.ctl_moves.specs.JoiningEnds.{AttachesFirst};
ghost use Rattle.ctl_moves.specs.SessionEnds.{HoldsAs, IsMarked};

use crate::joining_ends::{Capacities, FirstEnd, attach_first};
use crate::papers::marks_of;
use ctl_state::State;
use desk::Holder;
use msg_pipe::Pipes;
use std::alloc::{AllocError, Global};
use zq_base::{EndId, ObjId, Octets};

/// The capacities of the pipes between a socket and its session, as the socket's end has them: each
/// is one of the socket's marks alone.
pub fn outward_of<L: Drop>(state: &State<L>, socket: ObjId) -> Capacities
    requires marked { IsMarked state.now socket }
    ensures { (w : IsMarked state.now socket) → (e : EndId) →
        HoldsAs (outward (obj w.control.rows socket.0).options e) result }
{
    let marks = marks_of(state, socket);
    Capacities {
        written: marks.out,
        read: marks.input,
    }
}

/// The same as the session's end has them. A session has its socket's options.
pub fn inward_of<L: Drop>(state: &State<L>, session: ObjId) -> Capacities
    requires marked { IsMarked state.now session }
    ensures { (w : IsMarked state.now session) → (e : EndId) →
        HoldsAs (inward (obj w.control.rows session.0).options e) result }
{
    let marks = marks_of(state, session);
    Capacities {
        written: marks.input,
        read: marks.out,
    }
}

/// Makes the pipes of a pair between a socket and its session, whose number was drawn, and attaches
/// this end of it, the first. Its kind is told no identity: the link tells the peer's later, if ever.
/// Want of memory leaves the holder's ends as they were.
pub fn attach_alone<P: Pipes, H: Holder<P>>(
    holder: &mut H,
    alloc: Global,
    o: ObjId,
    end: EndId,
    capacities: Capacities,
    mine: &P::Waker,
    other: &P::Waker,
) -> Result<FirstEnd<P::Name, P::Out, P::In>, AllocError>
    requires here { (H.holding holder.old).holds o.0 ≡ true }
    requires new { HasNowhere end (H.holding holder.old) }
    requires written { IsCapacity capacities.written }
    requires read { IsCapacity capacities.read }
    requires may { H.may_make end capacities.written capacities.read }
    requires calm { (came : List EndId) × H.calm holder.old came }
    ensures ok { IfOk result (λ f. AttachesFirst P.known.out_name P.known.in_name o.0 end [] f
        (H.holding holder.old) (H.holding holder.new)) }
    ensures err { OnErr result (Stays o.0 (H.holding holder.old) (H.holding holder.new)) }
    ensures keeps { OnErr result (KeepsTurns (H.holding holder.old) (H.holding holder.new)) }
    ensures heard { OnErr result (HearsNone (H.holding holder.old) (H.holding holder.new)) }
    ensures calm { OnOk result ((came : List EndId) →
        H.calm holder.old came → H.calm holder.new (end ∷ came)) }
    ensures still { OnErr result ((came : List EndId) →
        H.calm holder.old came → H.calm holder.new came) }
{
    let nobody = Octets::new(alloc);
    attach_first(holder, alloc, o, end, &nobody, capacities, mine, other)
}
