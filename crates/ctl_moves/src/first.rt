ghost use Rattle.std.specs.Prelude.{◌≡◌, ◌<◌, ◌∷◌, List, true, length, IfOk, OnOk, OnErr};
ghost use Rattle.zq_base.specs.declared.ids.EndId.{EndId};
ghost use Rattle.spec_control.specs.Control.{Control};
ghost use Rattle.desk.specs.Holding.{HasNowhere, HearsNone, KeepsTurns, Stays};
ghost use Rattle.ctl_state.specs.Stands.{Stands};
ghost use Rattle.ctl_moves.specs.JoiningEnds.{AttachesFirst};
ghost use Rattle.ctl_moves.specs.Papers.{ArePapers, MayMake};

use crate::joining_ends::{FirstEnd, attach_first};
use crate::owners::Owners;
use crate::papers::{Papers, capacities_of, papers_of};
use ctl_state::State;
use desk::{Holder, Load};
use msg_pipe::Pipes;
use std::alloc::{AllocError, Global};
use zq_base::{EndId, ObjId};

/// The first end of a pair, once it is attached, and what the owners tell each other.
#[derive(Drop)]
pub struct FirstMade<N, O, I> {
    pub said: Papers,
    pub end: FirstEnd<N, O, I>,
}

/// Makes the pipes of a pair whose number was drawn, and attaches its first end. Where memory wants,
/// the holder's ends are as before. It costs copies of the two identities.
pub(crate) fn make_first<P: Pipes, H: Holder<P>>(
    state: &State<Load<P::Name, P::Out, P::In>>,
    alloc: Global,
    holder: &mut H,
    socket: ObjId,
    o: Owners,
    first: EndId,
    wakers: &[P::Waker],
) -> Result<FirstMade<P::Name, P::Out, P::In>, AllocError>
    requires mine { o.first_slot.0 < length wakers.now }
    requires theirs { o.last_slot.0 < length wakers.now }
    requires makes { MayMake state.now o.first o.last first H.may_make }
    requires here { (H.holding holder.old).holds socket.0 ≡ true }
    requires new { HasNowhere first (H.holding holder.old) }
    requires calm { (came : List EndId) × H.calm holder.old came }
    ensures said { IfOk result (λ m. (c : Control) → Stands state.now c → ArePapers c o m.said) }
    ensures ok { IfOk result (λ m. AttachesFirst P.known.out_name P.known.in_name socket.0 first
        m.said.peer m.end (H.holding holder.old) (H.holding holder.new)) }
    ensures err { OnErr result (Stays socket.0 (H.holding holder.old) (H.holding holder.new)) }
    ensures keeps { OnErr result (KeepsTurns (H.holding holder.old) (H.holding holder.new)) }
    ensures heard { OnErr result (HearsNone (H.holding holder.old) (H.holding holder.new)) }
    ensures calm { OnOk result ((came : List EndId) →
        H.calm holder.old came → H.calm holder.new (first ∷ came)) }
    ensures still { OnErr result ((came : List EndId) →
        H.calm holder.old came → H.calm holder.new came) }
{
    let said = papers_of(state, alloc, o)?;
    let sizes = capacities_of(state, o);
    let mine = &wakers[o.first_slot.0 as usize];
    let theirs = &wakers[o.last_slot.0 as usize];
    match attach_first(
        holder, alloc, socket, first, &said.peer, sizes, mine, theirs,
    ) {
        Ok(end) => return Ok(FirstMade { said, end }),
        Err(error) => {
            drop(said);
            return Err(error);
        }
    }
}
