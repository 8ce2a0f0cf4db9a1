ghost use Rattle.std.specs.Prelude.{◌≡◌, IfOk};
ghost use Rattle.spec_control.specs.Rows.{obj};
ghost use Rattle.spec_control.specs.Control.{Control};
ghost use Rattle.ctl_state.specs.Stands.{Stands};
ghost use Rattle.ctl_moves.specs.Papers.{AreCapacities, AreMarked, ArePapers, MarksAre};

use crate::joining_ends::Capacities;
use crate::owners::Owners;
use ctl_state::State;
use std::alloc::{AllocError, Global};
use zq_base::{ObjId, Octets};

/// How many messages a socket may send ahead, and how many may wait for it.
#[derive(Clone, Copy, Drop)]
pub struct Marks {
    pub out: u32,
    pub input: u32,
}

/// What the owners of a pair's ends tell each other: their identities.
#[derive(Drop)]
pub struct Papers {
    /// That of the first end's owner.
    pub identity: Octets,
    /// That of the last one's.
    pub peer: Octets,
}

/// The marks of an object.
pub(crate) fn marks_of<L: Drop>(state: &State<L>, id: ObjId) -> Marks
    ensures { (c : Control) → Stands state.now c → MarksAre (obj c.rows id.0) result }
{
    match state.detail(id) {
        Some(detail) => {
            return Marks {
                out: detail.options.hwm,
                input: detail.options.rcvhwm,
            };
        }
        None => return Marks { out: 0, input: 0 },
    }
}

// A copy of an object's identity.
fn identity_of<L: Drop>(state: &State<L>, alloc: Global, id: ObjId) -> Result<Octets, AllocError>
    ensures { IfOk result (λ octets. (c : Control) → Stands state.now c →
        octets ≡ (obj c.rows id.0).options.id) }
{
    match state.detail(id) {
        Some(detail) => return detail.options.id.copy(alloc),
        None => return Ok(Octets::new(alloc)),
    }
}

/// The capacities of the pipes between two sockets.
pub fn capacities_of<L: Drop>(state: &State<L>, o: Owners) -> Capacities
    requires marked { AreMarked state.now o }
    ensures { (w : AreMarked state.now o) → AreCapacities w.control o result }
{
    let first = marks_of(state, o.first);
    let last = marks_of(state, o.last);
    Capacities {
        written: first.out + last.input,
        read: last.out + first.input,
    }
}

/// What the owners of a pair's ends tell each other, in copies.
pub fn papers_of<L: Drop>(state: &State<L>, alloc: Global, o: Owners) -> Result<Papers, AllocError>
    ensures { IfOk result (λ x. (c : Control) → Stands state.now c → ArePapers c o x) }
{
    let identity = identity_of(state, alloc, o.first)?;
    let peer = identity_of(state, alloc, o.last)?;
    Ok(Papers { identity, peer })
}
