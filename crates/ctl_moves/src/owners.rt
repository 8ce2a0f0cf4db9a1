ghost use Rattle.spec_control.specs.Control.{Control};
ghost use Rattle.ctl_state.specs.Stands.{Stands};
ghost use Rattle.ctl_moves.specs.Room.{AreOwners};

use ctl_state::State;
use zq_base::{ObjId, SlotId};

/// The owners of a pair's ends with their mailboxes: of the end that is attached first, and of the
/// last one.
#[derive(Clone, Copy, Drop)]
pub struct Owners {
    pub first: ObjId,
    pub last: ObjId,
    pub first_slot: SlotId,
    pub last_slot: SlotId,
}

impl Owners {
    /// These two objects, with their mailboxes.
    pub fn of<L: Drop>(state: &State<L>, first: ObjId, last: ObjId) -> Owners
        ensures { (c : Control) → Stands state.now c → AreOwners c first last result }
    {
        Owners {
            first,
            last,
            first_slot: state.slot(first),
            last_slot: state.slot(last),
        }
    }
}
