ghost use Rattle.std.specs.Prelude.{◌≡◌, ◌<◌, ◌^◌, length, IfOk, OnOk, OnErr};
ghost use Rattle.spec_control.specs.After.{socket_row};
ghost use Rattle.spec_control.specs.Control.{Control};
ghost use Rattle.ctl_state.specs.Objects.{row_made};
ghost use Rattle.ctl_state.specs.Stands.{Stands};
ghost use Rattle.ctl_moves.specs.Bare.{Somewhere};
ghost use Rattle.ctl_moves.specs.Making.{TakesSocket, MakesSocket};

use ctl_state::{Detail, Made, State};
use spec_control::{ObjKind, Use};
use std::alloc::{AllocError, Global};
use zq_base::{Kind, ObjId, Options, SlotId};

/// What a socket of these options is made with: a mailbox of its own, of the next number.
pub fn socket_made<L: Drop>(state: &State<L>, kind: Kind, options: Options) -> Made
    requires few { Somewhere state.now (λ c. c.slots < 2 ^ 32) }
    ensures { (c : Control) → Stands state.now c →
        row_made (record { 0 = 0 }) result ≡ socket_row kind options c }
{
    let slot = SlotId(state.boxes() as u32);
    let detail = Detail {
        options,
        pair: None,
        accepted: false,
        stop: Use::Unused,
        asked_link: true,
        asked_linger: true,
    };
    Made {
        kind: ObjKind::Socket(kind),
        slot,
        plug: false,
        detail,
    }
}

/// Makes an object that is a socket, with room for all that may come for it and about it. Its number
/// is the answer. Where memory wants, the room is given back.
pub fn make<L: Drop>(state: &mut State<L>, alloc: Global, made: Made) -> Result<ObjId, AllocError>
    requires takes { TakesSocket state.old }
    ensures number { IfOk result (λ id. id.0 ≡ length state.old.objects.tree) }
    ensures ok { OnOk result (MakesSocket made state.old state.new) }
    ensures err { OnErr result (state.new ≡ state.old) }
{
    state.reserve(SlotId(0), 2)?;
    match state.make(alloc, ObjId(0), made, 2) {
        Ok(id) => return Ok(id),
        Err(error) => {
            state.release(SlotId(0), 2);
            return Err(error);
        }
    }
}
