ghost use Rattle.std.specs.Prelude.{◌≡◌, ◌<◌, None, length, OnOk, OnErr};
ghost use Rattle.ctl_state.specs.Stands.{Updates};
ghost use Rattle.ctl_moves.specs.Bare.{Somewhere};
ghost use Rattle.ctl_moves.specs.Naming.{bound_now};
ghost use Rattle.ctl_moves.specs.Naming.{SameEndLists};

use crate::binding_by;
use ctl_state::{Held, Hold, State};
use endpoint_book::BindError;
use std::alloc::{AllocError, Global};
use zq_base::{Endpoint, ObjId};

/// A socket gets an endpoint that nobody holds, of which this is a copy, and the connects that it
/// fulfils leave the book. Where memory wants, the room is given back.
pub fn take_name<L: Drop>(
    state: &mut State<L>,
    alloc: Global,
    socket: ObjId,
    at: &Endpoint,
    copy: Endpoint,
) -> Result<(), AllocError>
    requires there { socket.0 < length state.old.objects.lists }
    requires copy { copy ≡ at.now }
    requires free { Somewhere state.old (λ c. c.names.held at.now ≡ None) }
    ensures ok { OnOk result (Updates (bound_now socket.0 at.now) state.old state.new) }
    ensures boxes { state.new.boxes ≡ state.old.boxes }
    ensures ends { OnOk result (SameEndLists state.old.objects.lists state.new.objects.lists) }
    ensures err { OnErr result (state.new ≡ state.old) }
{
    let binding = binding_by(state, socket);
    state.reserve_holds(socket, 1)?;
    match state.hold_name(alloc, at, binding) {
        Ok(()) => {
            let held = Held::Bound(None);
            state.hold(socket, Hold { at: copy, held });
            state.take_waiting(at, binding);
            return Ok(());
        }
        Err(BindError::InUse) => unreachable!(),
        Err(BindError::OutOfMemory) => {
            state.release_holds(socket, 1);
            return Err(AllocError);
        }
    }
}
