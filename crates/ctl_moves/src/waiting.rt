ghost use Rattle.std.specs.Prelude.{◌≡◌, ◌<◌, None, length, OnOk, OnErr};
ghost use Rattle.spec_control.specs.After.{Answers, connects_to};
ghost use Rattle.ctl_state.specs.Stands.{Updates};
ghost use Rattle.ctl_moves.specs.Naming.{SameEndLists};

use crate::refusals::kind_of;
use ctl_state::{Held, Hold, State};
use std::alloc::{AllocError, Global};
use zq_base::{Endpoint, ObjId};

/// A connect waits for its name, of which this is a copy. Where memory wants, the room is given back.
pub fn wait<L: Drop>(
    state: &mut State<L>,
    alloc: Global,
    socket: ObjId,
    to: &Endpoint,
    copy: Endpoint,
) -> Result<(), AllocError>
    requires there { socket.0 < length state.old.objects.lists }
    requires copy { copy ≡ to.now }
    ensures ok { OnOk result ((h : Answers) →
        Updates (connects_to socket.0 to.now None h) state.old state.new) }
    ensures boxes { state.new.boxes ≡ state.old.boxes }
    ensures ends { OnOk result (SameEndLists state.old.objects.lists state.new.objects.lists) }
    ensures err { OnErr result (state.new ≡ state.old) }
{
    let kind = kind_of(state, socket);
    state.reserve_holds(socket, 1)?;
    match state.wait_for(alloc, to, socket, kind) {
        Ok(()) => {
            state.hold(
                socket,
                Hold {
                    at: copy,
                    held: Held::Waits,
                },
            );
            return Ok(());
        }
        Err(error) => {
            state.release_holds(socket, 1);
            return Err(error);
        }
    }
}
