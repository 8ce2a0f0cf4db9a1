ghost use Rattle.std.specs.Prelude.{◌≡◌, ◌<◌, ◌^◌, None, length, IfOk, OnOk, OnErr};
ghost use Rattle.spec_control.specs.Control.{Control};
ghost use Rattle.ctl_state.specs.Objects.{TakesChild};
ghost use Rattle.ctl_state.specs.Stands.{Stands};
ghost use Rattle.ctl_moves.specs.Bare.{Somewhere};
ghost use Rattle.ctl_moves.specs.Listening.{Listens, MakesListener, MayListen};
ghost use Rattle.ctl_moves.specs.Serving.{AreServed};

use crate::owners::Owners;
use crate::refusals::binding_by;
use crate::serving::{give_served_back, hold_served, keep_served, listener_made};
use ctl_state::{Held, Made, State};
use desk::Load;
use endpoint_book::BindError;
use spec_control::Word;
use std::alloc::{AllocError, Global};
use zq_base::{Address, Endpoint, ObjId};

// A socket gets an endpoint that nobody holds, and a listener. Where memory wants, the name is free
// again.
fn name_listener<L: Drop>(
    state: &mut State<L>,
    alloc: Global,
    socket: ObjId,
    at: &Endpoint,
    made: Made,
) -> Result<ObjId, AllocError>
    requires takes { TakesChild state.old.objects socket }
    requires few { length state.old.boxes < 2 ^ 32 }
    requires free { Somewhere state.old (λ c. c.names.held at.now ≡ None) }
    ensures number { IfOk result (λ id. id.0 ≡ length state.old.objects.tree) }
    ensures ok { OnOk result (MakesListener socket at.now made state.old state.new) }
    ensures err { OnErr result (state.new ≡ state.old) }
{
    let binding = binding_by(state, socket);
    match state.hold_name(alloc, at, binding) {
        Ok(()) => match state.make(alloc, socket, made, 0) {
            Ok(id) => return Ok(id),
            Err(error) => {
                state.free_from(at, socket);
                return Err(error);
            }
        },
        Err(BindError::InUse) => unreachable!(),
        Err(BindError::OutOfMemory) => {
            drop(made);
            return Err(AllocError);
        }
    }
}

/// A socket binds over tcp: it holds the address with a listener, whose Own is put for the socket and
/// whose Plug with the address for its worker. Where memory wants, all is as before. It costs a copy
/// of the socket's options.
pub fn listen<N: Drop, O: Drop, I: Drop>(
    state: &mut State<Load<N, O, I>>,
    alloc: Global,
    o: Owners,
    at: Address,
) -> Result<ObjId, AllocError>
    requires may { MayListen state.old o at }
    ensures ok { IfOk result (λ child. (w : MayListen state.old o at) →
        Listens w.control o at child state.old state.new) }
    ensures err { OnErr result (state.new ≡ state.old) }
{
    let made = listener_made(state, alloc, o)?;
    match keep_served(state, o, 3, 2) {
        Ok(()) => {}
        Err(error) => {
            drop(made);
            return Err(error);
        }
    }
    match name_listener(state, alloc, o.first, &Endpoint::Tcp(at), made) {
        Ok(child) => {
            hold_served(state, o.first, at, Held::Bound(Some(child)), child);
            state.put(child, Word::Plug(None), Some(Load::Plug(at, None)));
            return Ok(child);
        }
        Err(error) => {
            give_served_back(state, o, 3, 2);
            return Err(error);
        }
    }
}
