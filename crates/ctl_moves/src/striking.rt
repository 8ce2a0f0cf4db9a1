ghost use Rattle.std.specs.Prelude.{◌≡◌, true, Some};
ghost use Rattle.zq_base.specs.declared.endpoint.Endpoint.{Endpoint};
ghost use Rattle.spec_control.specs.Hold.{is_bind_to};
ghost use Rattle.spec_control.specs.Rows.{obj, is_owner};
ghost use Rattle.spec_control.specs.Control.{Control};
ghost use Rattle.spec_control.specs.After.{tell_struck, strikes, strikes_first};
ghost use Rattle.ctl_state.specs.Boxes.{PutsBare};
ghost use Rattle.ctl_state.specs.Lists.{owner_number, hold_at};
ghost use Rattle.ctl_state.specs.Parts.{Tells};
ghost use Rattle.ctl_state.specs.Stands.{Stands, Updates};
ghost use Rattle.ctl_moves.specs.Bare.{Somewhere};
ghost use Rattle.ctl_moves.specs.Naming.{SameEndLists};
ghost use Rattle.ctl_moves.specs.Striking.{MayStrike};

use ctl_state::{Held, State};
use zq_base::{Endpoint, ObjId};

// Whether this owner is the object of this number.
fn is_owner(owner: Option<ObjId>, id: ObjId) -> bool
    ensures { result ≡ is_owner id.0 (owner_number owner) }
{
    match owner {
        Some(owner) => return owner == id,
        None => return false,
    }
}

// Whether an object is a child of another.
fn is_child<L: Drop>(state: &State<L>, owner: ObjId, child: ObjId) -> bool
    ensures { (c : Control) → Stands state.now c →
        result ≡ is_owner owner.0 (obj c.rows child.0).owner }
{
    match state.row(child) {
        Some(row) => return is_owner(row.owner, owner),
        None => return false,
    }
}

/// The listener or the session of what was struck is told to end, if it has one that may be told.
pub(crate) fn tell_struck<L: Drop>(state: &mut State<L>, socket: ObjId, child: Option<ObjId>)
    requires may { Somewhere state.old (MayStrike state.old socket.0) }
    ensures stands { Updates (tell_struck socket.0 (owner_number child)) state.old state.new }
    ensures only { Tells state.old state.new }
{
    match child {
        Some(child) => {
            if !is_child(state, socket, child) {
                return;
            }
            state.needs();
            state.tell_where(true, socket, child);
            return;
        }
        None => return,
    }
}

// What follows where a bind was struck: its name is free, and its listener is told to end.
fn strike<L: Drop>(state: &mut State<L>, socket: ObjId, to: &Endpoint, held: Held)
    requires may { Somewhere state.old (MayStrike state.old socket.0) }
    ensures stands { (at : Endpoint) → is_bind_to to.now (hold_at at held) ≡ true →
        Updates (strikes socket.0 to.now (Some (hold_at at held))) state.old state.new }
    ensures only { PutsBare state.old.boxes state.new.boxes }
    ensures ends { SameEndLists state.old.objects.lists state.new.objects.lists }
{
    match held {
        Held::Bound(listener) => {
            state.free_name(to);
            tell_struck(state, socket, listener);
            return;
        }
        Held::Waits | Held::Joined(_, _) => return,
    }
}

/// The first bind of a socket to the endpoint is struck, if there is one.
pub fn strike_bind<L: Drop>(state: &mut State<L>, socket: ObjId, to: &Endpoint)
    requires may { Somewhere state.old (MayStrike state.old socket.0) }
    ensures stands { Updates (strikes_first socket.0 to.now (is_bind_to to.now))
        state.old state.new }
    ensures only { PutsBare state.old.boxes state.new.boxes }
    ensures ends { SameEndLists state.old.objects.lists state.new.objects.lists }
{
    match state.strike_bind(socket, to) {
        Some(hold) => {
            strike(state, socket, to, hold.held);
            return;
        }
        None => return,
    }
}
