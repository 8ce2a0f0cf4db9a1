ghost use Rattle.std.specs.Prelude.{◌≡◌, ◌<◌, ◌+◌, ◌^◌, length, OnOk, OnErr, IfOk};
ghost use Rattle.spec_control.specs.Control.{draws};
ghost use Rattle.ctl_state.specs.Pairs.{entry_drawn};
ghost use Rattle.ctl_state.specs.Stands.{Updates};
ghost use Rattle.ctl_moves.specs.Room.{HasDrawn, HavePlaces, bound, connecting, with_drawn};

use crate::owners::Owners;
use crate::room::{give_room_back, keep_room};
use ctl_state::State;
use std::alloc::AllocError;
use zq_base::{ObjId, PairId};

// The connecting end's owner: that of the end that is attached first, or of the last one.
fn connecting(o: Owners, a_first: bool) -> ObjId
    ensures { result ≡ connecting a_first o }
{
    if a_first {
        return o.first;
    }
    o.last
}

// The other end's owner.
fn bound(o: Owners, a_first: bool) -> ObjId
    ensures { result ≡ bound a_first o }
{
    if a_first {
        return o.last;
    }
    o.first
}

/// Draws the number of a pair and keeps all room that it takes, so that nothing of its making or of
/// its ending wants memory. End a, the connecting one's, is attached first or last.
pub fn draw_pair<L: Drop>(
    state: &mut State<L>,
    o: Owners,
    a_first: bool,
) -> Result<PairId, AllocError>
    requires there { HavePlaces state.old o }
    requires few { length state.old.pairs < 2 ^ 32 }
    ensures number { IfOk result (λ p. p.0 ≡ length state.old.pairs) }
    ensures ok { OnOk result
        (Updates (draws (connecting a_first o).0 (bound a_first o).0) state.old state.new) }
    ensures next { OnOk result (state.new ≡ with_drawn a_first o state.old) }
    ensures err { OnErr result (state.new ≡ state.old) }
{
    let a_owner = connecting(o, a_first);
    let b_owner = bound(o, a_first);
    keep_room(state, o)?;
    match state.draw(a_owner, b_owner) {
        Ok(pair) => return Ok(pair),
        Err(error) => {
            give_room_back(state, o);
            return Err(error);
        }
    }
}

/// Takes the number back that was drawn last, with the room of its pair.
pub fn undraw_pair<L: Drop>(state: &mut State<L>, o: Owners, a_first: bool, pair: PairId)
    requires drawn { HasDrawn state.old a_first o }
    requires last { pair.0 + 1 ≡ length state.old.pairs }
    ensures { (w : HasDrawn state.old a_first o) → state.new ≡ w.before }
{
    state.undraw(pair.0 as usize);
    give_room_back(state, o);
}
