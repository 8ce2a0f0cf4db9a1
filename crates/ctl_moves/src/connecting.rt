ghost use Rattle.std.specs.Prelude.{◌≡◌, ◌<◌, ◌+◌, ◌^◌, [], length, true, None, OnOk, OnErr, IfOk};
ghost use Rattle.spec_control.specs.Hold.{Joined as IsJoined};
ghost use Rattle.spec_control.specs.After.{with_hold};
ghost use Rattle.spec_control.specs.Control.{draws, end_of};
ghost use Rattle.desk.specs.Holding.{HearsNone, KeepsTurns, Stays};
ghost use Rattle.ctl_state.specs.Listed.{with_last};
ghost use Rattle.ctl_state.specs.Lists.{belongings_at, with_holds};
ghost use Rattle.ctl_state.specs.Parts.{on_lists};
ghost use Rattle.ctl_state.specs.Stands.{Updates};
ghost use Rattle.ctl_moves.specs.Holding.{joined_at};
ghost use Rattle.ctl_moves.specs.Connecting.{Connects, HasDrawnHeld, MayConnect, with_hold_room};
ghost use Rattle.ctl_moves.specs.Papers.{MayMake};
ghost use Rattle.ctl_moves.specs.Room.{HavePlaces, with_drawn};

use crate::drawing::{draw_pair, undraw_pair};
use crate::first::{FirstMade, make_first};
use crate::joining::join_pair;
use crate::joining_ends::FirstEnd;
use crate::notes::Notes;
use crate::owners::Owners;
use crate::papers::Papers;
use ctl_state::{Held, Hold, State};
use desk::{Holder, Load};
use msg_pipe::Pipes;
use std::alloc::{AllocError, Global};
use zq_base::{EndId, Endpoint, ObjId, PairId};

// Keeps room for a hold of the connecting socket, and draws the pair's number with all its room.
fn draw_held<L: Drop>(state: &mut State<L>, o: Owners) -> Result<PairId, AllocError>
    requires there { HavePlaces state.old o }
    requires few { length state.old.pairs < 2 ^ 32 }
    ensures number { IfOk result (λ p. p.0 ≡ length state.old.pairs) }
    ensures ok { OnOk result (Updates (draws o.first.0 o.last.0) state.old state.new) }
    ensures next { OnOk result
        (state.new ≡ with_drawn true o (with_hold_room o.first.0 state.old)) }
    ensures err { OnErr result (state.new ≡ state.old) }
{
    state.reserve_holds(o.first, 1)?;
    match draw_pair(state, o, true) {
        Ok(pair) => return Ok(pair),
        Err(error) => {
            state.release_holds(o.first, 1);
            return Err(error);
        }
    }
}

// Takes both back.
fn undraw_held<L: Drop>(state: &mut State<L>, o: Owners, pair: PairId)
    requires drawn { HasDrawnHeld state.old o }
    requires last { pair.0 + 1 ≡ length state.old.pairs }
    ensures { (w : HasDrawnHeld state.old o) → state.new ≡ w.before }
{
    undraw_pair(state, o, true, pair);
    state.release_holds(o.first, 1);
}

// The connecting socket holds its connect with the pair that it got, in room that was kept.
fn hold_joined<L: Drop>(state: &mut State<L>, socket: ObjId, at: Endpoint, pair: PairId)
    requires room { 0 < (belongings_at state.old.objects.lists socket.0).holds.spare }
    ensures stands { Updates (with_hold socket.0 (IsJoined at pair.0 None)) state.old state.new }
    ensures next { state.new
        ≡ on_lists (with_holds (with_last (joined_at at pair)) socket.0) state.old }
{
    let held = Held::Joined(pair, None);
    state.hold(socket, Hold { at, held });
}

/// Makes the pair of a connect to the holder of its name: the connecting socket has end a, which is
/// attached at once, and the bind of the other end is put. Where memory wants, all is as before; the
/// holder's ends are too. It costs copies of the two identities.
pub fn connect_pair<P: Pipes, H: Holder<P>>(
    state: &mut State<Load<P::Name, P::Out, P::In>>,
    alloc: Global,
    holder: &mut H,
    o: Owners,
    at: Endpoint,
    wakers: &[P::Waker],
) -> Result<(PairId, Notes<P::Name>), AllocError>
    requires may { MayConnect state.old (H.holding holder.old) o (length wakers.now) }
    requires calm { H.calm holder.old [] }
    requires makes { MayMake state.old o.first o.last (end_of (length state.old.pairs) true) H.may_make }
    ensures ok { IfOk result (λ r. (w : MayConnect state.old (H.holding holder.old) o
        (length wakers.now)) → Connects P.known.out_name P.known.in_name w.control o at r.0 r.1
        state.old state.new (H.holding holder.old) (H.holding holder.new)) }
    ensures err { OnErr result (state.new ≡ state.old) }
    ensures stays { OnErr result
        (Stays o.first.0 (H.holding holder.old) (H.holding holder.new)) }
    ensures keeps { OnErr result (KeepsTurns (H.holding holder.old) (H.holding holder.new)) }
    ensures heard { OnErr result (HearsNone (H.holding holder.old) (H.holding holder.new)) }
{
    let mut notes = match Notes::with_room(alloc, 1) {
        Ok(notes) => notes,
        Err(error) => {
            drop(at);
            return Err(error);
        }
    };
    let pair = match draw_held(state, o) {
        Ok(pair) => pair,
        Err(error) => {
            drop(at);
            drop(notes);
            return Err(error);
        }
    };
    let first = EndId { pair, a: true };
    match make_first(state, alloc, holder, o.first, o, first, wakers) {
        Ok(made) => {
            let FirstMade { said, end } = made;
            let Papers { identity, peer } = said;
            let FirstEnd {
                answer,
                told,
                opened,
                other,
            } = end;
            hold_joined(state, o.first, at, pair);
            join_pair(state, holder, o.first, first, identity, answer, other);
            notes.note(first, peer, answer, told, opened);
            return Ok((pair, notes));
        }
        Err(error) => {
            undraw_held(state, o, pair);
            drop(at);
            drop(notes);
            return Err(error);
        }
    }
}
