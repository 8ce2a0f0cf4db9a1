ghost use Rattle.std.specs.Prelude.{◌≡◌, [], true, IfOk, OnOk, OnErr};
ghost use Rattle.zq_base.specs.declared.ids.EndId.{EndId};
ghost use Rattle.spec_control.specs.After.{pair_or_none};
ghost use Rattle.spec_control.specs.Rows.{obj};
ghost use Rattle.spec_control.specs.Control.{Control, end_of};
ghost use Rattle.desk.specs.Holding.{HearsNone, KeepsTurns, Stays};
ghost use Rattle.ctl_state.specs.Stands.{Stands, Updates};
ghost use Rattle.ctl_moves.specs.Room.{HavePlaces};
ghost use Rattle.ctl_moves.specs.Shaking.{KeepsShakeRoom, MayMakeIn, MayOpenShaken, MayShakeAt, OpensShaken, Shakes, with_shake_room};

use crate::attaching::greet_end;
use crate::joining_ends::FirstEnd;
use crate::notes::Notes;
use crate::opening::open_pair;
use crate::owners::Owners;
use crate::room::{give_commands_back, keep_commands, keep_places};
use crate::session_ends::{attach_alone, inward_of};
use ctl_state::State;
use desk::{Holder, Load, NamedHalves};
use msg_pipe::Pipes;
use spec_control::Word;
use std::alloc::{AllocError, Global};
use zq_base::{Attached, EndId, ObjId, Octets, PairId};

/// The end that a session has of its pair.
pub fn own_end<L: Drop>(state: &State<L>, session: ObjId) -> EndId
    ensures { (c : Control) → Stands state.now c →
        result ≡ end_of (pair_or_none (obj c.rows session.0).pair) true }
{
    let mut pair = PairId(0);
    if let Some(detail) = state.detail(session)
        && let Some(own) = detail.pair
    {
        pair = own;
    }
    EndId { pair, a: true }
}

// Keeps the room that the making of a pair takes whose commands have theirs: for the bind, and for
// both ends in the lists of their owners.
fn keep_shake_room<L: Drop>(state: &mut State<L>, o: Owners) -> Result<(), AllocError>
    requires there { HavePlaces state.old o }
    ensures ok { OnOk result (Updates (λ c. c) state.old state.new) }
    ensures next { OnOk result (state.new ≡ with_shake_room o state.old) }
    ensures err { OnErr result (state.new ≡ state.old) }
{
    keep_commands(state, o, 0, 1)?;
    match keep_places(state, o) {
        Ok(()) => return Ok(()),
        Err(error) => {
            give_commands_back(state, o, 0, 1);
            return Err(error);
        }
    }
}

// Gives it back.
fn give_shake_room_back<L: Drop>(state: &mut State<L>, o: Owners)
    requires kept { KeepsShakeRoom state.old o }
    ensures { (w : KeepsShakeRoom state.old o) → state.new ≡ w.before }
{
    state.release_ends(o.last, 1);
    state.release_ends(o.first, 1);
    give_commands_back(state, o, 0, 1);
}

// The pair is made whose first end was attached: the bind of the other one is put, and the first one
// stays, or is asked at once.
fn open_shaken<P: Pipes, H: Holder<P>>(
    state: &mut State<Load<P::Name, P::Out, P::In>>,
    holder: &mut H,
    first: EndId,
    identity: Octets,
    answer: Attached,
    other: NamedHalves<P::Name, P::Out, P::In>,
)
    requires may { MayOpenShaken P.known.out_name P.known.in_name
        state.old (H.holding holder.old) first other }
    ensures { (w : MayOpenShaken P.known.out_name P.known.in_name
        state.old (H.holding holder.old) first other) →
        OpensShaken P.known.out_name P.known.in_name w.control first identity answer other
        state.old state.new (H.holding holder.old) (H.holding holder.new) }
{
    let bind = Word::PipeBind(first.other(), identity);
    open_pair(state, first, bind, Some(Load::Halves(other)));
    greet_end(state, holder, first, answer);
}

/// Makes the pair of an accepted session, once its link's handshake has told the peer's identity: the
/// session's end is attached at its holder, and the bind of its socket's end is put. The session has
/// end a. Where memory wants, all is as before; the holder's ends are too.
pub fn shake<P: Pipes, H: Holder<P>>(
    state: &mut State<Load<P::Name, P::Out, P::In>>,
    alloc: Global,
    holder: &mut H,
    session: ObjId,
    first: EndId,
    identity: Octets,
    mine: &P::Waker,
    other: &P::Waker,
) -> Result<Notes<P::Name>, AllocError>
    requires may { MayShakeAt state.old (H.holding holder.old) session.0 first }
    requires calm { H.calm holder.old [] }
    requires makes { MayMakeIn state.old session first H.may_make }
    ensures ok { IfOk result (λ notes. (w : MayShakeAt state.old (H.holding holder.old) session.0 first) →
        Shakes P.known.out_name P.known.in_name w.control session.0 first identity notes
        state.old state.new (H.holding holder.old) (H.holding holder.new)) }
    ensures err { OnErr result (state.new ≡ state.old) }
    ensures stays { OnErr result (Stays session.0 (H.holding holder.old) (H.holding holder.new)) }
    ensures keeps { OnErr result (KeepsTurns (H.holding holder.old) (H.holding holder.new)) }
    ensures heard { OnErr result (HearsNone (H.holding holder.old) (H.holding holder.new)) }
{
    let mut notes = match Notes::with_room(alloc, 1) {
        Ok(notes) => notes,
        Err(error) => {
            drop(identity);
            return Err(error);
        }
    };
    let last = state.owner(first.other());
    let o = Owners::of(state, session, last);
    match keep_shake_room(state, o) {
        Ok(()) => {}
        Err(error) => {
            drop(identity);
            drop(notes);
            return Err(error);
        }
    }
    let sizes = inward_of(state, session);
    match attach_alone(holder, alloc, session, first, sizes, mine, other) {
        Ok(end) => {
            let FirstEnd {
                answer,
                told,
                opened,
                other,
            } = end;
            open_shaken(state, holder, first, identity, answer, other);
            notes.note(first, Octets::new(alloc), answer, told, opened);
            return Ok(notes);
        }
        Err(error) => {
            give_shake_room_back(state, o);
            drop(identity);
            drop(notes);
            return Err(error);
        }
    }
}
