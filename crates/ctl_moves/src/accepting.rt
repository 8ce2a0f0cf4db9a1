ghost use Rattle.std.specs.Prelude.{◌≡◌, ◌<◌, ◌+◌, ◌^◌, length, IfOk, OnOk, OnErr};
ghost use Rattle.spec_control.specs.Rows.{obj};
ghost use Rattle.spec_control.specs.After.{accepted_row, owner_or_root};
ghost use Rattle.spec_control.specs.Control.{Control, draws};
ghost use Rattle.ctl_state.specs.Objects.{row_made};
ghost use Rattle.ctl_state.specs.Stands.{Stands, Updates};
ghost use Rattle.ctl_moves.specs.Accepting.{Accepts, AreAcceptedOwners, HasSessionDrawn, MayAccept};
ghost use Rattle.ctl_moves.specs.Accepting.{with_session_drawn};
ghost use Rattle.ctl_moves.specs.Bare.{Somewhere};
ghost use Rattle.ctl_moves.specs.Room.{HaveBoxes};
ghost use Rattle.zq_base.specs.declared.ids.ObjId.{ObjId};

use crate::over_asking::owner_of;
use crate::owners::Owners;
use crate::room::{give_commands_back, keep_commands};
use ctl_state::{Detail, Made, State};
use desk::Load;
use msg_pipe::Pipes;
use spec_control::{ObjKind, Use, Word};
use std::alloc::{AllocError, Global};
use zq_base::{ObjId, Options, PairId};

// A copy of the options of an object that is there.
fn options_of<L: Drop>(state: &State<L>, alloc: Global, id: ObjId) -> Result<Options, AllocError>
    requires may { Somewhere state.now (MayAccept state.now id.0) }
    ensures { IfOk result (λ options. (c : Control) → Stands state.now c →
        options ≡ (obj c.rows id.0).options) }
{
    match state.detail(id) {
        Some(detail) => return detail.options.copy(alloc),
        None => unreachable!(),
    }
}

// What a session is made with that a listener accepts: it lives where the listener does, with the
// options of their socket, and has the next pair.
fn accepted_made<L: Drop>(
    state: &State<L>,
    alloc: Global,
    listener: ObjId,
) -> Result<Made, AllocError>
    requires may { Somewhere state.now (MayAccept state.now listener.0) }
    ensures { IfOk result (λ made. (socket : ObjId) (c : Control) → Stands state.now c →
        owner_or_root (obj c.rows listener.0).owner ≡ socket.0 →
        row_made socket made ≡ accepted_row listener.0 c) }
{
    let options = options_of(state, alloc, listener)?;
    let pair = PairId(state.pairs() as u32);
    let detail = Detail {
        options,
        pair: Some(pair),
        accepted: true,
        stop: Use::Unused,
        asked_link: false,
        asked_linger: false,
    };
    Ok(Made {
        kind: ObjKind::Session,
        slot: state.slot(listener),
        plug: false,
        detail,
    })
}

// The owners of the ends of its pair: the next object, which lives where the listener does, and their
// socket.
fn owners_of<L: Drop>(state: &State<L>, listener: ObjId) -> Owners
    requires may { Somewhere state.now (MayAccept state.now listener.0) }
    ensures { (c : Control) → Stands state.now c → AreAcceptedOwners c listener.0 result }
{
    let socket = owner_of(state, listener);
    Owners {
        first: ObjId(state.objects() as u32),
        last: socket,
        first_slot: state.slot(listener),
        last_slot: state.slot(socket),
    }
}

// Draws the number of its pair, with room for all commands that may come of both. The session is made
// behind that.
fn draw_accepted<L: Drop>(state: &mut State<L>, o: Owners) -> Result<PairId, AllocError>
    requires there { HaveBoxes state.old o }
    requires few { length state.old.pairs < 2 ^ 32 }
    ensures number { IfOk result (λ p. p.0 ≡ length state.old.pairs) }
    ensures ok { OnOk result (Updates (draws o.first.0 o.last.0) state.old state.new) }
    ensures next { OnOk result (state.new ≡ with_session_drawn o state.old) }
    ensures err { OnErr result (state.new ≡ state.old) }
{
    // A Term and two for its end; of its socket a TermReq, a TermAck, two for the end, and the Own.
    keep_commands(state, o, 3, 5)?;
    match state.draw(o.first, o.last) {
        Ok(pair) => return Ok(pair),
        Err(error) => {
            give_commands_back(state, o, 3, 5);
            return Err(error);
        }
    }
}

// Takes the number back that was drawn last, with that room.
fn undraw_accepted<L: Drop>(state: &mut State<L>, o: Owners, pair: PairId)
    requires drawn { HasSessionDrawn state.old o }
    requires last { pair.0 + 1 ≡ length state.old.pairs }
    ensures { (w : HasSessionDrawn state.old o) → state.new ≡ w.before }
{
    state.undraw(pair.0 as usize);
    give_commands_back(state, o, 3, 5);
}

/// Makes the session of a link that a listener has accepted, with the number of its pair, and tells
/// its socket of it; both numbers are the answer. All room that it takes is kept, so that its ending
/// takes no memory. Where memory wants, all is as before. It costs a copy of the options.
pub fn accept<P: Pipes>(
    state: &mut State<Load<P::Name, P::Out, P::In>>,
    alloc: Global,
    listener: ObjId,
) -> Result<(ObjId, PairId), AllocError>
    requires may { Somewhere state.old (MayAccept state.old listener.0) }
    ensures ok { IfOk result (λ r. (c : Control) → Stands state.old c →
        MayAccept state.old listener.0 c → Accepts P.known.out_name P.known.in_name
        c listener.0 r.0 r.1 state.old state.new) }
    ensures err { OnErr result (state.new ≡ state.old) }
{
    state.needs();
    let o = owners_of(state, listener);
    let made = accepted_made(state, alloc, listener)?;
    let pair = match draw_accepted(state, o) {
        Ok(pair) => pair,
        Err(error) => {
            drop(made);
            return Err(error);
        }
    };
    match state.make(alloc, o.last, made, 0) {
        Ok(session) => {
            state.put(o.last, Word::Own(session), None);
            return Ok((session, pair));
        }
        Err(error) => {
            undraw_accepted(state, o, pair);
            return Err(error);
        }
    }
}
