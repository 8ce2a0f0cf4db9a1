ghost use Rattle.std.specs.Prelude.{◌≡◌, ◌==◌, true, Some};
ghost use Rattle.zq_base.specs.declared.endpoint.Endpoint.{Endpoint};
ghost use Rattle.spec_control.specs.Hold.{is_connect_to};
ghost use Rattle.spec_control.specs.Control.{Control, owner_of};
ghost use Rattle.spec_control.specs.After.{strike_end, strikes, strikes_first};
ghost use Rattle.ctl_state.specs.Lists.{hold_at};
ghost use Rattle.ctl_state.specs.Stands.{Stands};
ghost use Rattle.ctl_moves.specs.Turning.{TurnsOnce};
ghost use Rattle.ctl_moves.specs.Striking.{Led};
ghost use Rattle.ctl_moves.specs.Striking.{StrikesWith, IsStruck, JoinsNone};

use crate::striking::tell_struck;
use crate::turn_end;
use ctl_state::{Held, State};
use desk::{Holder, Load};
use msg_pipe::Pipes;
use spec_control::{EndEvent, Reason};
use zq_base::{EndId, Endpoint, ObjId};

// Whether an end is one of an object.
fn is_of<L: Drop>(state: &State<L>, e: EndId, id: ObjId) -> bool
    ensures { (c : Control) → Stands state.now c → result ≡ (owner_of c e == id.0) }
{
    state.owner(e) == id
}

// The end of a connect that was struck is asked: at once where it is there, else when it is attached.
fn strike_end<P: Pipes, H: Holder<P>>(
    state: &mut State<Load<P::Name, P::Out, P::In>>,
    holder: &mut H,
    socket: ObjId,
    e: EndId,
)
    requires may { StrikesWith P.known.out_name P.known.in_name
        state.old (H.holding holder.old) socket.0 }
    ensures led { (w : StrikesWith P.known.out_name P.known.in_name
        state.old (H.holding holder.old) socket.0) →
        Led P.known.out_name P.known.in_name w.names (strike_end socket.0 e w.control)
        state.old state.new (H.holding holder.new) }
    ensures turned { (w : StrikesWith P.known.out_name P.known.in_name
        state.old (H.holding holder.old) socket.0) →
        TurnsOnce w.control (strike_end socket.0 e w.control)
        (H.holding holder.old) (H.holding holder.new) }
    ensures joins { JoinsNone (H.holding holder.old) (H.holding holder.new) }
{
    if state.is_away(e) {
        state.strike(e);
        return;
    }
    if !is_of(state, e, socket) {
        return;
    }
    if !state.is_here(e) {
        return;
    }
    turn_end(state, holder, e, EndEvent::Asked(Reason::Closed, false));
}

// What follows where a connect was struck.
fn strike<P: Pipes, H: Holder<P>>(
    state: &mut State<Load<P::Name, P::Out, P::In>>,
    holder: &mut H,
    socket: ObjId,
    to: &Endpoint,
    held: Held,
)
    requires may { StrikesWith P.known.out_name P.known.in_name
        state.old (H.holding holder.old) socket.0 }
    ensures led { (w : StrikesWith P.known.out_name P.known.in_name
        state.old (H.holding holder.old) socket.0) →
        (at : Endpoint) → is_connect_to to.now (hold_at at held) ≡ true →
        Led P.known.out_name P.known.in_name w.names
        (strikes socket.0 to.now (Some (hold_at at held)) w.control)
        state.old state.new (H.holding holder.new) }
    ensures turned { (w : StrikesWith P.known.out_name P.known.in_name
        state.old (H.holding holder.old) socket.0) →
        (at : Endpoint) → is_connect_to to.now (hold_at at held) ≡ true →
        TurnsOnce w.control (strikes socket.0 to.now (Some (hold_at at held)) w.control)
        (H.holding holder.old) (H.holding holder.new) }
    ensures joins { JoinsNone (H.holding holder.old) (H.holding holder.new) }
{
    match held {
        Held::Waits => {
            state.take_back(to, socket);
            return;
        }
        Held::Joined(pair, session) => {
            strike_end(state, holder, socket, EndId { pair, a: true });
            tell_struck(state, socket, session);
            return;
        }
        Held::Bound(_) => return,
    }
}

/// The first connect of a socket to the endpoint is struck, if there is one, with the socket's
/// holder.
pub fn strike_connect<P: Pipes, H: Holder<P>>(
    state: &mut State<Load<P::Name, P::Out, P::In>>,
    holder: &mut H,
    socket: ObjId,
    to: &Endpoint,
)
    requires may { StrikesWith P.known.out_name P.known.in_name
        state.old (H.holding holder.old) socket.0 }
    ensures struck { (w : StrikesWith P.known.out_name P.known.in_name
        state.old (H.holding holder.old) socket.0) →
        IsStruck P.known.out_name P.known.in_name w.names
        (strikes_first socket.0 to.now (is_connect_to to.now) w.control)
        state.old state.new (H.holding holder.new) }
    ensures turned { (w : StrikesWith P.known.out_name P.known.in_name
        state.old (H.holding holder.old) socket.0) →
        TurnsOnce w.control (strikes_first socket.0 to.now (is_connect_to to.now) w.control)
        (H.holding holder.old) (H.holding holder.new) }
    ensures joins { JoinsNone (H.holding holder.old) (H.holding holder.new) }
{
    match state.strike_connect(socket, to) {
        Some(hold) => {
            strike(state, holder, socket, to, hold.held);
            return;
        }
        None => return,
    }
}
