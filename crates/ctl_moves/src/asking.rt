ghost use Rattle.std.specs.Prelude.{◌≡◌};
ghost use Rattle.spec_control.specs.Control.{ask, ask_all, ends_of};
ghost use Rattle.ctl_moves.specs.Turning.{Leads, turn_of};
ghost use Rattle.ctl_moves.specs.Asking.{MayAskOne, MayAskAll, asked_turns};

use crate::turn_end;
use ctl_state::State;
use desk::{Holder, Load};
use msg_pipe::Pipes;
use spec_control::{EndEvent, Reason};
use zq_base::{EndId, ObjId};

/// An end is asked, if it is there.
pub(crate) fn ask_end<P: Pipes, H: Holder<P>>(
    state: &mut State<Load<P::Name, P::Out, P::In>>,
    holder: &mut H,
    e: EndId,
    reason: Reason,
    delay: bool,
)
    requires may { MayAskOne state.old (H.holding holder.old) e }
    ensures { (w : MayAskOne state.old (H.holding holder.old) e) →
        Leads P.known.out_name P.known.in_name w.names
        (turn_of e w.control (ask reason delay e w.control)) (ask reason delay e w.control)
        state.old state.new (H.holding holder.old) (H.holding holder.new) }
{
    if !state.is_here(e) {
        return;
    }
    turn_end(state, holder, e, EndEvent::Asked(reason, delay));
}

/// Each end of an object is asked that is there, in the order of their attachment.
pub(crate) fn ask_ends<P: Pipes, H: Holder<P>>(
    state: &mut State<Load<P::Name, P::Out, P::In>>,
    holder: &mut H,
    at: ObjId,
    reason: Reason,
    delay: bool,
)
    requires may { MayAskAll state.old (H.holding holder.old) at.0 }
    ensures { (w : MayAskAll state.old (H.holding holder.old) at.0) →
        Leads P.known.out_name P.known.in_name w.names
        (asked_turns reason delay (ends_of at.0 w.control) w.control)
        (ask_all reason delay (ends_of at.0 w.control) w.control)
        state.old state.new (H.holding holder.old) (H.holding holder.new) }
{
    if at.0 == 0 {
        return;
    }
    let many = state.ends_of(at).len();
    'each: for place in 0..many {
        let e = state.ends_of(at)[place];
        ask_end(state, holder, e, reason, delay);
    }
}
