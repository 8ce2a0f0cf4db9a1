ghost use Rattle.std.specs.Prelude.{◌≡◌};
ghost use Rattle.spec_control.specs.Control.{greet};
ghost use Rattle.ctl_moves.specs.Greeting.{Asks, MayGreet, refusal};

use ctl_state::State;
use desk::{Holder, Load};
use msg_pipe::Pipes;
use spec_control::{EndEvent, EndState, Reason};
use zq_base::{Attached, EndId, ObjId};

// Why an end is asked that was just attached, where its kind refused it.
fn refusal_of(answer: Attached) -> Option<Reason>
    ensures { result ≡ refusal answer }
{
    match answer {
        Attached::Yes => return None,
        Attached::BadId => return Some(Reason::BadId),
        Attached::Second => return Some(Reason::Second),
    }
}

/// The first end of a pair stays, or is asked at once where its kind refused it.
pub(crate) fn greet_first<P: Pipes, H: Holder<P>>(
    state: &mut State<Load<P::Name, P::Out, P::In>>,
    holder: &mut H,
    o: ObjId,
    first: EndId,
    answer: Attached,
)
    requires may { MayGreet state.old (H.holding holder.old) o.0 first }
    ensures { (w : MayGreet state.old (H.holding holder.old) o.0 first) →
        Asks P.known.out_name P.known.in_name w.control (greet answer first w.control) o.0 first
        state.old state.new (H.holding holder.old) (H.holding holder.new) }
{
    match refusal_of(answer) {
        None => return,
        Some(reason) => {
            state.needs();
            let commands = state.step_end(first, EndEvent::Asked(reason, false));
            holder.set_state(o, first, EndState::AskedOnce);
            holder.seal(o, first);
            state.tell_other(commands, first, None);
            return;
        }
    }
}
