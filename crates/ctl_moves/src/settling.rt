ghost use Rattle.std.specs.Prelude.{◌≡◌};
ghost use Rattle.desk.specs.Holding.{NoneWrites};
ghost use Rattle.ctl_moves.specs.Settling.{MaySettle, SettlesEnd};

use crate::turning::give_for;
use ctl_state::State;
use desk::{Holder, Load};
use msg_pipe::Pipes;
use spec_control::EndState;
use zq_base::{EndId, Settled};

/// The other end's acknowledgement comes to an end, with the writing half of the pipe that it read:
/// the pipe is settled, and the end is gone. An end that was asked first acknowledges too. The
/// counts of the pipe are the answer.
pub(crate) fn settle_end<P: Pipes, H: Holder<P>>(
    state: &mut State<Load<P::Name, P::Out, P::In>>,
    holder: &mut H,
    e: EndId,
    writer: P::Out,
) -> Settled
    requires may { MaySettle P.known.out_name P.known.in_name
        state.old (H.holding holder.old) e writer }
    requires apart { NoneWrites P.known.exact (P.known.out_name writer) (H.holding holder.old) }
    ensures settles { (w : MaySettle P.known.out_name P.known.in_name
        state.old (H.holding holder.old) e writer) →
        SettlesEnd P.known.out_name P.known.in_name w.names w.control e result
        state.old state.new (H.holding holder.old) (H.holding holder.new) }
    ensures counts { result ≡ H.counts holder.old e writer }
{
    state.needs();
    state.reason_fits(e);
    let owner = state.owner(e);
    let commands = state.end_goes(e);
    holder.set_state(owner, e, EndState::Gone);
    let load = give_for(commands, holder, owner, e);
    let counts = holder.settle(owner, e, writer);
    state.tell_other(commands, e, load);
    counts
}
