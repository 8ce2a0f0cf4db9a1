ghost use Rattle.std.specs.Prelude.{◌≡◌, ◌≢◌, [], true, false};
ghost use Rattle.spec_control.specs.declared.end.EndEvent.TheVariants.{AckCame};
ghost use Rattle.spec_control.specs.Place.{At};
ghost use Rattle.spec_control.specs.Control.{happens};
ghost use Rattle.desk.specs.Holding.{has_end, HearsNone, Stays, TurnsTo};
ghost use Rattle.desk.specs.Counts.{KeepsCounts};
ghost use Rattle.desk.specs.Lent.{has_writer};
ghost use Rattle.ctl_moves.specs.Turning.{yields, needs_writer, Turned, SealsFor, GivesFor};
ghost use Rattle.ctl_moves.specs.Turning.{MayTurn, Leads, IsSoFar, seals_for, turn_of};

use ctl_state::State;
use desk::{Holder, Load};
use msg_pipe::Pipes;
use spec_control::{EndCommands, EndEvent};
use zq_base::{EndId, ObjId};

/// The holder seals the pipe that an end writes, or gives its writing half, as the end's event wants.
pub(crate) fn give_for<P: Pipes, H: Holder<P>>(
    commands: EndCommands,
    holder: &mut H,
    o: ObjId,
    e: EndId,
) -> Option<Load<P::Name, P::Out, P::In>>
    requires here { has_end e ((H.holding holder.old).ends o.0) ≡ true }
    requires writer { needs_writer commands ≡ true → (H.holding holder.old).writes e ≡ true }
    requires out { yields commands ≡ true →
        has_writer (At ((H.holding holder.old).state e)) ≡ false }
    ensures given { GivesFor P.known.out_name P.known.in_name commands o.0 e result
        (H.holding holder.old) }
    ensures turned { Turned o.0 e (yields commands) (H.holding holder.old) (H.holding holder.new) }
    ensures seals { SealsFor commands e (H.holding holder.old) (H.holding holder.new) }
    ensures counts { seals_for commands e ≡ [] → KeepsCounts P.known.out_name o.0 e
        (H.holding holder.old) (H.counts holder.old) (H.counts holder.new) }
    ensures heard { HearsNone (H.holding holder.old) (H.holding holder.new) }
{
    match commands {
        EndCommands::Nothing | EndCommands::Settle => return None,
        EndCommands::TermAndSeal => {
            holder.seal(o, e);
            return None;
        }
        EndCommands::Ack | EndCommands::SettleAndAck => {
            return Some(Load::Writer(holder.yield_writer(o, e)));
        }
    }
}

// The holder is told how far an end is.
fn tell_state<P: Pipes, H: Holder<P>>(
    state: &State<Load<P::Name, P::Out, P::In>>,
    holder: &mut H,
    o: ObjId,
    e: EndId,
)
    requires there { IsSoFar state.now e }
    requires here { has_end e ((H.holding holder.old).ends o.0) ≡ true }
    ensures stays { Stays o.0 (H.holding holder.old) (H.holding holder.new) }
    ensures turns { (w : IsSoFar state.now e) →
        TurnsTo e w.state (H.holding holder.old) (H.holding holder.new) }
    ensures heard { HearsNone (H.holding holder.old) (H.holding holder.new) }
{
    match state.end_state(e) {
        Some(now) => {
            holder.set_state(o, e, now);
            return;
        }
        None => unreachable!(),
    }
}

/// An event of an end, but the other end's acknowledgement: the end goes on in its life, its holder
/// is told, and the other end gets what the event wants told.
pub fn turn_end<P: Pipes, H: Holder<P>>(
    state: &mut State<Load<P::Name, P::Out, P::In>>,
    holder: &mut H,
    e: EndId,
    event: EndEvent,
)
    requires may { MayTurn P.known.out_name P.known.in_name state.old (H.holding holder.old) e event }
    requires stays { event ≢ AckCame }
    ensures { (w : MayTurn P.known.out_name P.known.in_name state.old (H.holding holder.old) e event) →
        Leads P.known.out_name P.known.in_name w.names
        (turn_of e w.control (happens event e w.control)) (happens event e w.control)
        state.old state.new (H.holding holder.old) (H.holding holder.new) }
{
    state.needs();
    let owner = state.owner(e);
    let commands = state.step_end(e, event);
    tell_state(state, holder, owner, e);
    let load = give_for(commands, holder, owner, e);
    state.tell_other(commands, e, load);
}
