ghost use Rattle.std.specs.Prelude.{◌≡◌, ◌≢◌, [], true, false};
ghost use Rattle.spec_control.specs.declared.letter.Word.TheVariants.{Term};
ghost use Rattle.spec_control.specs.Control.{try_end};
ghost use Rattle.desk.specs.Holding.{HearsMore, IsTold};
ghost use Rattle.desk.specs.Heard.{heard_by, term_with};
ghost use Rattle.ctl_moves.specs.Terming.{children_told, MayTerm, Terms};
ghost use Rattle.desk.specs.Output.{has_left};

use crate::asking::ask_ends;
use crate::output::has_left;
use crate::reasons::{reads_on, term_reason};
use ctl_state::State;
use desk::{Holder, Load};
use msg_pipe::Pipes;
use zq_base::ObjId;

// The holder of an object hears that its Term was processed, and whether it has ended, which nobody
// has of the root.
fn tell_holder<P: Pipes, H: Holder<P>>(holder: &mut H, at: ObjId, ended: bool)
    requires none { ended ≡ true → at.0 ≢ 0 → (H.holding holder.old).ends at.0 ≡ [] }
    ensures told { IsTold at.0 (H.holding holder.old) (H.holding holder.new) }
    ensures kept { ended ≡ false →
        (H.holding holder.new).holds at.0 ≡ (H.holding holder.old).holds at.0 }
    ensures root { at.0 ≡ 0 → H.holding holder.new ≡ H.holding holder.old }
    ensures heard { HearsMore (term_with at ended) (H.holding holder.old) (H.holding holder.new) }
{
    if at.0 == 0 {
        return;
    }
    holder.told(at);
    if ended {
        holder.over(at);
    }
}

/// An object processes its Term, with the holder of its ends: its names and waiting connects leave
/// the book, each end that is there is asked, each child that it has noted is told, and it ends if
/// it can, but a session that had output left, which is the answer. The holder is told. It takes no
/// memory.
pub(crate) fn process_term<P: Pipes, H: Holder<P>>(
    state: &mut State<Load<P::Name, P::Out, P::In>>,
    holder: &mut H,
    at: ObjId,
) -> bool
    requires may { MayTerm state.old (H.holding holder.old) at.0 }
    ensures terms { (w : MayTerm state.old (H.holding holder.old) at.0) →
        Terms P.known.out_name P.known.in_name w.names w.control at.0
        state.old state.new (H.holding holder.old) (H.holding holder.new) }
    ensures left { (w : MayTerm state.old (H.holding holder.old) at.0) →
        result ≡ has_left w.control at.0 (H.holding holder.old) }
    ensures heard { (w : MayTerm state.old (H.holding holder.old) at.0) →
        HearsMore (heard_by at Term w.control
        (try_end at.0 (has_left w.control at.0 (H.holding holder.old)) (children_told at.0 w.control)))
        (H.holding holder.old) (H.holding holder.new) }
{
    let left = has_left(state, holder, at);
    let reason = term_reason(state, at);
    let delay = reads_on(state, at);
    state.term_comes(at);
    state.drop_names(at);
    ask_ends(state, holder, at, reason, delay);
    state.needs();
    state.tell_children(at);
    state.needs();
    let ended = state.try_end(at, left);
    tell_holder(holder, at, ended);
    left
}
